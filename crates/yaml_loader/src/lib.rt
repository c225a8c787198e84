//! The loader: the events of a YAML stream, read as trees.
//!
//! [`YamlLoader`] loads all documents of a text. [`documents`] gives them one by one, [`limits`] refuses what nests too deep or makes
//! too much, [`marked`] says where each node begins, and [`decoder`] loads bytes.
#![tactic(auto)]

mod count;
pub mod decoder;
pub mod documents;
mod extent;
mod guard;
pub mod laws;
mod limited_document;
mod limited_documents;
mod limited_load;
mod limited_marked;
pub mod limits;
mod limits_error;
mod load;
pub mod loader;
mod mark;
pub mod marked;
mod marked_documents;
mod marked_load;
mod marked_lookup;
mod marked_node;
mod marked_parts;
mod marked_receiver;
mod marking;
mod node;
mod one_document;
pub mod reading;
mod scalar;

pub use loader::YamlLoader;
