//! YAML trees: nodes, arrays and hashes, their order, and what a plain text stands for.
//!
//! [`stands_for`] tells whether a plain text is an integer, a null, a boolean, a real, or its own string (YAML 1.2, section 10.3.2), and
//! [`decimal`] has the parts of a number that JSON writes as YAML does. [`Blocks`] is the index of a long hash.
#![tactic(auto)]

pub mod array;
mod block;
pub mod blocks;
mod compare;
mod content;
mod copy;
pub mod count;
mod debug;
pub mod decimal;
mod digest;
mod discard;
pub mod entries;
pub mod entry;
mod feed;
mod few;
pub mod hash;
pub mod items;
pub mod laws;
mod levels;
mod lines;
mod lookup;
pub mod moves;
mod place;
mod plain;
mod ranks;
mod row;
mod search;
mod starts;
mod steps;
mod typing;
pub mod yaml;

pub use array::Array;
pub use blocks::Blocks;
pub use count::Count;
pub use entry::{Entry, Spot};
pub use hash::Hash;
pub use items::YamlIter;
pub use levels::Levels;
pub use plain::{Meaning, is_real, is_string, stands_for};
pub use steps::Steps;
pub use yaml::Yaml;
