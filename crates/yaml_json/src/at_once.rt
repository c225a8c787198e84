//! JSON texts, read at once into their trees.
//!
//! A YAML text that is JSON needs none of YAML's tokens and events: [`read_json`] reads it in one pass. It gives a tree only where
//! the text is one of the class of JSON texts of the definitions, and then the tree that the definitions give it. For each other
//! text it gives nothing, and the general way reads that text from its start. A first look, which builds nothing, ends where a text does
//! not go on as JSON; so few texts are read both ways.
pub use crate::place::position_behind;
pub use crate::stop::Refused;
pub use crate::text::read_json;
