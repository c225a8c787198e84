//! Bytes to text: the encoding of an input, its characters and malformations, and what a trap makes
//! of these.
#![tactic(auto)]

mod encoding;
mod growing;
mod malformation;
mod message;
mod sequence;
pub mod stop;
pub mod text;
pub mod trap;
mod utf_16;
mod utf_8;
mod valid;

pub use stop::Stop;
pub use text::text_of;
pub use trap::{YAMLDecodingTrap, YAMLDecodingTrapFn};
