//! The parser: the tokens of a YAML stream, read as its events.
#![tactic(auto)]

mod block;
mod document;
pub mod event;
mod flow;
pub mod kind;
mod load;
pub mod looked;
pub mod names;
pub mod node;
pub mod parser;
pub mod pull;
pub mod reader;
pub mod receiver;
pub mod slot;
pub mod stack;
pub mod tokens;

pub use event::{Event, ParseResult, Tag};
pub use parser::Parser;
pub use receiver::{EventReceiver, MarkedEventReceiver};
