//! The token grammar's machine, which reads by the grammar's table, and a parser's way through the table, with their theorems; the tokens that
//! may still come under a stack of parser states, and a lemma for each step of the parser.
#![tactic(auto)]

pub mod context;
pub mod kind;
pub mod laws;
pub mod state;

pub use context::NodeContext;
pub use kind::Kind;
pub use state::State;
