//! Tokens, the faults of scanner, parser and loader, and a fault shown with its line of the text.
#![tactic(auto)]

mod excerpt;
pub mod fault;
mod line;
pub mod problem;
pub mod token;

pub use excerpt::Excerpt;
pub use fault::{ScanError, ScanResult};
pub use problem::{Fault, Problem};
pub use token::{Chomping, TEncoding, TScalarStyle, Token, TokenType};
