//! Characters to tokens.
pub use yaml_chars::{Characters, Marker};
pub use yaml_scanner::{Backlog, PlainNode, Scanner};
pub use yaml_tokens::{Chomping, ScanError, ScanResult, TEncoding, TScalarStyle, Token, TokenType};
