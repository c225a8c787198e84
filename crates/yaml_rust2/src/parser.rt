//! Tokens to events (YAML 1.2, section 3.1).
pub use yaml_parser::{Event, EventReceiver, MarkedEventReceiver, ParseResult, Parser, Tag};
