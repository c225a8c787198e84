//! The exact model of the scanner and of its lexing functions: functions on its state and on lists of characters. And the small types that the
//! model shares with the code.
#![tactic(auto)]

pub mod class;
pub mod context;
pub mod kind;
pub mod level;

pub use class::{Class, class_of};
pub use context::{Context, SkipTabs, Whitespace};
pub use kind::{BlockStyle, Collection, Digits, Escape, NameKind, QuotedPart, Quotes};
pub use level::{FlowLevel, Indent};
