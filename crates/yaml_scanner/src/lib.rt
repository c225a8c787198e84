//! Characters to tokens: the scanner of YAML 1.2 streams. What it holds between two tokens has types of its own: what may be
//! an implicit key (`keys`), the levels of indentation (`levels`), the tokens that wait (`queue`), and stacks (`stack`).
#![tactic(auto)]

mod block;
mod fetch;
mod fetcher;
mod fill;
mod flow;
mod indents;
mod key_value;
pub mod keys;
pub mod levels;
mod public;
pub mod queue;
mod scanner;
mod space;
pub mod stack;
mod whole_line;

pub use fetcher::{Backlog, Failed};
pub use key_value::PlainNode;
pub use keys::{ImplicitKey, ImplicitKeys};
pub use levels::Levels;
pub use queue::Queue;
pub use scanner::Scanner;
pub use stack::Stack;
