//! Characters: their classes, texts that grow by them, positions in a text, and a window over any
//! iterator of characters.
#![tactic(auto)]

mod block_line;
pub mod characters;
pub mod class;
mod count;
pub mod ghost_list;
mod lanes;
mod looks;
pub mod marker;
mod ring;
mod run;
pub mod source;
pub mod text_builder;
pub mod window;

pub use block_line::{BlockLine, opens_simple};
pub use characters::{Characters, TextInMemory};
pub use marker::Marker;
pub use run::Run;
pub use text_builder::TextBuilder;
pub use window::Window;
