//! What the command line programs share: their options, as a table declares them, their help, the bytes of their files, how they
//! end, and the line that they print for an event.
#![tactic(auto)]

mod bounds;
mod events;
mod failure;
mod file_program;
mod files;
mod option;
mod program;
mod words;

pub use bounds::{Bounds, MAX_LEVELS, MAX_SIZE, NO_LIMITS};
pub use events::write_event;
pub use failure::{Failure, Refusal, Tell};
pub use file_program::FileProgram;
pub use files::{read, without_byte_order_mark};
pub use option::ProgramOption;
pub use program::{Program, arguments, begin};
