//! YAML trees to text.
#![tactic(auto)]

mod deep;
mod emitter;
mod ends;
mod escape;
mod fmt_writer;
pub mod laws;
mod line;
mod literal;
mod node;
mod number;
mod quoting;
mod runs;
mod scalar;
mod walk;
mod writer;

pub use emitter::{EmitError, EmitResult, YamlEmitter};
pub use escape::{DoubleQuoted, write_double_quoted};
pub use fmt_writer::FmtWriter;
pub use line::start_line;
pub use node::has_parts;
pub use writer::{Writer, put_ascii};
