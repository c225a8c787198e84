//! Trees to text.
pub use yaml_emitter::{EmitError, EmitResult, FmtWriter, Writer, YamlEmitter};
