//! Laws of the JSON texts of trees: functions whose clause is a theorem about the definitions. A proof calls a law to
//! learn its theorem.

pub use defs_layout::laws::{json_has_no_fault, json_texts_are_json, values_have_json};
