//! The tokens that the scanner's exact model gives a text are a cut of it, and those of its row; a text with a row is not refused; where a text
//! is refused, and why: theorems about the model and the definition of a row.
#![tactic(auto)]

pub mod laws;
