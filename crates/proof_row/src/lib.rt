//! Theorems about definitions alone: each piece of a text has one end, a text has at most one row of tokens, and so at most one list of events
//! and one meaning.
#![tactic(auto)]

pub mod laws;
