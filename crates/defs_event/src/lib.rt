//! Definitions over the events of a YAML stream: the token grammar, how nested events are read as trees, and where the nodes of these begin;
//! what a text means, by the tokens of its row; and their laws.
#![tactic(auto)]

pub mod laws;
