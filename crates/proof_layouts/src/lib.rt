//! The tokens of every JSON text, every layout and every text of one quoted scalar are a stream of the token grammar, whose events are read as
//! the text's trees; what follows for a loader from any tokens that are read as trees; and the dump of a tree is a basic layout of it.
#![tactic(auto)]

pub mod laws;
