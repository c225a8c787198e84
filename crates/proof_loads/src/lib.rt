//! What a load of a text returns: the promises of the scanner, the parser and the loader put together. Below that, the tokens of whole
//! texts: the scanner's model gives every JSON text, every layout and every text of one quoted scalar exactly its tokens.
#![tactic(auto)]

pub mod cuts;
pub mod documents;
pub mod in_turn;
pub mod laws;
pub mod layouts;
pub mod quoted;
pub mod rows;
