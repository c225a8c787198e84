//! What the lexing functions' exact model reads as the text of a token is what the definitions say of it: theorems
//! about the model.
#![tactic(auto)]

pub mod laws;
