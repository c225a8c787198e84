//! Definitions of the kinds of token; of a cut, a text as a row of pieces, one for each token; and of the row of tokens of a text: which
//! tokens stand in it, and where. There is no code.
#![tactic(auto)]
