//! Rows are cuts, and what a text means is read of a cut of it. Each law is the contract of an empty function.

ghost use Rattle.proof_loads.specs.Cuts.{RowsAreCuts, MeantTreesAreReadOfACut};

/// The tokens of the row of a text without NUL are a cut of it: the text is a row of separations and pieces in order, and each piece
/// belongs to its token.
#[tactic(auto, using(crate::proofs::CutTexts::rows_are_cut))]
pub fn rows_are_cuts()
    ensures { RowsAreCuts }
{}

/// A text, up to its first NUL, that means trees has a cut, whose tokens are read as these trees: the text is a row of
/// separations and pieces in order, each piece belongs to its token, and the events of these tokens are read as the
/// trees.
#[tactic(auto, using(crate::proofs::CutTexts::read_of_a_cut))]
pub fn meant_trees_are_read_of_a_cut()
    ensures { MeantTreesAreReadOfACut }
{}
