//! Laws of texts of several documents, each the contract of an empty function.

ghost use Rattle.proof_loads.specs.InTurn.{LayoutsInTurnMeanTheirTrees, LayoutsInTurnAreWithoutNul, DumpsInTurnMeanTheirTrees};

/// The text of several basic layouts, each followed by an LF, means their trees, in order.
#[tactic(auto, using(crate::proofs::InTurn::layouts_in_turn_are_read))]
pub fn layouts_in_turn_mean_their_trees()
    ensures { LayoutsInTurnMeanTheirTrees }
{}

/// The text of several basic layouts has no NUL.
#[tactic(auto, using(crate::proofs::InTurn::layouts_in_turn_have_no_nul))]
pub fn layouts_in_turn_are_without_nul()
    ensures { LayoutsInTurnAreWithoutNul }
{}

/// In each setting, the dumps of trees that can be written, each followed by an LF, mean those trees.
#[tactic(auto, using(crate::proofs::InTurn::dumps_in_turn_are_read))]
pub fn dumps_in_turn_mean_their_trees()
    ensures { DumpsInTurnMeanTheirTrees }
{}
