//! Laws of layouts. Each law is the contract of an empty function.

ghost use Rattle.proof_loads.specs.LayoutTexts.{LayoutsMeanTheirTrees, LayoutsAreWithoutNul};

/// A layout means its trees, one for each document, in order.
#[tactic(auto, using(crate::proofs::LayoutTexts::layouts_are_read))]
pub fn layouts_mean_their_trees()
    ensures { LayoutsMeanTheirTrees }
{}

/// No layout has a NUL.
#[tactic(auto, using(crate::proofs::LayoutNul::layouts_have_no_nul))]
pub fn layouts_are_without_nul()
    ensures { LayoutsAreWithoutNul }
{}
