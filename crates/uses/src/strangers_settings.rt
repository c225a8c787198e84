//! Settings that a stranger wrote, with their positions: loaded once, within limits.
ghost use Rattle.std.specs.Prelude.{false, IfOk, chars};
ghost use Rattle.yaml_loader.specs.Sizes.{AreNoDeeper};
ghost use Rattle.yaml_loader.specs.MarkedDocuments.{trees_of, marks_of_all};
ghost use Rattle.yaml_loader.specs.MarkedLoading.{AreMarksOf};
ghost use Rattle.yaml_rust2.specs.Text.{up_to_nul};
ghost use Rattle.yaml_rust2.specs.Meaning.{Means};

use std::alloc::Global;
use yaml_loader::limits::{Limits, LimitsError, load_marked_with_limits};
use yaml_loader::marked::MarkedDocuments;

#[cfg(test)]
mod tests;

/// The documents of a text that a stranger wrote, each node with its position, with at most so many levels. An `Err` is the
/// text's fault, or says where the text is too deep or too large.
pub fn load_marked_from_stranger(
    alloc: Global,
    text: &str,
    levels: usize,
) -> Result<MarkedDocuments, LimitsError>
    ensures reads { IfOk result (λ d. Means false (up_to_nul (chars text.now)) (trees_of d)) }
    ensures marks { IfOk result (λ d. AreMarksOf false (up_to_nul (chars text.now)) (marks_of_all d)) }
    ensures levels { IfOk result (λ d. AreNoDeeper levels (trees_of d)) }
{
    let Limits { size, .. } = Limits::for_text(text);
    load_marked_with_limits(alloc, text, Limits { levels, size })
}
