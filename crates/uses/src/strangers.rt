//! A text that a stranger wrote. Each alias is a copy of a node, so a short text can ask for much memory; and a text may nest
//! so deep that a comparison of its trees runs out of stack.
ghost use Rattle.std.specs.Prelude.{false, IfOk, chars};
ghost use Rattle.yaml_loader.specs.Sizes.{AreNoDeeper};
ghost use Rattle.yaml_rust2.specs.Text.{up_to_nul};
ghost use Rattle.yaml_rust2.specs.Meaning.{Means};
ghost use Rattle.yaml_rust2.specs.View.{items_view};

use std::alloc::Global;
use yaml_loader::limits::{Limits, LimitsError, load_with_limits};
use yaml_rust2::Yaml;

#[cfg(test)]
mod tests;

/// The documents of a text that a stranger wrote, with at most so many levels. An `Err` is the text's fault, or says where
/// the text is too deep or too large.
pub fn load_from_stranger(
    alloc: Global,
    text: &str,
    levels: usize,
) -> Result<Vec<Yaml>, LimitsError>
    ensures reads { IfOk result (λ documents. Means false (up_to_nul (chars text.now)) (items_view documents.items)) }
    ensures levels { IfOk result (λ documents. AreNoDeeper levels (items_view documents.items)) }
{
    let Limits { size, .. } = Limits::for_text(text);
    load_with_limits(alloc, text, Limits { levels, size })
}
