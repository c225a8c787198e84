//! A log that a stranger wrote: its documents are read one by one, each within limits.
ghost use Rattle.std.specs.Prelude.{◌≡◌, false, chars, IfErr, IfOk, List};
ghost use Rattle.uses.specs.Tables.{has_other};
ghost use Rattle.yaml_loader.specs.LimitedOneByOne.{IsStoppedWithin};
ghost use Rattle.yaml_rust2.specs.Text.{up_to_nul};
ghost use Rattle.yaml_rust2.specs.Meaning.{Means};
ghost use Rattle.yaml_rust2.specs.Tree.{Tree};

use std::alloc::Global;
use yaml_loader::limits::{LimitedDocuments, Limits, LimitsError};

#[cfg(test)]
mod tests;

/// Whether a document of a log is no mapping. The log is read to its end, and each of its documents lies within the limits.
///
/// # Errors
///
/// What stops the log: its fault, or where a document goes over the limits. The documents before it were read.
pub fn has_other_than_mappings(
    alloc: Global,
    log: &str,
    limits: Limits,
) -> Result<bool, LimitsError>
    ensures all { IfOk result (λ other. (documents : List Tree) × Means false (up_to_nul (chars log.now)) documents × (other ≡ has_other documents)) }
    ensures stopped { IfErr result (λ error. (documents : List Tree) × IsStoppedWithin limits (up_to_nul (chars log.now)) documents error) }
{
    let mut other = false;
    'documents: for document in LimitedDocuments::new(alloc, log, limits) {
        let document = document?;
        if !document.is_hash() {
            other = true;
        }
    }
    Ok(other)
}
