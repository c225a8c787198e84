//! A log of many documents, which are read one by one, so that it takes the memory of one.
ghost use Rattle.std.specs.Prelude.{◌≡◌, false, chars, IfErr, IfOk, List};
ghost use Rattle.uses.specs.Tables.{has_other};
ghost use Rattle.yaml_loader.specs.FirstDocuments.{IsStopped};
ghost use Rattle.yaml_rust2.specs.Text.{up_to_nul};
ghost use Rattle.yaml_rust2.specs.Meaning.{Means};
ghost use Rattle.yaml_rust2.specs.Tree.{Tree};

use std::alloc::Global;
use yaml_loader::documents::Documents;
use yaml_rust2::ScanError;

#[cfg(test)]
mod tests;

/// Whether a document of a log is no mapping. The log is read to its end.
///
/// # Errors
///
/// The fault that stops the log. The documents before it were read.
pub fn has_other_than_mappings(alloc: Global, log: &str) -> Result<bool, ScanError>
    ensures all { IfOk result (λ other. (documents : List Tree) × Means false (up_to_nul (chars log.now)) documents × (other ≡ has_other documents)) }
    ensures stopped { IfErr result (λ fault. (documents : List Tree) × IsStopped false (up_to_nul (chars log.now)) documents fault) }
{
    let mut other = false;
    'documents: for document in Documents::new(alloc, log) {
        let document = document?;
        if !document.is_hash() {
            other = true;
        }
    }
    Ok(other)
}
