//! Texts, read as trees with positions.
ghost use Rattle.std.specs.Prelude.{◌≡◌, false, IfOk, chars};
ghost use Rattle.defs_text.specs.Text.{up_to_nul};
ghost use Rattle.yaml_loader.specs.TextLoads.{LoadsText};
ghost use Rattle.yaml_loader.specs.MarkedDocuments.{marks_of_all};
ghost use Rattle.yaml_loader.specs.MarkedLoading.{plain, AreMarksOf};

use crate::laws::taken_texts_are_loaded;
use crate::marked_documents::MarkedDocuments;
use crate::marked_receiver::MarkedLoader;
use std::alloc::Global;
use yaml_tokens::ScanError;

/// Loads all documents of a text, each node with the position where it begins.
///
/// # Example
///
/// ```
/// let documents = load_marked(alloc, "host: a\nport: none\n")?;
/// let document = documents.first().ok_or("no document")?;
/// let port = document.get_key("port").ok_or("no port")?;
/// assert_eq!(rt; port.as_i64(), None);
/// assert_eq!(rt; (port.marker().line(), port.marker().col()), (2, 6));
/// ```
///
/// # Errors
///
/// Those of `YamlLoader::load_from_str`, with the same positions.
pub fn load_marked(alloc: Global, text: &str) -> Result<MarkedDocuments, ScanError>
    ensures reads { LoadsText false (up_to_nul (chars text.now)) (plain result) }
    ensures marks { IfOk result (λ d. AreMarksOf false (up_to_nul (chars text.now)) (marks_of_all d)) }
{
    taken_texts_are_loaded();
    let loader = MarkedLoader::of_text(alloc, text)?;
    loader.into_documents()
}
