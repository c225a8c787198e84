//! Texts, read as trees with positions within limits.
ghost use Rattle.std.specs.Prelude.{ℕ, List, false, IfOk, chars};
ghost use Rattle.defs_text.specs.Text.{up_to_nul};
ghost use Rattle.yaml_loader.specs.Limited.{Answers, GivesAll};
ghost use Rattle.yaml_loader.specs.LimitedMarked.{without_positions};
ghost use Rattle.yaml_loader.specs.MarkedDocuments.{marks_of_all};
ghost use Rattle.yaml_loader.specs.MarkedLoading.{AreMarksOf};
ghost use Rattle.yaml_loader.specs.Receiving.{HasTaken};

use crate::guard::Guard;
use crate::laws::{refused_texts_want_memory, taken_events_are_read, taken_texts_are_loaded};
use crate::limits::Limits;
use crate::limits_error::LimitsError;
use crate::marked::{MarkedDocuments, MarkedLoader};
use std::alloc::Global;
use yaml_chars::TextInMemory;

/// Loads all documents of a text, each node with the position where it begins, as [`load_marked`](crate::marked::load_marked) does, if they
/// are within limits. Positions count for nothing: they take memory in proportion to the nodes.
///
/// # Example
///
/// ```
/// let documents = load_marked_with_limits(alloc, text, Limits::for_text(text))?;
/// let document = documents.first().ok_or("no document")?;
/// let port = document.get_key("port").ok_or("no port")?;
/// assert_eq!(rt; (port.marker().line(), port.marker().col()), (2, 6));
/// ```
///
/// # Errors
///
/// Those of [`load_with_limits`](crate::limits::load_with_limits), with the same positions.
pub fn load_marked_with_limits(
    alloc: Global,
    text: &str,
    limits: Limits,
) -> Result<MarkedDocuments, LimitsError>
    ensures loads { Answers limits (up_to_nul (chars text.now)) (without_positions result) }
    ensures marks { IfOk result (λ d. AreMarksOf false (up_to_nul (chars text.now)) (marks_of_all d)) }
{
    taken_texts_are_loaded();
    taken_events_are_read();
    refused_texts_want_memory();
    let loader = MarkedLoader::new(alloc);
    let mut guard = Guard::new(alloc, loader, limits);
    let source = TextInMemory::new(text);
    guard.read(alloc, source)?;
    documents_of(guard.receiver)
}

// What a loader that took all events gives.
fn documents_of(loader: MarkedLoader) -> Result<MarkedDocuments, LimitsError>
    requires { (text : List ℕ) × HasTaken text loader }
    ensures gives { GivesAll loader.loader (without_positions result) }
    ensures marks { (text : List ℕ) → HasTaken text loader → IfOk result (λ d. AreMarksOf false text (marks_of_all d)) }
{
    Ok(loader.into_documents()?)
}
