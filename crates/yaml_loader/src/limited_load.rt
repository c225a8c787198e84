//! Texts, read as trees within limits.
ghost use Rattle.std.specs.Prelude.{chars};
ghost use Rattle.defs_text.specs.Text.{up_to_nul};
ghost use Rattle.yaml_loader.specs.Limited.{Answers, GivesAll};

use crate::YamlLoader;
use crate::guard::Guard;
use crate::laws::{refused_texts_want_memory, taken_events_are_read, taken_texts_are_loaded};
use crate::limits::Limits;
use crate::limits_error::LimitsError;
use std::alloc::Global;
use yaml_chars::TextInMemory;
use yaml_tree::Yaml;

/// Loads all documents of a text, as `YamlLoader::load_from_str` does, if they are within limits.
///
/// # Errors
///
/// `Scan` has the text's fault, or says that memory was refused. `Levels` and `Size` have the position of the first event
/// by which the load would make more than the limits allow;
/// or, of tokens that wait, the position up to which the text was read.
pub fn load_with_limits(alloc: Global, text: &str, limits: Limits) -> Result<Vec<Yaml>, LimitsError>
    ensures { Answers limits (up_to_nul (chars text.now)) result }
{
    taken_texts_are_loaded();
    taken_events_are_read();
    refused_texts_want_memory();
    let loader = YamlLoader::default(alloc);
    let mut guard = Guard::new(alloc, loader, limits);
    let source = TextInMemory::new(text);
    guard.read(alloc, source)?;
    documents_of(guard.receiver)
}

// What a loader that took all events gives.
fn documents_of(loader: YamlLoader) -> Result<Vec<Yaml>, LimitsError>
    ensures { GivesAll loader result }
{
    Ok(loader.into_documents()?)
}
