//! The loader, to which events are handed one by one.
ghost use Rattle.std.specs.Prelude.{◌≡◌, None, Err};
ghost use Rattle.defs_event.specs.Unfinished.{new_loader, documents_of};
ghost use Rattle.yaml_tree.specs.View.{items_view};
ghost use Rattle.yaml_parser.specs.Shown.{ev_of};
ghost use Rattle.yaml_loader.specs.Gives.{Gives};
ghost use Rattle.yaml_loader.specs.Loading.{loader_of, kept_fault, want_of_memory, event_out_of_nesting, Takes, Stops};

use crate::reading::{Refusal, TreeBuilder};
use std::alloc::Global;
use yaml_chars::Marker;
use yaml_parser::{Event, MarkedEventReceiver};
use yaml_tokens::{Problem, ScanError};
use yaml_tree::Yaml;

// What a loader does with the next event.
#[derive(Drop)]
pub(crate) enum LoaderState {
    Reading,
    // A key came twice: the position of its second value, and the text of the fault. Every later event is ignored.
    RepeatedKey(Marker, String),
    // The event at this position was out of nesting. Every later event is refused with the same fault.
    OutOfNesting(Marker),
    // Memory was refused at this position. Every later event is refused with the same fault.
    OutOfMemory(Marker),
}

/// Makes trees from text, by [`YamlLoader::load_from_str`] and the other two loads, or from events that are pushed
/// into it.
///
/// A loader that events are pushed into has one tree for each finished document. A fault is kept: each later event
/// gets the same fault, and the documents stay. A key that comes twice in its mapping is noted; later events are
/// ignored, and only the loads return it as a fault.
///
/// # Example
///
/// ```
/// // `Counted` hands each event to its loader.
/// let mut counted = Counted {
///     loader: YamlLoader::default(alloc),
///     events: 0,
/// };
/// Parser::new_from_str(alloc, "[a, b]").load(&mut counted, true)?;
/// assert_eq!(rt; counted.events, 8);
/// assert_eq!(rt; counted.loader.documents().len(), 1);
/// let documents = counted.loader.into_documents()?;
/// assert_eq!(rt; documents.len(), 1);
/// ```
#[derive(Drop)]
pub struct YamlLoader {
    pub(crate) reading: TreeBuilder,
    pub(crate) state: LoaderState,
}

impl YamlLoader {
    /// An empty loader, to push events into. It takes no memory.
    pub fn default(alloc: Global) -> YamlLoader
        ensures empty { loader_of result ≡ new_loader }
        ensures no_fault { kept_fault result ≡ None }
    {
        YamlLoader {
            reading: TreeBuilder::new(alloc),
            state: LoaderState::Reading,
        }
    }

    /// The finished documents.
    pub fn documents(&self) -> &[Yaml]
        ensures { items_view result.now ≡ documents_of (loader_of self.now) }
    {
        self.reading.documents.as_slice()
    }

    /// The finished documents, for the end of the events. A receiver of your own can wrap a loader and ends with this call.
    /// Documents that are not finished are dropped.
    ///
    /// # Errors
    ///
    /// The fault that is kept. A key that came twice in its mapping is returned here too, as
    /// `String("a"): duplicated key in mapping`, at the position of the key's second value, for a collection that of its
    /// end. The documents are dropped then.
    pub fn into_documents(self) -> Result<Vec<Yaml>, ScanError>
        ensures { Gives self result }
    {
        let YamlLoader { reading, state } = self;
        match state {
            LoaderState::Reading => Ok(reading.documents),
            LoaderState::RepeatedKey(mark, text) => Err(ScanError::new_string(mark, text)),
            LoaderState::OutOfNesting(mark) => Err(out_of_nesting(mark)),
            LoaderState::OutOfMemory(mark) => Err(ScanError::memory(mark)),
        }
    }

    // Stops at the event at this position, which was refused.
    #[cold]
    #[inline(never)]
    fn stop(&mut self, refusal: Refusal, mark: Marker) -> Result<(), ScanError>
        ensures { Stops self.old refusal mark result self.new }
    {
        match refusal {
            Refusal::RepeatedKey => match self.reading.repeated_key_text() {
                Ok(text) => {
                    self.state = LoaderState::RepeatedKey(mark, text);
                    Ok(())
                }
                Err(_) => {
                    self.state = LoaderState::OutOfMemory(mark);
                    Err(ScanError::memory(mark))
                }
            },
            Refusal::OutOfNesting => {
                self.state = LoaderState::OutOfNesting(mark);
                Err(out_of_nesting(mark))
            }
            Refusal::OutOfMemory => {
                self.state = LoaderState::OutOfMemory(mark);
                Err(ScanError::memory(mark))
            }
        }
    }
}

#[cold]
#[inline(never)]
fn refuse_memory(mark: Marker) -> Result<(), ScanError>
    ensures { result ≡ Err (want_of_memory mark) }
{
    Err(ScanError::memory(mark))
}

#[cold]
#[inline(never)]
fn refuse_nesting(mark: Marker) -> Result<(), ScanError>
    ensures { result ≡ Err (event_out_of_nesting mark) }
{
    Err(out_of_nesting(mark))
}

#[tactic(auto, unfolding(yaml_tokens::specs::Problem::text_of_problem))]
pub(crate) fn out_of_nesting(mark: Marker) -> ScanError
    ensures { result ≡ event_out_of_nesting mark }
{
    ScanError::fixed(mark, Problem::EventOutOfNesting.text())
}

impl MarkedEventReceiver for YamlLoader {
    ghost takes = { Takes };

    /// Adds one more event.
    ///
    /// # Errors
    ///
    /// `event out of nesting`, at `mark`: an end without its start, a second root node, the end of a mapping whose
    /// last key has no value, or a document's end while a collection is open. Or memory was refused. Both faults are
    /// kept.
    #[inline(always)]
    fn on_event(&mut self, ev: Event, mark: Marker) -> Result<(), ScanError>
        ensures { Takes self.old (ev_of ev) mark result self.new }
    {
        match &self.state {
            LoaderState::Reading => {}
            LoaderState::RepeatedKey(_, _) => return Ok(()),
            LoaderState::OutOfNesting(position) => return refuse_nesting(*position),
            LoaderState::OutOfMemory(position) => return refuse_memory(*position),
        }
        if let Err(refusal) = self.reading.take(ev) {
            return self.stop(refusal, mark);
        }
        Ok(())
    }
}
