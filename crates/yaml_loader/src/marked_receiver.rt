//! A loader that also takes the positions of nodes.
ghost use Rattle.std.specs.Prelude.{◌≡◌, ◌<◌, ◌^◌, ℕ, List, true, false, IfOk, chars};
ghost use Rattle.std.specs.Iterator.{IsFinite, size};
ghost use Rattle.defs_text.specs.Text.{up_to_nul, has_no_nul};
ghost use Rattle.yaml_chars.specs.WindowView.{BeginsText};
ghost use Rattle.yaml_loader.specs.Gives.{Gives};
ghost use Rattle.yaml_loader.specs.MarkedDocuments.{marks_of_all};
ghost use Rattle.yaml_loader.specs.MarkedLoading.{plain, AreMarksOf};

use crate::YamlLoader;
use crate::laws::{events_are_read_as_defined, refused_texts_want_memory};
use crate::marked_documents::MarkedDocuments;
use crate::marking::Marking;
use defs_event::laws::marks_fit_their_trees;
use proof_loads::laws::texts_are_answered;
use std::alloc::Global;
use yaml_chars::{Characters, Marker, TextInMemory};
use yaml_parser::{Event, MarkedEventReceiver, Parser};
use yaml_tokens::ScanError;

/// A loader that also takes the positions of nodes: it hands each event to a `YamlLoader`, which makes the trees.
///
/// A receiver of your own can wrap it, as it can wrap a `YamlLoader`. [`load_marked`](crate::marked::load_marked) makes one, and
/// so does a load within limits.
#[derive(Drop)]
pub struct MarkedLoader {
    pub(crate) loader: YamlLoader,
    pub(crate) marking: Marking,
}

impl MarkedEventReceiver for MarkedLoader {
    ghost use Rattle.yaml_loader.specs.Receiving.{TakesMarked};

    ghost takes = { TakesMarked };

    /// Adds one more event.
    ///
    /// # Errors
    ///
    /// Those of a `YamlLoader`, or memory was refused for a position. After an `Err` the loader is of no use.
    #[inline(always)]
    fn on_event(&mut self, ev: Event, mark: Marker) -> Result<(), ScanError> {
        if self.marking.take(&ev, mark).is_err() {
            return Err(ScanError::memory(mark));
        }
        self.loader.on_event(ev, mark)
    }
}

impl MarkedLoader {
    ghost use Rattle.yaml_loader.specs.Receiving.{IsEmpty, HasTaken, Receives};

    /// An empty loader, to push events into. It takes no memory.
    pub fn new(alloc: Global) -> MarkedLoader
        ensures { IsEmpty result }
    {
        MarkedLoader {
            loader: YamlLoader::default(alloc),
            marking: Marking::new(alloc),
        }
    }

    /// The documents with the positions of their nodes, for the end of the events.
    ///
    /// Condition, which a proof must show: the loader was empty, and took all events of a text, each with `Ok`.
    ///
    /// # Errors
    ///
    /// That of `YamlLoader::into_documents`. The documents are dropped then.
    pub fn into_documents(self) -> Result<MarkedDocuments, ScanError>
        requires { (text : List ℕ) × HasTaken text self }
        ensures gives { Gives self.loader (plain result) }
        ensures marks { (text : List ℕ) → HasTaken text self → IfOk result (λ d. AreMarksOf false text (marks_of_all d)) }
    {
        events_are_read_as_defined();
        marks_fit_their_trees();
        let MarkedLoader { loader, marking } = self;
        let documents = loader.into_documents()?;
        Ok(MarkedDocuments {
            documents,
            table: marking.table,
            roots: marking.documents,
        })
    }

    /// A loader that took all events of a text.
    pub(crate) fn of_text(alloc: Global, text: &str) -> Result<MarkedLoader, ScanError>
        ensures { Receives (up_to_nul (chars text.now)) result }
    {
        MarkedLoader::of_source(alloc, TextInMemory::new(text))
    }

    /// A loader that took all events of the characters that come from a source.
    fn of_source<S: Characters>(alloc: Global, source: S) -> Result<MarkedLoader, ScanError>
        requires can { S.can_next source }
        requires finite { IsFinite (S.remaining source) }
        requires few { size (S.remaining source) < 2 ^ 63 }
        ensures { BeginsText S.next_gives source (λ text. has_no_nul text ≡ true → Receives text result) }
    {
        let mut receiver = MarkedLoader::new(alloc);
        let mut parser = Parser::new(alloc, source);
        texts_are_answered::<MarkedLoader>();
        refused_texts_want_memory();
        let outcome = parser.load(&mut receiver, true);
        parser.note();
        outcome?;
        Ok(receiver)
    }
}
