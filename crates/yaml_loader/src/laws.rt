//! Laws of loads, of documents that are read one by one, and of the positions of nodes: functions whose clause is a theorem. A proof calls a
//! law to learn its theorem.

ghost use Rattle.yaml_loader.specs.Agreement.{OneAnswer, OneListOfDocuments, OneListOfPulledEvents, OneListOfPushedEvents};
ghost use Rattle.yaml_loader.specs.Laws.{AlikeLoadersShowTheSame, AlikeLoadersGoOnAlike, EventsAreReadAsDefined, TakenTextsAreLoaded, TakenEventsAreRead, RefusedTextsWantMemory};
ghost use Rattle.yaml_loader.specs.DocumentLaws.{GivenDocumentsAreTheFirst, TextsThatLoadAreNotStopped};

use yaml_parser::MarkedEventReceiver;

/// Loaders that are alike have the same documents, and return the same fault.
#[tactic(auto, using(crate::proofs::GoOnAlike::show_the_same))]
pub fn alike_loaders_show_the_same()
    ensures { AlikeLoadersShowTheSame }
{}

/// Loaders that are alike are alike after each event.
#[tactic(auto, using(crate::proofs::GoOnAlike::event_at_alike))]
pub fn alike_loaders_go_on_alike()
    ensures { AlikeLoadersGoOnAlike }
{}

/// An empty loader that took events one by one, each with `Ok`, is in the state that the definitions give.
#[tactic(auto, using(crate::proofs::GoOnAlike::read_as_defined))]
pub fn events_are_read_as_defined()
    ensures { EventsAreReadAsDefined }
{}

/// An empty loader that took all events of a text, each with `Ok`, gives at the end what a load of the text gives.
pub fn taken_texts_are_loaded()
    ensures { TakenTextsAreLoaded }
{}

/// The documents of a loader that was empty are those of the events that it took, each with `Ok`.
#[tactic(auto, using(crate::proofs::AnyText::taken_events_are_read))]
pub fn taken_events_are_read()
    ensures { TakenEventsAreRead }
{}

/// An empty loader that is handed the events of a text refuses one only if memory was refused.
pub fn refused_texts_want_memory()
    ensures { RefusedTextsWantMemory }
{}

/// For one text, two answers that keep the clause `of_row` of a load have the same documents if both are `Ok`, whoever
/// gave them.
#[tactic(auto, using(crate::proofs::Agreement::one_list_of_documents))]
pub fn one_list_of_documents()
    ensures { OneListOfDocuments }
{}

/// For one text, two answers that keep the clause `reads` of a load say the same, whoever gave them, unless memory was refused: the
/// same documents, or the same fault at the same position, or that the same key comes twice.
#[tactic(auto, using(crate::proofs::Agreement::one_answer))]
pub fn one_answer()
    ensures { OneAnswer }
{}

/// Two parsers that have read the same text to its end, with the same setting, have read the same events.
#[tactic(auto, using(crate::proofs::Agreement::one_list_of_pulled_events))]
pub fn one_list_of_pulled_events()
    ensures { OneListOfPulledEvents }
{}

/// Two loads of the same text by parsers at their start, with the same setting, have pushed the same events if both are
/// `Ok`, whatever their receivers are.
pub fn one_list_of_pushed_events<R: MarkedEventReceiver, S: MarkedEventReceiver>()
    ensures { OneListOfPushedEvents R.takes S.takes }
{}

/// The documents that were given of a text are the first of those that a load of the text gives, if it gives any.
pub fn given_documents_are_the_first()
    ensures { GivenDocumentsAreTheFirst }
{}

/// If a load of the text gives documents, the only fault is refused memory.
pub fn texts_that_load_are_not_stopped()
    ensures { TextsThatLoadAreNotStopped }
{}

pub use defs_event::laws::marks_fit_their_trees;
