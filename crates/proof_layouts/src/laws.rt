//! Laws of streams that are read, of the events and trees of JSON texts, layouts and quoted texts, and of dumps. Each law is
//! the contract of an empty function.

ghost use Rattle.proof_layouts.specs.Laws.{ReadStreamsAreLoaded, ReadStreamsAreNotRefused, ForetoldEventsAreNotRefused, ReadStreamsAreNotCut, JsonTokensAreAStream, JsonNumbersStandForTheirTrees, JsonDocumentsReadAsTheirTrees, JsonTokensReadAsTheirTree, JsonEventsAreLoaded, LayoutTokensReadAsTheirTrees, LayoutEventsAreLoaded, BasicTokensAreAStream, BasicDocumentsReadAsTheirTrees, QuotedTokensReadAsTheirString};
ghost use Rattle.defs_layout.specs.DumpIsLaidOut.{DumpsAreLaidOut};
ghost use Rattle.defs_layout.specs.DumpsInTurn.{DumpsInTurnAreLaidOut};

/// Let tokens be read as trees. A loader that takes the events of their stream, at any positions, has these trees as its
/// documents. Nothing is open, and no repeated key was noted.
pub fn read_streams_are_loaded()
    ensures { ReadStreamsAreLoaded }
{}

/// Let tokens be read as trees. In no beginning of their stream's events does a key come twice, or an event stand out
/// of nesting.
pub fn read_streams_are_not_refused()
    ensures { ReadStreamsAreNotRefused }
{}

/// The same holds of the events that a beginning of these tokens determines.
pub fn foretold_events_are_not_refused()
    ensures { ForetoldEventsAreNotRefused }
{}

/// If tokens are read as trees, each beginning of them begins a stream.
pub fn read_streams_are_not_cut()
    ensures { ReadStreamsAreNotCut }
{}

/// The tokens of a JSON text are a stream of the token grammar. Its events are those of one nested document.
#[tactic(auto, using(crate::proofs::Json::Derived::tokens_are_a_stream))]
pub fn json_tokens_are_a_stream()
    ensures { JsonTokensAreAStream }
{}

/// The text of a JSON number stands for its tree: an integer if there is no fraction and no exponent and it fits 64
/// bits, else a real with that text.
#[tactic(auto, using(crate::proofs::Numbers::numbers_stand_for_their_trees))]
pub fn json_numbers_stand_for_their_trees()
    ensures { JsonNumbersStandForTheirTrees }
{}

/// The nested document of a JSON text is read as the text's tree, so no key comes twice.
#[tactic(auto, using(crate::proofs::Json::Reading::documents_read_as_their_trees))]
pub fn json_documents_read_as_their_trees()
    ensures { JsonDocumentsReadAsTheirTrees }
{}

/// The tokens of a JSON text are a stream, and are read as the text's tree.
#[tactic(auto, using(crate::proofs::Json::Reading::tokens_read_as_their_tree))]
pub fn json_tokens_read_as_their_tree()
    ensures { JsonTokensReadAsTheirTree }
{}

/// A loader that takes the events of a JSON text's stream, at any positions, has the text's tree as its one document.
/// Nothing is open, and no repeated key was noted.
pub fn json_events_are_loaded()
    ensures { JsonEventsAreLoaded }
{}

/// The tokens of a layout are a stream of the token grammar, whose events are read as the layout's trees, one for
/// each document. Anchors are numbered over the stream, and an alias is read as the tree that it stands for.
#[tactic(auto, using(crate::proofs::Layouts::Documents::tokens_read_as_their_trees))]
pub fn layout_tokens_read_as_their_trees()
    ensures { LayoutTokensReadAsTheirTrees }
{}

/// A loader that takes the events of a layout's stream, at any positions, has the layout's trees as its documents.
/// Nothing is open, and no repeated key was noted.
pub fn layout_events_are_loaded()
    ensures { LayoutEventsAreLoaded }
{}

/// The events of a basic layout are those of its one nested document. No node has an anchor.
#[tactic(auto, using(crate::proofs::Basic::Derived::tokens_are_a_stream))]
pub fn basic_tokens_are_a_stream()
    ensures { BasicTokensAreAStream }
{}

/// The nested document of a basic layout is read as the layout's tree. So no key comes twice, and each plain scalar
/// stands for what was spelt.
#[tactic(auto, using(crate::proofs::Basic::Reading::documents_read_as_their_trees))]
pub fn basic_documents_read_as_their_trees()
    ensures { BasicDocumentsReadAsTheirTrees }
{}

/// The tokens of a text of one quoted scalar are a stream, and are read as a string, also if the text without quotes
/// would be another scalar.
pub fn quoted_tokens_read_as_their_string()
    ensures { QuotedTokensReadAsTheirString }
{}

/// In every setting, the text that is written for a tree of the library that can be written is a basic layout of that
/// tree: it begins with `---`, and what stands below an indicator stands two columns to the right of it.
#[tactic(auto, using(crate::proofs::Whole::dump_is_laid_out))]
pub fn dumps_are_laid_out()
    ensures { DumpsAreLaidOut }
{}

/// The texts that are written for several such trees, each followed by an LF, are those trees laid out one after
/// another.
#[tactic(auto, using(crate::proofs::Whole::dumps_are_laid_out_in_turn))]
pub fn dumps_in_turn_are_laid_out()
    ensures { DumpsInTurnAreLaidOut }
{}
