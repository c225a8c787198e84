//! Laws of the tokens of whole texts, of what texts mean, and of what is read of them, each the contract of an empty function.

ghost use Rattle.proof_loads.specs.Laws.{SettledTokensStay, OneFault, OneListOfEventsBefore, OneListOfPulledEventsBefore, OneListOfPushedEventsBefore, ReadTextsAreNotRefused, ReadTextsHaveNoFaultButMemory, EventsOfReadTextsAreRead, ReadTextsHaveTheirTrees, JsonTextsMeanTheirTree, JsonTextsAreWithoutNul, ReadTextsAreLoaded, JsonTextsAreLoaded, DumpsMeanTheirTree, TextsAreAnswered, ReadTextsHaveOneListOfEvents, AnswersAreSettled, CharactersAreTheText, StringsAreTheText};
ghost use Rattle.defs_layout.specs.DumpIsInjective.{DumpIsInjective};
ghost use Rattle.proof_loads.specs.TokenLaws.{TextsHaveOneListOfTokens, TextsWithTokensAreNotRefused, JsonTextsHaveTheirTokens, JsonTextsHaveNoOtherTokens, JsonTextsAreNotRefused, LayoutsHaveTheirTokens, LayoutsHaveNoOtherTokens, LayoutsAreNotRefused, LayoutsInTurnHaveTheirTokens, LayoutsInTurnAreNotRefused, QuotedTextsHaveTheirTokens};

use yaml_parser::MarkedEventReceiver;

/// Tokens that are settled in a text, as those that a scanner handed out are, come first at each later point of its run.
pub fn settled_tokens_stay()
    ensures { SettledTokensStay }
{}

/// A text has one fault: two calls that answer one, whatever they are, answer the same, with its text and its position, unless
/// memory was refused.
pub fn one_fault()
    ensures { OneFault }
{}

/// The events before a fault of a text are one list, each at its position but for the ends of mappings: two loads that answer a
/// fault have pushed the same ones before it, unless memory was refused.
#[tactic(auto, using(crate::proofs::OneListBefore::one_list_before))]
pub fn one_list_of_events_before_a_fault()
    ensures { OneListOfEventsBefore }
{}

/// Two parsers of the same text, with the same setting, that keep a fault have read the same events before it, each at its position but
/// for the ends of mappings, unless memory was refused.
pub fn one_list_of_events_pulled_before_a_fault()
    ensures { OneListOfPulledEventsBefore }
{}

/// Two loads of the same text by parsers at their start, with the same setting, that keep a fault then have pushed the same events
/// before it, each at its position but for the ends of mappings, unless memory was refused, whatever their receivers are.
pub fn one_list_of_events_pushed_before_a_fault<R: MarkedEventReceiver, S: MarkedEventReceiver>()
    ensures { OneListOfPushedEventsBefore R.takes S.takes }
{}

/// If a text means trees, no parser refuses one of its tokens.
pub fn read_texts_are_not_refused()
    ensures { ReadTextsAreNotRefused }
{}

/// If a text means trees, the only fault of its scanner and its parser is refused memory.
pub fn read_texts_have_no_fault_but_memory()
    ensures { ReadTextsHaveNoFaultButMemory }
{}

/// If a text means trees, a loader is at work after every beginning of its events: no key came twice, and no
/// event stood out of nesting.
pub fn events_of_read_texts_are_read()
    ensures { EventsOfReadTextsAreRead }
{}

/// If a text means trees, a loader that took all of its events has just these trees as documents.
pub fn read_texts_have_their_trees()
    ensures { ReadTextsHaveTheirTrees }
{}

/// Each JSON text means its tree.
#[tactic(auto, using(crate::proofs::Spelled::json_texts_are_read))]
pub fn json_texts_mean_their_tree()
    ensures { JsonTextsMeanTheirTree }
{}

/// No JSON text has a NUL.
#[tactic(auto, using(crate::proofs::JsonNul::json_texts_have_no_nul))]
pub fn json_texts_are_without_nul()
    ensures { JsonTextsAreWithoutNul }
{}

/// If a tree can be written, its dump means that one tree, in each setting.
#[tactic(auto, using(crate::proofs::Dumps::dumps_are_read))]
pub fn dumps_mean_their_tree()
    ensures { DumpsMeanTheirTree }
{}

/// In each setting, no two trees that can be written have the same text.
#[tactic(auto, using(crate::proofs::Dumps::dump_is_injective))]
pub fn dumps_are_injective()
    ensures { DumpIsInjective }
{}

/// If a text means trees, two parsers that have read as many of its events have read the same events.
pub fn read_texts_have_one_list_of_events()
    ensures { ReadTextsHaveOneListOfEvents }
{}

/// After the stream's end or a fault, each call of `next_token` answers the same again.
#[tactic(auto, using(crate::proofs::Settled::answers_settled))]
pub fn answers_are_settled()
    ensures { AnswersAreSettled }
{}

/// A load by a parser at its start has one of three results. It pushes all events of its text; or it has a fault
/// whose reason is in the text, or refused memory; or the receiver refused an event that is the text's next.
pub fn texts_are_answered<R: MarkedEventReceiver>()
    ensures { TextsAreAnswered R.takes }
{}

/// A load of a text that means trees, by a parser at its start, has these trees as documents; or memory was
/// refused; or the receiver refused an event after which a loader is at work.
pub fn read_texts_are_loaded<R: MarkedEventReceiver>()
    ensures { ReadTextsAreLoaded R.takes }
{}

/// A load of a JSON text, by a parser at its start, has its tree as document; or memory was refused; or the receiver
/// refused an event.
pub fn json_texts_are_loaded<R: MarkedEventReceiver>()
    ensures { JsonTextsAreLoaded R.takes }
{}

/// The text that a scanner may have is the characters that its iterator gives, up to a NUL.
pub fn characters_are_the_text<T: Iterator<Item = char>>()
    ensures { CharactersAreTheText T.next_gives }
{}

/// Everything that a scanner of a `&str` promises of its text holds of that `&str` up to its first NUL.
pub fn strings_are_the_text()
    ensures { StringsAreTheText }
{}

/// A text has at most one list of tokens.
pub fn texts_have_one_list_of_tokens()
    ensures { TextsHaveOneListOfTokens }
{}

/// A text that has tokens is not refused.
pub fn texts_with_tokens_are_not_refused()
    ensures { TextsWithTokensAreNotRefused }
{}

/// The model gives a JSON text its tokens: each bracket, comma and scalar as it is written, and a `Key` and a `Value`
/// around each key of an object.
#[tactic(auto, using(crate::proofs::JsonTokens::Texts::json_text_has_its_tokens))]
pub fn json_texts_have_their_tokens()
    ensures { JsonTextsHaveTheirTokens }
{}

/// The model gives a JSON text no other tokens.
#[tactic(auto, using(crate::proofs::JsonTokens::Texts::json_text_has_no_other_tokens))]
pub fn json_texts_have_no_other_tokens()
    ensures { JsonTextsHaveNoOtherTokens }
{}

/// The model refuses no JSON text.
pub fn json_texts_are_not_refused()
    ensures { JsonTextsAreNotRefused }
{}

/// The model gives a layout, of one document or more, its tokens: starts and ends of block collections by the
/// columns, entries, keys and values by their indicators, and each scalar as it is written.
#[tactic(auto, using(crate::proofs::LayoutTokens::Texts::layouts_have_their_tokens))]
pub fn layouts_have_their_tokens()
    ensures { LayoutsHaveTheirTokens }
{}

/// The model gives a layout no other tokens.
#[tactic(auto, using(crate::proofs::LayoutTokens::Texts::layouts_have_no_other_tokens))]
pub fn layouts_have_no_other_tokens()
    ensures { LayoutsHaveNoOtherTokens }
{}

/// The model refuses no layout.
pub fn layouts_are_not_refused()
    ensures { LayoutsAreNotRefused }
{}

/// Several basic layouts, each followed by an LF, are one layout of several documents. The model gives their text the
/// tokens of that layout, with a document's start before each.
#[tactic(auto, using(crate::proofs::TokensInTurn::layouts_in_turn_have_their_tokens))]
pub fn layouts_in_turn_have_their_tokens()
    ensures { LayoutsInTurnHaveTheirTokens }
{}

/// The model refuses no text of several basic layouts that are each followed by an LF, and not the empty text.
pub fn layouts_in_turn_are_not_refused()
    ensures { LayoutsInTurnAreNotRefused }
{}

/// A text of one quoted scalar with a value, followed by nothing but line feeds, has three tokens: the stream's
/// start, the scalar with that value, and the stream's end.
#[tactic(auto, using(crate::proofs::QuotedTokens::Tokens::quoted_texts_have_their_tokens))]
pub fn quoted_texts_have_their_tokens()
    ensures { QuotedTextsHaveTheirTokens }
{}
