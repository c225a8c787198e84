ghost use Rattle.std.specs.Prelude.{◌≡◌, ◌≢◌, ◌+◌, ◌≤◌, [], ◌∷◌, false, Some, None, OnErr, OnOk, IfOk, IsSome, IfSome, IfNone};
ghost use Rattle.defs_token.specs.Token.{Style};
ghost use Rattle.defs_text.specs.Text.{string_chars};
ghost use Rattle.yaml_tokens.specs.declared.token.Token.{Token};
ghost use Rattle.yaml_tokens.specs.declared.token.TokenType.TheVariants.{Key, Value};
ghost use Rattle.yaml_tokens.specs.declared.problem.Fault.TheVariants.{OutOfMemory};
ghost use Rattle.defs_event.specs.Event.{Ev};
ghost use Rattle.model_parser.specs.Goal.{Goal};
ghost use Rattle.yaml_parser.specs.declared.event.Event.TheVariants.{SequenceEnd, MappingEnd};
ghost use Rattle.yaml_parser.specs.Ahead.{TakesBoth};
ghost use Rattle.yaml_parser.specs.Shown.{placed};
ghost use Rattle.model_parser.specs.Rest.{goal_of};
ghost use Rattle.yaml_parser.specs.At.{Reads, Carries, Passes, Stops, Took, Stayed, is_over, is_idle};
ghost use Rattle.yaml_parser.specs.Work.{Moves, work, weight};
ghost use Rattle.yaml_parser.specs.Kinds.{IsOfKind};
ghost use Rattle.yaml_scanner.specs.Scanned.{scanned};
ghost use Rattle.yaml_parser.specs.Seen.{fault_seen};
ghost use Rattle.yaml_parser.specs.Top.{ReadsTop};

use crate::event::Event;
use crate::names::Names;
use crate::slot::{Answer, EventSlot};
use crate::stack::Stack;
use crate::tokens::Tokens;
use model_parser::{Kind, State};
use std::alloc::Global;
use yaml_chars::{Characters, Marker};
use yaml_scanner::{Failed, PlainNode};
use yaml_tokens::{Fault, ScanError, TScalarStyle};

/// The productions of the token grammar, one function each.
#[derive(Drop)]
pub struct Reader<T: Characters> {
    /// The allocator for texts.
    pub alloc: Global,
    /// The tokens to come.
    pub tokens: Tokens<T>,
    /// The states that are awaited.
    pub stack: Stack,
    /// The names of the stream so far.
    pub names: Names,
}

impl<T: Characters> Reader<T> {
    /// What the next token is, which stays.
    #[inline(always)]
    pub(crate) fn peek(&mut self, slot: &mut EventSlot) -> Result<Kind, Failed>
        ensures peeked { IfOk result (λ k. IsOfKind k self.new.tokens.peeked) }
        ensures names { self.new.names ≡ self.old.names }
        ensures taken { self.new.tokens.taken ≡ self.old.tokens.taken }
        ensures bounds { Moves 0 0 self.old self.new result }
        ensures at { OnOk result ((g : Goal) → is_over g ≡ false → Carries g self.old self.new) }
        ensures on { OnOk result ((g : Goal) → is_over g ≡ false → Passes g self.old self.new) }
        ensures stops { OnErr result ((g : Goal) → is_idle g ≡ false → Stops g self.old self.new slot.new) }
    {
        match self.tokens.peek() {
            Ok(kind) => Ok(kind),
            Err(_) => Err(slot.halt(None)),
        }
    }

    /// Where the token stands that was looked at.
    #[inline(always)]
    pub(crate) fn mark(&self) -> Marker
        requires { IsSome self.now.tokens.peeked }
        ensures { IfSome self.now.tokens.peeked (λ t. t.0 ≡ result) }
    {
        self.tokens.mark()
    }

    /// Takes the token that was looked at, and gives its position.
    #[inline(always)]
    pub(crate) fn skip(&mut self) -> Marker
        requires { IsSome self.old.tokens.peeked }
        ensures mark { IfSome self.old.tokens.peeked (λ t. t.0 ≡ result) }
        ensures work { work self.new + 4 ≡ work self.old }
        ensures names { self.new.names ≡ self.old.names }
        ensures start { self.new.tokens.scanner.start ≡ self.old.tokens.scanner.start }
        ensures took { (t : Token) → self.old.tokens.peeked ≡ Some t → Took self.old t self.new self.old.stack }
    {
        self.tokens.skip()
    }

    #[inline(always)]
    pub(crate) fn push(&mut self, slot: &mut EventSlot, state: State) -> Result<(), Failed>
        ensures work { OnOk result (work self.new ≡ work self.old + weight state) }
        ensures names { self.new.names ≡ self.old.names }
        ensures tokens { self.new.tokens ≡ self.old.tokens }
        ensures stayed { OnOk result (Stayed self.old self.new (state ∷ self.old.stack)) }
        ensures err { OnErr result (slot.new.fault ≡ Some OutOfMemory) }
    {
        match self.stack.push(state) {
            Ok(()) => Ok(()),
            Err(error) => Err(slot.halt(Some(Fault::from(error)))),
        }
    }

    /// Takes a `Key` and the plain scalar after it at once, or gives `None` and changes nothing.
    #[inline(always)]
    #[tactic(auto, using(crate::proofs::Openings::look_fails))]
    pub(crate) fn next_key(&mut self, slot: &mut EventSlot) -> Result<Option<PlainNode>, Failed>
        ensures key { IfOk result (λ o. IfSome o (λ n. TakesBoth self.old.tokens Key n self.new.tokens)) }
        ensures work { IfOk result (λ o. IfSome o (λ n. work self.new + 8 ≤ work self.old)) }
        ensures none { IfOk result (λ o. IfNone o (self.new ≡ self.old)) }
        ensures names { self.new.names ≡ self.old.names }
        ensures stack { self.new.stack ≡ self.old.stack }
        ensures start { self.new.tokens.scanner.start ≡ self.old.tokens.scanner.start }
        ensures stops { OnErr result ((g : Goal) → is_idle g ≡ false → Stops g self.old self.new slot.new) }
    {
        match self.tokens.next_key() {
            Ok(node) => Ok(node),
            Err(_) => Err(slot.halt(None)),
        }
    }

    /// Takes a `Value` and the plain scalar after it at once, or gives `None` and changes nothing.
    #[inline(always)]
    #[tactic(auto, using(crate::proofs::Openings::look_fails))]
    pub(crate) fn next_value(&mut self, slot: &mut EventSlot) -> Result<Option<PlainNode>, Failed>
        ensures value { IfOk result (λ o. IfSome o (λ n. TakesBoth self.old.tokens Value n self.new.tokens)) }
        ensures work { IfOk result (λ o. IfSome o (λ n. work self.new + 8 ≤ work self.old)) }
        ensures none { IfOk result (λ o. IfNone o (self.new ≡ self.old)) }
        ensures names { self.new.names ≡ self.old.names }
        ensures stack { self.new.stack ≡ self.old.stack }
        ensures start { self.new.tokens.scanner.start ≡ self.old.tokens.scanner.start }
        ensures stops { OnErr result ((g : Goal) → is_idle g ≡ false → Stops g self.old self.new slot.new) }
    {
        match self.tokens.next_value() {
            Ok(node) => Ok(node),
            Err(_) => Err(slot.halt(None)),
        }
    }

    /// A plain scalar that was taken. `state` is awaited after it.
    #[inline(always)]
    pub(crate) fn plain(&mut self, slot: &mut EventSlot, node: PlainNode, state: State) -> Answer
        ensures event { OnOk result (placed slot.new.next ≡ (Ev.scalar (string_chars node.text) Style.plain 0 None, node.mark)) }
        ensures work { OnOk result (work self.new ≡ work self.old + weight state) }
        ensures names { self.new.names ≡ self.old.names }
        ensures tokens { self.new.tokens ≡ self.old.tokens }
        ensures stayed { OnOk result (Stayed self.old self.new (state ∷ self.old.stack)) }
        ensures err { OnErr result (slot.new.fault ≡ Some OutOfMemory) }
    {
        self.push(slot, state)?;
        slot.write(
            Event::Scalar(node.text, TScalarStyle::Plain, 0, None),
            node.mark,
        );
        Ok(())
    }

    /// Takes the token that was looked at, where a sequence ends.
    #[inline(always)]
    pub(crate) fn end_sequence(&mut self, slot: &mut EventSlot)
        requires { IsSome self.old.tokens.peeked }
        ensures event { slot.new.next.0 ≡ SequenceEnd }
        ensures mark { IfSome self.old.tokens.peeked (λ t. t.0 ≡ slot.new.next.1) }
        ensures work { work self.new + 4 ≡ work self.old }
        ensures names { self.new.names ≡ self.old.names }
        ensures start { self.new.tokens.scanner.start ≡ self.old.tokens.scanner.start }
        ensures took { (t : Token) → self.old.tokens.peeked ≡ Some t → Took self.old t self.new self.old.stack }
    {
        slot.write(Event::SequenceEnd, self.skip());
    }

    /// Takes the token that was looked at, where a mapping ends.
    #[inline(always)]
    pub(crate) fn end_mapping(&mut self, slot: &mut EventSlot)
        requires { IsSome self.old.tokens.peeked }
        ensures event { slot.new.next.0 ≡ MappingEnd }
        ensures mark { IfSome self.old.tokens.peeked (λ t. t.0 ≡ slot.new.next.1) }
        ensures work { work self.new + 4 ≡ work self.old }
        ensures names { self.new.names ≡ self.old.names }
        ensures start { self.new.tokens.scanner.start ≡ self.old.tokens.scanner.start }
        ensures took { (t : Token) → self.old.tokens.peeked ≡ Some t → Took self.old t self.new self.old.stack }
    {
        slot.write(Event::MappingEnd, self.skip());
    }

    /// A scalar that is not written.
    #[inline(always)]
    pub(crate) fn nothing_written(&self, slot: &mut EventSlot, mark: Marker)
        ensures { placed slot.new.next ≡ (Ev.scalar [] Style.plain 0 None, mark) }
    {
        slot.write(Event::empty_with(self.alloc, 0, None), mark);
    }

    /// A fault as callers see it.
    pub fn error(&self, fault: Option<Fault>, mark: Marker) -> ScanError
        ensures { result ≡ fault_seen fault mark (scanned self.now.tokens.scanner).fault }
    {
        match fault {
            Some(fault) => fault.error(mark),
            None => match self.tokens.scanner.get_error() {
                Some(error) => error,
                None => ScanError::memory(mark),
            },
        }
    }

    /// The next event. A state is awaited.
    #[inline(never)]
    pub fn next(&mut self, slot: &mut EventSlot) -> Answer
        requires { self.old.stack ≢ [] }
        ensures { ReadsTop self.old self.new result slot.new }
    {
        let Some(state) = self.stack.pop() else {
            unreachable!()
        };
        self.read(slot, state)
    }

    /// The next event, where this state was on top.
    #[inline(always)]
    fn read(&mut self, slot: &mut EventSlot, state: State) -> Answer
        ensures answers { Reads (goal_of state) self.old self.new result slot.new }
        ensures bounds { Moves (weight state) 1 self.old self.new result }
    {
        match state {
            State::Stream => self.stream(slot),
            State::Documents => self.documents(slot),
            State::ExplicitDocument => self.explicit_document(slot),
            State::DocumentContent => self.document_content(slot),
            State::DocumentEnd => self.document_end(slot),
            State::BlockNode => self.block_node(slot),
            State::BlockSequenceEntries => self.block_sequence_entries(slot),
            State::IndentlessSequenceEntries => self.indentless_sequence_entries(slot),
            State::IndentlessSequenceItem => self.indentless_sequence_item(slot),
            State::BlockMappingEntries => self.block_mapping_entries(slot),
            State::BlockMappingNextEntries => self.block_mapping_next_entries(slot),
            State::BlockMappingValue => self.block_mapping_value(slot),
            State::PairNode => self.pair_node(slot),
            State::FlowSequenceEntries => self.flow_sequence_entries(slot),
            State::FlowSequenceComma => self.flow_sequence_comma(slot),
            State::FlowPairKey => self.flow_pair_key(slot),
            State::FlowValue => self.flow_value(slot),
            State::FlowPairEnd => self.flow_pair_end(slot),
            State::FlowMappingEntries => self.flow_mapping_entries(slot, None),
            State::FlowMappingComma => self.flow_mapping_comma(slot),
            State::FlowMappingValue => self.flow_mapping_value(slot),
            State::FlowMappingValued(mark) => self.flow_mapping_valued(slot, mark),
            State::NoFlowMappingValue => self.no_flow_mapping_value(slot),
        }
    }
}
