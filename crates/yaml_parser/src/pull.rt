ghost use Rattle.std.specs.Prelude.{◌≡◌, ◌≢◌, ◌⊎◌, ◌^◌, ◌<◌, ◌≤◌, List, [], ◌∷◌, true, false, Some, None, Ok, Err, IfOk, IfErr, IfSome, OnOk};
ghost use Rattle.std.specs.Iterator.{IsFinite, size};
ghost use Rattle.yaml_scanner.specs.Scanned.{scanned};
ghost use Rattle.model_parser.specs.declared.state.State.TheVariants.{Stream};
ghost use Rattle.yaml_parser.specs.Shown.{placed, ev_of};
ghost use Rattle.defs_text.specs.Position.{Position};
ghost use Rattle.defs_event.specs.Event.{Ev};
ghost use Rattle.yaml_parser.specs.Held.{IsHeld, Continues, Advances};
ghost use Rattle.yaml_parser.specs.At.{answered};
ghost use Rattle.yaml_parser.specs.View.{fault_kept};

use crate::event::{Event, ParseResult};
use crate::names::Names;
use crate::reader::Reader;
use crate::slot::{Answer, EventSlot};
use crate::stack::Stack;
use crate::tokens::Tokens;
use std::alloc::Global;
use yaml_chars::{Characters, Marker};
use yaml_scanner::Scanner;
use yaml_tokens::{Fault, ScanError};

/// Reads events one by one, and keeps a fault.
#[derive(Drop)]
pub struct EventReader<T: Characters> {
    /// What reads the events.
    pub reader: Reader<T>,
    /// The fault that is kept, if there is one: the parser's own, or `None` for one that the scanner keeps; and where the scanner stood.
    pub kept: Option<(Option<Fault>, Marker)>,
}

impl<T: Characters> EventReader<T> {
    /// Nothing was read yet. It takes no memory.
    #[tactic(auto, using(crate::proofs::Holding::begun))]
    pub fn new(alloc: Global, src: T) -> EventReader<T>
        requires can { T.can_next src }
        requires finite { IsFinite (T.remaining src) }
        requires few { size (T.remaining src) < 2 ^ 63 }
        ensures given { (scanned result.reader.tokens.scanner).given ≡ [] }
        ensures kept { result.kept ≡ None }
        ensures held { IsHeld result.reader [] None }
        ensures steady { result.reader.names.keeping.steady ≡ true }
        ensures keep_tags { result.reader.names.keeping.tags ≡ false }
        ensures settings { result.reader.names.keeping.settings.items ≡ [] }
        ensures stack { result.reader.stack ≡ Stream ∷ [] }
        ensures start { result.reader.tokens.scanner.start ≡ src }
    {
        EventReader {
            reader: Reader {
                alloc,
                tokens: Tokens::new(Scanner::new(alloc, src)),
                stack: Stack::new(alloc),
                names: Names::new(alloc),
            },
            kept: None,
        }
    }

    /// The next event. After the stream's end comes that end again.
    #[inline(always)]
    pub fn next(&mut self) -> ParseResult
        ensures continues { (read : List (Ev × Position)) → IsHeld self.old.reader read self.old.kept → Continues self.old read result self.new }
        ensures start { self.new.reader.tokens.scanner.start ≡ self.old.reader.tokens.scanner.start }
        ensures err { IfErr result (λ f. fault_kept self.new ≡ Some f) }
        ensures again { IfSome (fault_kept self.old) (λ f. (result ≡ Err f) × (self.new ≡ self.old)) }
    {
        if let Some((fault, mark)) = self.kept {
            return Err(self.reader.error(fault, mark));
        }
        if self.reader.stack.is_empty() {
            return Ok((Event::StreamEnd, self.reader.tokens.scanner.mark()));
        }
        let mut slot = EventSlot::new(self.reader.tokens.scanner.mark());
        match self.advance(&mut slot) {
            Ok(()) => Ok(slot.next),
            Err(_) => Err(self.keep(slot.fault)),
        }
    }

    /// The next event, before the stream's end. A fault is not kept yet: see [`keep`](EventReader::keep).
    #[inline(always)]
    pub fn advance(&mut self, slot: &mut EventSlot) -> Answer
        requires { self.old.reader.stack ≢ [] }
        ensures advances { (read : List (Ev × Position)) → IsHeld self.old.reader read None → Advances self.old read (answered result slot.new) self.new }
        ensures kept { self.new.kept ≡ self.old.kept }
        ensures start { self.new.reader.tokens.scanner.start ≡ self.old.reader.tokens.scanner.start }
    {
        self.reader.next(slot)?;
        self.reader.names.keeping.note();
        Ok(())
    }

    /// Keeps a fault, and gives it as callers see it.
    #[inline(never)]
    pub fn keep(&mut self, fault: Option<Fault>) -> ScanError
        ensures kept { fault_kept self.new ≡ Some result }
        ensures fault { IfSome self.new.kept (λ k. k.0 ≡ fault) }
        ensures reader { self.new.reader ≡ self.old.reader }
    {
        let kept = (fault, self.reader.tokens.scanner.mark());
        let error = self.reader.error(kept.0, kept.1);
        self.kept = Some(kept);
        error
    }
}
