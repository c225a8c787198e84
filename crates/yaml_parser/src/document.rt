//! The stream and its documents (YAML 1.2, chapter 9).
ghost use Rattle.std.specs.Prelude.{◌≡◌, ◌≢◌, Bool, true, OnErr, OnOk, IfOk};
ghost use Rattle.model_parser.specs.Goal as at;
ghost use Rattle.model_parser.specs.Kinds.{is_directive};
ghost use Rattle.yaml_parser.specs.At.{Reads, Carries, Stops};
ghost use Rattle.yaml_parser.specs.Directing.{Directs, AreRead, DirectivesFail};
ghost use Rattle.model_parser.specs.declared.kind.Kind.TheVariants as kind;
ghost use Rattle.yaml_parser.specs.Work.{Moves};
ghost use Rattle.yaml_parser.specs.Kinds.{IsOfKind};

use crate::event::Event;
use crate::reader::Reader;
use crate::slot::{Answer, EventSlot};
use model_parser::{Kind, NodeContext, State};
use yaml_chars::Characters;
use yaml_scanner::Failed;
use yaml_tokens::{Fault, Problem};

impl<T: Characters> Reader<T> {
    pub(crate) fn stream(&mut self, slot: &mut EventSlot) -> Answer
        ensures answers { Reads at.stream self.old self.new result slot.new }
        ensures bounds { Moves 1 1 self.old self.new result }
    {
        let next = self.peek(slot)?;
        match next {
            Kind::StreamStart => {
                let mark = self.skip();
                self.push(slot, State::Documents)?;
                slot.write(Event::StreamStart, mark);
                Ok(())
            }
            _ => Err(slot.halt(Some(Fault::At(Problem::DocumentStartToken, self.mark())))),
        }
    }

    /// The first token that is no `...`.
    fn skip_document_ends(&mut self, slot: &mut EventSlot) -> Result<Kind, Failed>
        ensures peeked { IfOk result (λ n. IsOfKind n self.new.tokens.peeked × (n ≢ kind.DocumentEnd)) }
        ensures bounds { Moves 0 0 self.old self.new result }
        ensures at { OnOk result (Carries at.documents self.old self.new) }
        ensures stops { OnErr result (Stops at.documents self.old self.new slot.new) }
    {
        let mut next = self.peek(slot)?;
        'ends: while let Kind::DocumentEnd = next {
            self.skip();
            next = self.peek(slot)?;
        }
        Ok(next)
    }

    /// After the stream's start or `...`.
    pub(crate) fn documents(&mut self, slot: &mut EventSlot) -> Answer
        ensures answers { Reads at.documents self.old self.new result slot.new }
        ensures bounds { Moves 4 1 self.old self.new result }
    {
        let next = self.skip_document_ends(slot)?;
        match next {
            Kind::StreamEnd | Kind::DocumentStart => self.end_or_document(slot, next),
            Kind::VersionDirective | Kind::TagDirective => self.directed_document(slot, next),
            _ => {
                self.names.start_document();
                self.push(slot, State::DocumentEnd)?;
                self.push(slot, State::BlockNode)?;
                slot.write(Event::DocumentStart, self.mark());
                Ok(())
            }
        }
    }

    /// After a document without `...`.
    pub(crate) fn explicit_document(&mut self, slot: &mut EventSlot) -> Answer
        ensures answers { Reads at.explicit_document self.old self.new result slot.new }
        ensures bounds { Moves 1 1 self.old self.new result }
    {
        let next = self.peek(slot)?;
        self.end_or_document(slot, next)
    }

    /// The stream's end, or a document that begins with `---`. `next` was looked at.
    fn end_or_document(&mut self, slot: &mut EventSlot, next: Kind) -> Answer
        requires { IsOfKind next self.old.tokens.peeked }
        ensures answers { Reads at.explicit_document self.old self.new result slot.new }
        ensures bounds { Moves 1 1 self.old self.new result }
    {
        match next {
            Kind::StreamEnd => {
                slot.write(Event::StreamEnd, self.skip());
                Ok(())
            }
            Kind::DocumentStart => {
                self.names.start_document();
                let mark = self.skip();
                self.push(slot, State::DocumentContent)?;
                slot.write(Event::DocumentStart, mark);
                Ok(())
            }
            _ => Err(slot.halt(Some(Fault::At(Problem::DocumentStartToken, self.mark())))),
        }
    }

    /// A document with directives. The first directive was looked at.
    fn directed_document(&mut self, slot: &mut EventSlot, kind: Kind) -> Answer
        requires looks { IsOfKind kind self.old.tokens.peeked }
        requires directive { is_directive kind ≡ true }
        ensures answers { Reads at.documents self.old self.new result slot.new }
        ensures bounds { Moves 1 1 self.old self.new result }
    {
        self.names.start_document();
        let next = self.directives(slot)?;
        match next {
            Kind::DocumentStart => {
                let mark = self.skip();
                self.push(slot, State::DocumentContent)?;
                slot.write(Event::DocumentStart, mark);
                Ok(())
            }
            _ => Err(slot.halt(Some(Fault::At(Problem::DocumentStartToken, self.mark())))),
        }
    }

    /// Reads directives, and gives the first token that is none.
    fn directives(&mut self, slot: &mut EventSlot) -> Result<Kind, Failed>
        ensures peeked { IfOk result (λ n. IsOfKind n self.new.tokens.peeked × (n ≢ kind.VersionDirective) × (n ≢ kind.TagDirective)) }
        ensures bounds { Moves 0 0 self.old self.new result }
        ensures at { OnOk result (AreRead self.old self.new) }
        ensures err { OnErr result (DirectivesFail self.old self.new slot.new.fault) }
    {
        let mut versioned = false;
        'directives: loop {
            let next = self.peek(slot)?;
            match next {
                Kind::VersionDirective => {
                    self.version(slot, versioned)?;
                    versioned = true;
                }
                Kind::TagDirective => self.tag_directive(slot)?,
                _ => return Ok(next),
            }
        }
    }

    /// Takes a version. A document may have one.
    fn version(&mut self, slot: &mut EventSlot, versioned: bool) -> Result<(), Failed>
        requires { IsOfKind kind.VersionDirective self.old.tokens.peeked }
        ensures directs { Directs versioned true self.old self.new result slot.new }
        ensures bounds { Moves 0 1 self.old self.new result }
    {
        let mark = self.skip();
        if versioned {
            return Err(slot.halt(Some(Fault::At(Problem::SecondVersion, mark))));
        }
        Ok(())
    }

    /// Takes a `%TAG` directive, or one of another name.
    fn tag_directive(&mut self, slot: &mut EventSlot) -> Result<(), Failed>
        requires { IsOfKind kind.TagDirective self.old.tokens.peeked }
        ensures directs { (versioned : Bool) → Directs versioned versioned self.old self.new result slot.new }
        ensures bounds { Moves 0 1 self.old self.new result }
    {
        let mark = self.mark();
        let (handle, prefix) = self.tokens.take_tag_directive();
        match self.names.declare(mark, handle, prefix) {
            Ok(()) => Ok(()),
            Err(fault) => Err(slot.halt(Some(fault))),
        }
    }

    /// After `---`.
    pub(crate) fn document_content(&mut self, slot: &mut EventSlot) -> Answer
        ensures answers { Reads at.document_content self.old self.new result slot.new }
        ensures bounds { Moves 3 1 self.old self.new result }
    {
        let next = self.peek(slot)?;
        self.push(slot, State::DocumentEnd)?;
        match next {
            Kind::VersionDirective
            | Kind::TagDirective
            | Kind::DocumentStart
            | Kind::DocumentEnd
            | Kind::StreamEnd => {
                self.nothing_written(slot, self.mark());
                Ok(())
            }
            _ => self.node(slot, NodeContext::Block, next),
        }
    }

    /// After a document's node.
    pub(crate) fn document_end(&mut self, slot: &mut EventSlot) -> Answer
        ensures answers { Reads at.document_end self.old self.new result slot.new }
        ensures bounds { Moves 2 1 self.old self.new result }
    {
        let next = self.peek(slot)?;
        match next {
            Kind::DocumentEnd => {
                let mark = self.skip();
                self.push(slot, State::Documents)?;
                slot.write(Event::DocumentEnd, mark);
                Ok(())
            }
            Kind::VersionDirective | Kind::TagDirective => {
                Err(slot.halt(Some(Fault::At(Problem::DirectiveWithoutDocumentEnd, self.mark()))))
            }
            _ => {
                self.push(slot, State::ExplicitDocument)?;
                slot.write(Event::DocumentEnd, self.mark());
                Ok(())
            }
        }
    }
}
