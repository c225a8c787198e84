//! Nodes: their properties, and what may stand after them (YAML 1.2, section 6.9).
ghost use Rattle.std.specs.Prelude.{◌≡◌, true, false, Some, None, OnOk, OnErr, IfOk};
ghost use Rattle.model_parser.specs.Goal as at;
ghost use Rattle.defs_event.specs.Names.{Names};
ghost use Rattle.model_parser.specs.declared.context.NodeContext.{NodeContext};
ghost use Rattle.model_parser.specs.declared.context.NodeContext.TheVariants as context;
ghost use Rattle.model_parser.specs.declared.context.NodeContext.TheVariants.{Flow};
ghost use Rattle.model_parser.specs.Kinds.{begins_content};
ghost use Rattle.yaml_tokens.specs.declared.problem.Fault.TheVariants.{OutOfMemory};
ghost use Rattle.yaml_parser.specs.Shown.{placed, perhaps_tag_of, start_of};
ghost use Rattle.yaml_parser.specs.Named.{IsNamed};
ghost use Rattle.yaml_parser.specs.Properties.{ReadsAfter, Registers};
ghost use Rattle.yaml_parser.specs.At.{Reads};
ghost use Rattle.yaml_parser.specs.Work.{Moves, KeepsInput, work, owed};
ghost use Rattle.yaml_parser.specs.Kinds.{IsOfKind, IsName};
ghost use Rattle.model_parser.specs.declared.kind.Kind.TheVariants as kind;

use crate::event::{Event, Tag};
use crate::reader::Reader;
use crate::slot::{Answer, EventSlot};
use model_parser::{Kind, NodeContext, State};
use model_scanner::Collection;
use yaml_chars::{Characters, Marker};
use yaml_scanner::Failed;
use yaml_tokens::{Fault, Problem};

/// What stands before a node's content.
#[derive(Drop)]
pub struct Properties {
    /// The anchor's name, if there is an anchor.
    pub anchor: Option<String>,
    /// The tag, if there is one.
    pub tag: Option<Tag>,
}

impl<T: Characters> Reader<T> {
    /// The node of a document without `---`.
    pub(crate) fn block_node(&mut self, slot: &mut EventSlot) -> Answer
        ensures answers { Reads (at.node context.Block) self.old self.new result slot.new }
        ensures bounds { Moves 0 2 self.old self.new result }
    {
        let next = self.peek(slot)?;
        self.node(slot, NodeContext::Block, next)
    }

    /// A node that stands here. `next`, its first token, was looked at.
    #[inline(always)]
    pub(crate) fn node(&mut self, slot: &mut EventSlot, context: NodeContext, next: Kind) -> Answer
        requires { IsOfKind next self.old.tokens.peeked }
        ensures answers { Reads (at.node context) self.old self.new result slot.new }
        ensures bounds { Moves 0 2 self.old self.new result }
    {
        match next {
            Kind::Alias => self.alias(slot),
            Kind::Anchor => self.anchored(slot, context),
            Kind::Tag => self.tagged(slot, context),
            _ => self.content(slot, context, None, next),
        }
    }

    fn alias(&mut self, slot: &mut EventSlot) -> Answer
        requires { IsOfKind kind.Alias self.old.tokens.peeked }
        ensures answers { (context : NodeContext) → Reads (at.node context) self.old self.new result slot.new }
        ensures bounds { Moves 0 2 self.old self.new result }
    {
        let mark = self.mark();
        let name = self.tokens.take_name();
        let number = match self.names.number_of(mark, &name) {
            Ok(number) => number,
            Err(fault) => return Err(slot.halt(Some(fault))),
        };
        slot.write(Event::Alias(number), mark);
        Ok(())
    }

    /// A node that begins with an anchor.
    fn anchored(&mut self, slot: &mut EventSlot, context: NodeContext) -> Answer
        requires { IsOfKind kind.Anchor self.old.tokens.peeked }
        ensures answers { Reads (at.node context) self.old self.new result slot.new }
        ensures bounds { Moves 0 2 self.old self.new result }
    {
        let mark = self.mark();
        let name = self.tokens.take_name();
        let next = self.peek(slot)?;
        match next {
            Kind::Tag => {
                let (handle, suffix) = self.tokens.take_tag();
                let tag = match self.names.resolve(mark, handle, suffix) {
                    Ok(tag) => tag,
                    Err(fault) => return Err(slot.halt(Some(fault))),
                };
                self.content_after(slot, context, name, tag)
            }
            _ => self.content(
                slot,
                context,
                Some(Properties {
                    anchor: Some(name),
                    tag: None,
                }),
                next,
            ),
        }
    }

    /// A node that begins with a tag.
    fn tagged(&mut self, slot: &mut EventSlot, context: NodeContext) -> Answer
        requires { IsOfKind kind.Tag self.old.tokens.peeked }
        ensures answers { Reads (at.node context) self.old self.new result slot.new }
        ensures bounds { Moves 0 2 self.old self.new result }
    {
        let mark = self.mark();
        let (handle, suffix) = self.tokens.take_tag();
        let tag = match self.names.resolve(mark, handle, suffix) {
            Ok(tag) => tag,
            Err(fault) => return Err(slot.halt(Some(fault))),
        };
        let next = self.peek(slot)?;
        match next {
            Kind::Anchor => {
                let name = self.tokens.take_name();
                self.content_after(slot, context, name, tag)
            }
            _ => self.content(
                slot,
                context,
                Some(Properties {
                    anchor: None,
                    tag: Some(tag),
                }),
                next,
            ),
        }
    }

    /// What stands after an anchor and a tag.
    #[inline(never)]
    fn content_after(
        &mut self,
        slot: &mut EventSlot,
        context: NodeContext,
        anchor: String,
        tag: Tag,
    ) -> Answer
        ensures answers { ReadsAfter context (Some (record { anchor = Some anchor; tag = Some tag })) self.old self.new result slot.new }
        ensures bounds { Moves 0 0 self.old self.new result }
    {
        let next = self.peek(slot)?;
        let properties = Properties {
            anchor: Some(anchor),
            tag: Some(tag),
        };
        self.content(slot, context, Some(properties), next)
    }

    /// What stands after a node's properties. `next` was looked at.
    #[inline(always)]
    fn content(
        &mut self,
        slot: &mut EventSlot,
        context: NodeContext,
        properties: Option<Properties>,
        next: Kind,
    ) -> Answer
        requires { IsOfKind next self.old.tokens.peeked }
        ensures answers { ReadsAfter context properties self.old self.new result slot.new }
        ensures bounds { Moves 0 (owed properties) self.old self.new result }
    {
        match next {
            Kind::Scalar => self.scalar(slot, properties),
            Kind::FlowSequenceStart => self.flow_sequence(slot, properties),
            Kind::FlowMappingStart => self.flow_mapping(slot, properties),
            _ => self.block_contents(slot, context, properties, next),
        }
    }

    /// A content that stands outside flow alone, or none. `next` was looked at.
    #[inline(always)]
    fn block_contents(
        &mut self,
        slot: &mut EventSlot,
        context: NodeContext,
        properties: Option<Properties>,
        next: Kind,
    ) -> Answer
        requires looks { IsOfKind next self.old.tokens.peeked }
        requires none { begins_content Flow next ≡ false }
        ensures answers { ReadsAfter context properties self.old self.new result slot.new }
        ensures bounds { Moves 0 (owed properties) self.old self.new result }
    {
        match (context, next) {
            (NodeContext::Block | NodeContext::Pair, Kind::BlockSequenceStart) => {
                self.block_sequence(slot, properties)
            }
            (NodeContext::Block | NodeContext::Pair, Kind::BlockMappingStart) => {
                self.block_mapping(slot, properties)
            }
            (NodeContext::Pair, Kind::BlockEntry) => self.indentless_sequence(slot, properties),
            _ => self.no_content(slot, properties, next),
        }
    }

    /// A scalar. Its token was looked at.
    #[inline(always)]
    fn scalar(&mut self, slot: &mut EventSlot, properties: Option<Properties>) -> Answer
        requires { IsOfKind kind.Scalar self.old.tokens.peeked }
        ensures answers { (context : NodeContext) → ReadsAfter context properties self.old self.new result slot.new }
        ensures bounds { Moves 0 (owed properties) self.old self.new result }
    {
        let mark = self.mark();
        let (style, text) = self.tokens.take_scalar();
        let (anchor, tag) = self.registered(slot, properties)?;
        slot.write(Event::Scalar(text, style, anchor, tag), mark);
        Ok(())
    }

    /// A flow sequence. Its bracket was looked at.
    #[inline(always)]
    fn flow_sequence(&mut self, slot: &mut EventSlot, properties: Option<Properties>) -> Answer
        requires { IsOfKind kind.FlowSequenceStart self.old.tokens.peeked }
        ensures answers { (context : NodeContext) → ReadsAfter context properties self.old self.new result slot.new }
        ensures bounds { Moves 0 (owed properties) self.old self.new result }
    {
        let mark = self.skip();
        self.push(slot, State::FlowSequenceEntries)?;
        self.start(slot, Collection::Sequence, properties, mark)
    }

    /// A flow mapping. Its brace was looked at.
    #[inline(always)]
    fn flow_mapping(&mut self, slot: &mut EventSlot, properties: Option<Properties>) -> Answer
        requires { IsOfKind kind.FlowMappingStart self.old.tokens.peeked }
        ensures answers { (context : NodeContext) → ReadsAfter context properties self.old self.new result slot.new }
        ensures bounds { Moves 0 (owed properties) self.old self.new result }
    {
        let mark = self.skip();
        self.push(slot, State::FlowMappingEntries)?;
        self.start(slot, Collection::Mapping, properties, mark)
    }

    /// A block sequence. Its start was looked at.
    #[inline(always)]
    fn block_sequence(&mut self, slot: &mut EventSlot, properties: Option<Properties>) -> Answer
        requires { IsOfKind kind.BlockSequenceStart self.old.tokens.peeked }
        ensures answers { (context : NodeContext) → begins_content context kind.BlockSequenceStart ≡ true → ReadsAfter context properties self.old self.new result slot.new }
        ensures bounds { Moves 0 (owed properties) self.old self.new result }
    {
        let mark = self.skip();
        self.push(slot, State::BlockSequenceEntries)?;
        self.start(slot, Collection::Sequence, properties, mark)
    }

    /// A block mapping. Its start was looked at.
    #[inline(always)]
    fn block_mapping(&mut self, slot: &mut EventSlot, properties: Option<Properties>) -> Answer
        requires { IsOfKind kind.BlockMappingStart self.old.tokens.peeked }
        ensures answers { (context : NodeContext) → begins_content context kind.BlockMappingStart ≡ true → ReadsAfter context properties self.old self.new result slot.new }
        ensures bounds { Moves 0 (owed properties) self.old self.new result }
    {
        let mark = self.skip();
        self.push(slot, State::BlockMappingEntries)?;
        self.start(slot, Collection::Mapping, properties, mark)
    }

    /// A block sequence at the column of its key. Its first `-` was looked at.
    #[inline(always)]
    fn indentless_sequence(
        &mut self,
        slot: &mut EventSlot,
        properties: Option<Properties>,
    ) -> Answer
        requires { IsOfKind kind.BlockEntry self.old.tokens.peeked }
        ensures answers { ReadsAfter context.Pair properties self.old self.new result slot.new }
        ensures bounds { Moves 0 (owed properties) self.old self.new result }
    {
        let mark = self.skip();
        self.push(slot, State::IndentlessSequenceItem)?;
        self.start(slot, Collection::Sequence, properties, mark)
    }

    /// Properties alone are a node. `next` was looked at.
    #[inline(never)]
    fn no_content(
        &mut self,
        slot: &mut EventSlot,
        properties: Option<Properties>,
        next: Kind,
    ) -> Answer
        requires { IsOfKind next self.old.tokens.peeked }
        ensures answers { (context : NodeContext) → begins_content context next ≡ false → ReadsAfter context properties self.old self.new result slot.new }
        ensures bounds { Moves 0 (owed properties) self.old self.new result }
    {
        let mark = self.mark();
        match properties {
            Some(properties) => {
                let (anchor, tag) = self.registered(slot, Some(properties))?;
                slot.write(Event::empty_with(self.alloc, anchor, tag), mark);
                Ok(())
            }
            None => Err(slot.halt(Some(Fault::At(Problem::NodeContent, mark)))),
        }
    }

    /// The start of this collection, with these properties.
    #[inline(always)]
    fn start(
        &mut self,
        slot: &mut EventSlot,
        collection: Collection,
        properties: Option<Properties>,
        mark: Marker,
    ) -> Answer
        ensures work { OnOk result (work self.new ≡ work self.old) }
        ensures input { KeepsInput self.old self.new }
        ensures registers { (names : Names) → IsNamed self.old.names names → OnOk result (Registers self.old properties names (λ a t. placed slot.new.next ≡ (start_of collection a t, mark)) self.new) }
        ensures err { OnErr result (slot.new.fault ≡ Some OutOfMemory) }
    {
        let (anchor, tag) = self.registered(slot, properties)?;
        match collection {
            Collection::Sequence => slot.write(Event::SequenceStart(anchor, tag), mark),
            Collection::Mapping => slot.write(Event::MappingStart(anchor, tag), mark),
        }
        Ok(())
    }

    /// Numbers the anchor of these properties.
    #[inline(always)]
    fn registered(
        &mut self,
        slot: &mut EventSlot,
        properties: Option<Properties>,
    ) -> Result<(usize, Option<Tag>), Failed>
        ensures work { OnOk result (work self.new ≡ work self.old) }
        ensures input { KeepsInput self.old self.new }
        ensures registers { (names : Names) → IsNamed self.old.names names → IfOk result (λ r. Registers self.old properties names (λ a t. (r.0 ≡ a) × (perhaps_tag_of r.1 ≡ t)) self.new) }
        ensures err { OnErr result (slot.new.fault ≡ Some OutOfMemory) }
    {
        let Some(properties) = properties else {
            return Ok((0, None));
        };
        let anchor = match self.names.register(properties.anchor) {
            Ok(anchor) => anchor,
            Err(fault) => return Err(slot.halt(Some(fault))),
        };
        Ok((anchor, properties.tag))
    }
}
