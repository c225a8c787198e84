//! Flow collections (YAML 1.2, section 7.4).
ghost use Rattle.std.specs.Prelude.{IfSome};
ghost use Rattle.model_parser.specs.Goal as at;
ghost use Rattle.yaml_parser.specs.At.{Reads, start_after};
ghost use Rattle.yaml_parser.specs.Handed.{IsRightAfter};
ghost use Rattle.yaml_parser.specs.Work.{Moves};

use crate::event::Event;
use crate::reader::Reader;
use crate::slot::{Answer, EventSlot};
use model_parser::{Kind, NodeContext, State};
use yaml_chars::{Characters, Marker};
use yaml_tokens::{Fault, Problem};

impl<T: Characters> Reader<T> {
    /// After `[` or a comma. An item is a node, or a pair that begins with `?`.
    #[inline(always)]
    pub(crate) fn flow_sequence_entries(&mut self, slot: &mut EventSlot) -> Answer
        ensures answers { Reads at.flow_sequence_entries self.old self.new result slot.new }
        ensures bounds { Moves 1 1 self.old self.new result }
    {
        let next = self.peek(slot)?;
        match next {
            Kind::FlowSequenceEnd => {
                self.end_sequence(slot);
                Ok(())
            }
            Kind::Key => {
                let mark = self.skip();
                self.push(slot, State::FlowPairKey)?;
                slot.write(Event::MappingStart(0, None), mark);
                Ok(())
            }
            _ => {
                self.push(slot, State::FlowSequenceComma)?;
                self.node(slot, NodeContext::Flow, next)
            }
        }
    }

    /// After an item.
    #[inline(always)]
    pub(crate) fn flow_sequence_comma(&mut self, slot: &mut EventSlot) -> Answer
        ensures answers { Reads at.flow_sequence_comma self.old self.new result slot.new }
        ensures bounds { Moves 1 1 self.old self.new result }
    {
        let next = self.peek(slot)?;
        match next {
            Kind::FlowSequenceEnd => {
                self.end_sequence(slot);
                Ok(())
            }
            Kind::FlowEntry => {
                self.skip();
                self.flow_sequence_entries(slot)
            }
            _ => Err(slot.halt(Some(Fault::At(Problem::FlowSequenceEntry, self.mark())))),
        }
    }

    /// The key of a pair that is an item.
    pub(crate) fn flow_pair_key(&mut self, slot: &mut EventSlot) -> Answer
        ensures answers { Reads at.flow_pair_key self.old self.new result slot.new }
        ensures bounds { Moves 4 1 self.old self.new result }
    {
        let next = self.peek(slot)?;
        self.push(slot, State::FlowValue)?;
        match next {
            Kind::Value | Kind::FlowEntry | Kind::FlowSequenceEnd => {
                self.nothing_written(slot, self.mark());
                Ok(())
            }
            _ => self.node(slot, NodeContext::Flow, next),
        }
    }

    /// After the key of a pair that is an item.
    pub(crate) fn flow_value(&mut self, slot: &mut EventSlot) -> Answer
        ensures answers { Reads at.flow_value self.old self.new result slot.new }
        ensures bounds { Moves 3 1 self.old self.new result }
    {
        let next = self.peek(slot)?;
        match next {
            Kind::Value => {
                self.skip();
                self.flow_valued(slot)
            }
            _ => {
                self.push(slot, State::FlowPairEnd)?;
                self.nothing_written(slot, self.mark());
                Ok(())
            }
        }
    }

    /// After its `:`.
    #[inline(always)]
    fn flow_valued(&mut self, slot: &mut EventSlot) -> Answer
        ensures answers { Reads at.flow_valued self.old self.new result slot.new }
        ensures bounds { Moves 3 1 self.old self.new result }
    {
        let next = self.peek(slot)?;
        self.push(slot, State::FlowPairEnd)?;
        match next {
            Kind::FlowEntry | Kind::FlowSequenceEnd => {
                self.nothing_written(slot, self.mark());
                Ok(())
            }
            _ => self.node(slot, NodeContext::Flow, next),
        }
    }

    /// The end of a pair that is an item.
    pub(crate) fn flow_pair_end(&mut self, slot: &mut EventSlot) -> Answer
        ensures answers { Reads at.flow_pair_end self.old self.new result slot.new }
        ensures bounds { Moves 2 1 self.old self.new result }
    {
        self.push(slot, State::FlowSequenceComma)?;
        slot.write(Event::MappingEnd, self.tokens.scanner.mark());
        Ok(())
    }

    /// After `{`, or after a comma, which stands there. A pair has a key, or a value alone, or is a node that is a key without value.
    #[inline(always)]
    pub(crate) fn flow_mapping_entries(
        &mut self,
        slot: &mut EventSlot,
        comma: Option<Marker>,
    ) -> Answer
        ensures answers { IfSome comma (λ m. IsRightAfter m self.old.tokens) → Reads (at.flow_mapping_entries (start_after comma)) self.old self.new result slot.new }
        ensures bounds { Moves 1 1 self.old self.new result }
    {
        let next = self.peek(slot)?;
        match next {
            Kind::FlowMappingEnd => {
                let end = self.skip();
                slot.write(Event::MappingEnd, comma.unwrap_or(end));
                Ok(())
            }
            Kind::Key => {
                self.skip();
                self.flow_mapping_keyed(slot)
            }
            Kind::Value => {
                let colon = self.skip();
                self.push(slot, State::FlowMappingValued(colon))?;
                self.nothing_written(slot, colon);
                Ok(())
            }
            _ => {
                self.push(slot, State::NoFlowMappingValue)?;
                self.node(slot, NodeContext::Flow, next)
            }
        }
    }

    /// After a pair.
    #[inline(always)]
    pub(crate) fn flow_mapping_comma(&mut self, slot: &mut EventSlot) -> Answer
        ensures answers { Reads at.flow_mapping_comma self.old self.new result slot.new }
        ensures bounds { Moves 1 1 self.old self.new result }
    {
        let next = self.peek(slot)?;
        match next {
            Kind::FlowMappingEnd => {
                self.end_mapping(slot);
                Ok(())
            }
            Kind::FlowEntry => {
                let comma = self.skip();
                self.flow_mapping_entries(slot, Some(comma))
            }
            _ => Err(slot.halt(Some(Fault::At(Problem::FlowMappingEntry, self.mark())))),
        }
    }

    /// A key after its `?`, or after what stands for it.
    #[inline(always)]
    fn flow_mapping_keyed(&mut self, slot: &mut EventSlot) -> Answer
        ensures answers { Reads at.flow_mapping_keyed self.old self.new result slot.new }
        ensures bounds { Moves 4 1 self.old self.new result }
    {
        let next = self.peek(slot)?;
        self.push(slot, State::FlowMappingValue)?;
        match next {
            Kind::Value | Kind::FlowEntry | Kind::FlowMappingEnd => {
                self.nothing_written(slot, self.mark());
                Ok(())
            }
            _ => self.node(slot, NodeContext::Flow, next),
        }
    }

    /// After a key.
    #[inline(always)]
    pub(crate) fn flow_mapping_value(&mut self, slot: &mut EventSlot) -> Answer
        ensures answers { Reads at.flow_mapping_value self.old self.new result slot.new }
        ensures bounds { Moves 2 1 self.old self.new result }
    {
        let next = self.peek(slot)?;
        match next {
            Kind::Value => {
                let colon = self.skip();
                self.flow_mapping_valued(slot, colon)
            }
            _ => {
                self.push(slot, State::FlowMappingComma)?;
                self.nothing_written(slot, self.mark());
                Ok(())
            }
        }
    }

    /// After a `:`, which stands here.
    #[inline(always)]
    pub(crate) fn flow_mapping_valued(&mut self, slot: &mut EventSlot, colon: Marker) -> Answer
        ensures answers { Reads (at.flow_mapping_valued colon) self.old self.new result slot.new }
        ensures bounds { Moves 2 1 self.old self.new result }
    {
        let next = self.peek(slot)?;
        self.push(slot, State::FlowMappingComma)?;
        match next {
            Kind::FlowEntry | Kind::FlowMappingEnd => {
                self.nothing_written(slot, colon);
                Ok(())
            }
            _ => self.node(slot, NodeContext::Flow, next),
        }
    }

    /// After a node that is a key without value.
    pub(crate) fn no_flow_mapping_value(&mut self, slot: &mut EventSlot) -> Answer
        ensures answers { Reads at.no_flow_mapping_value self.old self.new result slot.new }
        ensures bounds { Moves 2 1 self.old self.new result }
    {
        self.peek(slot)?;
        self.push(slot, State::FlowMappingComma)?;
        self.nothing_written(slot, self.mark());
        Ok(())
    }
}
