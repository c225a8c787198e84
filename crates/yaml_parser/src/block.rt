//! Block collections (YAML 1.2, section 8.2).
ghost use Rattle.model_parser.specs.Goal as at;
ghost use Rattle.yaml_parser.specs.At.{Reads};
ghost use Rattle.yaml_parser.specs.Work.{Moves};
ghost use Rattle.yaml_parser.specs.Kinds.{IsOfKind};

use crate::event::Event;
use crate::reader::Reader;
use crate::slot::{Answer, EventSlot};
use model_parser::{Kind, NodeContext, State};
use yaml_chars::Characters;
use yaml_tokens::{Fault, Problem};

impl<T: Characters> Reader<T> {
    #[inline(always)]
    pub(crate) fn block_sequence_entries(&mut self, slot: &mut EventSlot) -> Answer
        ensures answers { Reads at.block_sequence_entries self.old self.new result slot.new }
        ensures bounds { Moves 1 1 self.old self.new result }
    {
        let next = self.peek(slot)?;
        match next {
            Kind::BlockEnd => {
                self.end_sequence(slot);
                Ok(())
            }
            Kind::BlockEntry => {
                self.skip();
                self.block_sequence_item(slot)
            }
            _ => Err(slot.halt(Some(Fault::At(Problem::BlockSequenceEntry, self.mark())))),
        }
    }

    /// After a `-`.
    #[inline(always)]
    fn block_sequence_item(&mut self, slot: &mut EventSlot) -> Answer
        ensures answers { Reads at.block_sequence_item self.old self.new result slot.new }
        ensures bounds { Moves 3 1 self.old self.new result }
    {
        let next = self.peek(slot)?;
        self.push(slot, State::BlockSequenceEntries)?;
        match next {
            Kind::BlockEntry | Kind::BlockEnd => {
                self.nothing_written(slot, self.mark());
                Ok(())
            }
            _ => self.node(slot, NodeContext::Block, next),
        }
    }

    pub(crate) fn indentless_sequence_entries(&mut self, slot: &mut EventSlot) -> Answer
        ensures answers { Reads at.indentless_sequence_entries self.old self.new result slot.new }
        ensures bounds { Moves 1 1 self.old self.new result }
    {
        let next = self.peek(slot)?;
        match next {
            Kind::BlockEntry => {
                self.skip();
                self.indentless_sequence_item(slot)
            }
            _ => {
                slot.write(Event::SequenceEnd, self.mark());
                Ok(())
            }
        }
    }

    /// After a `-`.
    #[inline(always)]
    pub(crate) fn indentless_sequence_item(&mut self, slot: &mut EventSlot) -> Answer
        ensures answers { Reads at.indentless_sequence_item self.old self.new result slot.new }
        ensures bounds { Moves 2 1 self.old self.new result }
    {
        let next = self.peek(slot)?;
        self.push(slot, State::IndentlessSequenceEntries)?;
        match next {
            Kind::BlockEntry | Kind::Key | Kind::Value | Kind::BlockEnd => {
                self.nothing_written(slot, self.mark());
                Ok(())
            }
            _ => self.node(slot, NodeContext::Block, next),
        }
    }

    #[inline(always)]
    pub(crate) fn block_mapping_entries(&mut self, slot: &mut EventSlot) -> Answer
        ensures answers { Reads at.block_mapping_entries self.old self.new result slot.new }
        ensures bounds { Moves 1 1 self.old self.new result }
    {
        if let Some(key) = self.next_key(slot)? {
            return self.plain(slot, key, State::BlockMappingValue);
        }
        let next = self.peek(slot)?;
        match next {
            Kind::Value => {
                let mark = self.skip();
                self.push(slot, State::BlockMappingEntries)?;
                self.push(slot, State::PairNode)?;
                self.nothing_written(slot, mark);
                Ok(())
            }
            _ => self.block_mapping_pair(slot, next),
        }
    }

    /// Where a `:` would be a value of the key before.
    pub(crate) fn block_mapping_next_entries(&mut self, slot: &mut EventSlot) -> Answer
        ensures answers { Reads at.block_mapping_next_entries self.old self.new result slot.new }
        ensures bounds { Moves 1 1 self.old self.new result }
    {
        let next = self.peek(slot)?;
        self.block_mapping_pair(slot, next)
    }

    /// A pair that begins with a key, or the mapping's end. `next` was looked at.
    #[inline(always)]
    fn block_mapping_pair(&mut self, slot: &mut EventSlot, next: Kind) -> Answer
        requires { IsOfKind next self.old.tokens.peeked }
        ensures answers { Reads at.block_mapping_next_entries self.old self.new result slot.new }
        ensures bounds { Moves 1 1 self.old self.new result }
    {
        match next {
            Kind::BlockEnd => {
                self.end_mapping(slot);
                Ok(())
            }
            Kind::Key => {
                self.skip();
                self.push(slot, State::BlockMappingValue)?;
                self.pair_node(slot)
            }
            _ => Err(slot.halt(Some(Fault::At(Problem::BlockMappingKey, self.mark())))),
        }
    }

    /// After a key.
    #[inline(always)]
    pub(crate) fn block_mapping_value(&mut self, slot: &mut EventSlot) -> Answer
        ensures answers { Reads at.block_mapping_value self.old self.new result slot.new }
        ensures bounds { Moves 2 1 self.old self.new result }
    {
        if let Some(value) = self.next_value(slot)? {
            return self.plain(slot, value, State::BlockMappingEntries);
        }
        let next = self.peek(slot)?;
        match next {
            Kind::Value => {
                self.skip();
                self.push(slot, State::BlockMappingEntries)?;
                self.pair_node(slot)
            }
            _ => {
                self.push(slot, State::BlockMappingNextEntries)?;
                self.nothing_written(slot, self.mark());
                Ok(())
            }
        }
    }

    /// A key or a value, which may be missing.
    #[inline(always)]
    pub(crate) fn pair_node(&mut self, slot: &mut EventSlot) -> Answer
        ensures answers { Reads at.pair_node self.old self.new result slot.new }
        ensures bounds { Moves 1 1 self.old self.new result }
    {
        let next = self.peek(slot)?;
        match next {
            Kind::Key | Kind::Value | Kind::BlockEnd => {
                self.nothing_written(slot, self.mark());
                Ok(())
            }
            _ => self.node(slot, NodeContext::Pair, next),
        }
    }
}
