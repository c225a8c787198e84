//! What a load makes, counted before it is made.
ghost use Rattle.std.specs.Prelude.{◌≡◌, ◌+◌, ◌<◌, ◌≤◌, ◌^◌, ℕ, nat_eq, if◌then◌else◌, length, OnOk, IfErr};
ghost use Rattle.defs_text.specs.Text.{string_chars};
ghost use Rattle.yaml_parser.specs.Shown.{ev_of, tag_of, perhaps_tag_of};
ghost use Rattle.yaml_loader.specs.Counting.{Counts, Counted, FitsIn};
ghost use Rattle.yaml_loader.specs.Extents.{extent_at, scalar_extent, tag_size};
ghost use Rattle.yaml_loader.specs.Made.{nothing_made, made_by, with_part, with_tag, with_node, with_kept, with_start, with_end};

use crate::extent::{Extent, SINGLE_NODE};
use crate::limits::Limits;
use std::alloc::{AllocError, Global};
use std::collections::BTreeMap;
use yaml_parser::{Event, Tag};
use yaml_scanner::Stack;

/// An open collection: its anchor's number, and how large it is so far.
#[derive(Clone, Copy, Debug)]
pub struct Opened {
    /// The number of its anchor, or 0.
    pub anchor: usize,
    /// How large it is so far.
    pub extent: Extent,
}

/// Why an event is not taken.
#[derive(Clone, Copy, Debug)]
pub enum Excess {
    /// There would be too many levels.
    Levels,
    /// The size would be too large.
    Size,
    /// Memory for the count was refused.
    OutOfMemory,
}

impl From<AllocError> for Excess {
    ghost use Rattle.std.specs.Prelude.{◌≡◌};
    ghost use Rattle.yaml_loader.specs.declared.count.Excess.TheVariants.{OutOfMemory};

    ghost from_gives = { λ _ excess. excess ≡ OutOfMemory };

    fn from(_: AllocError) -> Excess {
        Excess::OutOfMemory
    }
}

/// What a load makes of the events so far.
#[derive(Drop)]
pub struct Count {
    pub(crate) limits: Limits,
    // Of all nodes so far.
    pub(crate) size: usize,
    pub(crate) opened: Stack<Opened>,
    // The complete nodes that have an anchor, by its number.
    pub(crate) anchors: BTreeMap<usize, Extent>,
}

impl Count {
    /// Nothing was made. It takes no memory.
    pub fn new(alloc: Global, limits: Limits) -> Count
        ensures counts { Counts result nothing_made }
        ensures limits { result.limits ≡ limits }
    {
        Count {
            limits,
            size: 0,
            opened: Stack::new(alloc),
            anchors: BTreeMap::new(alloc),
        }
    }

    /// Counts one more event, before it is read. After an `Err` the count is of no use.
    pub fn take(&mut self, event: &Event) -> Result<(), Excess>
        ensures { Counted self.old (λ m. made_by m (ev_of event.now)) result self.new }
    {
        match event {
            Event::Alias(number) => self.take_alias(*number),
            Event::Scalar(content, _, anchor, tag) => self.take_scalar(content, *anchor, tag),
            Event::SequenceStart(anchor, tag) | Event::MappingStart(anchor, tag) => {
                self.start(*anchor, tag)
            }
            Event::SequenceEnd | Event::MappingEnd => self.close(),
            Event::Nothing
            | Event::StreamStart
            | Event::StreamEnd
            | Event::DocumentStart
            | Event::DocumentEnd => Ok(()),
        }
    }

    fn take_alias(&mut self, number: usize) -> Result<(), Excess>
        ensures { Counted self.old (λ m. with_node (extent_at number m.anchors) m) result self.new }
    {
        self.take_node(self.extent_at(number))
    }

    fn take_scalar(
        &mut self,
        content: &String,
        anchor: usize,
        tag: &Option<Tag>,
    ) -> Result<(), Excess>
        ensures { Counted self.old (λ m. with_kept anchor (scalar_extent (string_chars content.now)) (with_node (scalar_extent (string_chars content.now)) (with_tag (perhaps_tag_of tag.now) m))) result self.new }
    {
        self.take_tag(tag)?;
        self.take_content(content, anchor)
    }

    fn take_content(&mut self, content: &String, anchor: usize) -> Result<(), Excess>
        ensures { Counted self.old (λ m. with_kept anchor (scalar_extent (string_chars content.now)) (with_node (scalar_extent (string_chars content.now)) m)) result self.new }
    {
        let extent = scalar_extent(content);
        self.take_node(extent)?;
        self.keep(anchor, extent)
    }

    fn start(&mut self, anchor: usize, tag: &Option<Tag>) -> Result<(), Excess>
        ensures { Counted self.old (λ m. with_start anchor (with_tag (perhaps_tag_of tag.now) m)) result self.new }
    {
        self.take_tag(tag)?;
        self.open(anchor)
    }

    // A node's tag, which its event has and its tree has not.
    fn take_tag(&mut self, tag: &Option<Tag>) -> Result<(), Excess>
        ensures { Counted self.old (with_tag (perhaps_tag_of tag.now)) result self.new }
    {
        match tag {
            Some(tag) => self.add(tag_size(tag)),
            None => Ok(()),
        }
    }

    // A node, or the copy of one, where it stands.
    fn take_node(&mut self, extent: Extent) -> Result<(), Excess>
        ensures { Counted self.old (with_node extent) result self.new }
    {
        self.check_levels(extent.levels)?;
        self.add(extent.size)?;
        self.put(extent);
        Ok(())
    }

    // A complete node is kept for its aliases, if it has an anchor.
    fn keep(&mut self, anchor: usize, extent: Extent) -> Result<(), Excess>
        ensures { Counted self.old (with_kept anchor extent) result self.new }
    {
        if anchor == 0 {
            return Ok(());
        }
        self.add(extent.size)?;
        self.note(anchor, extent)?;
        Ok(())
    }

    fn open(&mut self, anchor: usize) -> Result<(), Excess>
        ensures { Counted self.old (with_start anchor) result self.new }
    {
        self.check_levels(1)?;
        self.add(1)?;
        self.opened.push(Opened {
            anchor,
            extent: SINGLE_NODE,
        })?;
        Ok(())
    }

    #[tactic(auto, using(crate::proofs::CountLemmas::end_counted))]
    fn close(&mut self) -> Result<(), Excess>
        ensures { Counted self.old (λ m. with_end m.opened m) result self.new }
    {
        let Some(Opened { anchor, extent }) = self.opened.pop() else {
            return Ok(());
        };
        self.put(extent);
        self.keep(anchor, extent)
    }

    // Whether a node with so many levels may stand in the innermost collection.
    fn check_levels(&self, levels: usize) -> Result<(), Excess>
        ensures ok { OnOk result (length self.now.opened + levels ≤ self.now.limits.levels) }
        ensures fits { OnOk result (length self.now.opened + levels < 2 ^ 64) }
        ensures err { IfErr result (λ x. (x ≡ Excess.Levels) × (self.now.limits.levels < length self.now.opened + levels)) }
    {
        let most = self.limits.levels;
        match self.opened.len().checked_add(levels) {
            Some(deepest) => {
                if deepest <= most {
                    return Ok(());
                }
                Err(Excess::Levels)
            }
            None => Err(Excess::Levels),
        }
    }

    // More is made.
    fn add(&mut self, size: usize) -> Result<(), Excess>
        ensures ok { OnOk result (self.new ≡ record self.old { size = self.old.size + size }) }
        ensures within { OnOk result (self.old.size + size ≤ self.old.limits.size) }
        ensures fits { OnOk result (self.old.size + size < 2 ^ 64) }
        ensures err { IfErr result (λ x. (x ≡ Excess.Size) × (self.old.limits.size < self.old.size + size)) }
        ensures limits { self.new.limits ≡ self.old.limits }
    {
        let most = self.limits.size;
        match self.size.checked_add(size) {
            Some(sum) => {
                if sum <= most {
                    self.size = sum;
                    return Ok(());
                }
                Err(Excess::Size)
            }
            None => Err(Excess::Size),
        }
    }

    // Puts a node into the innermost collection, if one is open.
    fn put(&mut self, extent: Extent)
        ensures opened { FitsIn extent self.old.opened → self.new.opened ≡ with_part extent self.old.opened }
        ensures others { self.new ≡ record self.old { opened = self.new.opened } }
    {
        if let Some(
            Opened {
                anchor,
                extent: outer,
            },
        ) = self.opened.top()
        {
            self.opened.set_top(Opened {
                anchor,
                extent: outer.extended(extent),
            });
        }
    }

    fn extent_at(&self, number: usize) -> Extent
        ensures { result ≡ extent_at number self.now.anchors.entries }
    {
        match self.anchors.get(&number) {
            Some(extent) => *extent,
            None => SINGLE_NODE,
        }
    }

    fn note(&mut self, anchor: usize, extent: Extent) -> Result<(), AllocError>
        ensures anchors { OnOk result ((n : ℕ) → extent_at n self.new.anchors.entries ≡ (if nat_eq n anchor then extent else extent_at n self.old.anchors.entries)) }
        ensures others { self.new ≡ record self.old { anchors = self.new.anchors } }
    {
        self.anchors.insert(anchor, extent)?;
        Ok(())
    }
}

#[tactic(auto, using(crate::proofs::CountLemmas::content_size))]
fn tag_size(tag: &Tag) -> usize
    ensures { result ≡ tag_size (tag_of tag.now) }
{
    tag.handle.as_str().len() + tag.suffix.as_str().len()
}

#[tactic(auto, using(crate::proofs::CountLemmas::content_size))]
fn scalar_extent(content: &String) -> Extent
    ensures { result ≡ scalar_extent (string_chars content.now) }
{
    Extent {
        size: content.as_str().len() + 1,
        levels: 1,
    }
}
