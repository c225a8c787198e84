//! The marks of a text's nodes, taken from its events one by one.
ghost use Rattle.std.specs.Prelude.{◌≡◌, OnOk};
ghost use Rattle.defs_event.specs.Event.{Ev};
ghost use Rattle.defs_event.specs.Marking as defs;
ghost use Rattle.yaml_parser.specs.Shown.{ev_of};
ghost use Rattle.yaml_loader.specs.MarkedLeaf.{alias_mark};
ghost use Rattle.yaml_loader.specs.Standing.{Goes, GoesWith, IsUnder, mark_under, HasStanding};

use crate::mark::Mark;
use std::alloc::{AllocError, Global};
use std::collections::BTreeMap;
use yaml_chars::Marker;
use yaml_parser::Event;

/// A collection that is open.
#[derive(Clone, Copy)]
pub(crate) struct Begun {
    pub(crate) anchor: usize,
    pub(crate) start: Marker,
    // How many marks waited before those of its parts.
    pub(crate) before: usize,
}

/// The marks of the events so far.
#[derive(Drop)]
pub(crate) struct Marking {
    // The marks of all parts of finished collections.
    pub(crate) table: Vec<Mark>,
    // The marks of the parts of open collections, those of the innermost last.
    pub(crate) waiting: Vec<Mark>,
    // The innermost is the last.
    pub(crate) opened: Vec<Begun>,
    // The document's node, where it is complete.
    pub(crate) root: Option<Mark>,
    pub(crate) documents: Vec<Mark>,
    // The marks of the nodes that have an anchor and are complete, by its number.
    pub(crate) anchors: BTreeMap<usize, Mark>,
}

impl Marking {
    /// No event came. It takes no memory.
    pub(crate) fn new(alloc: Global) -> Marking
        ensures { HasStanding result defs.nothing_marked }
    {
        Marking {
            table: Vec::new(alloc),
            waiting: Vec::new(alloc),
            opened: Vec::new(alloc),
            root: None,
            documents: Vec::new(alloc),
            anchors: BTreeMap::new(alloc),
        }
    }

    /// One more event. After an `Err`, which comes only if memory was refused, the marks are of no use.
    #[inline(always)]
    pub(crate) fn take(&mut self, event: &Event, position: Marker) -> Result<(), AllocError>
        ensures { OnOk result (Goes self.old (λ x. defs.with_event_marked x (ev_of event.now) position) self.new) }
    {
        match event {
            Event::Alias(number) => {
                let mark = self.alias(*number, position);
                self.insert(mark)
            }
            Event::Scalar(_, _, anchor, _) => self.insert_anchored(*anchor, Mark::leaf(position)),
            Event::SequenceStart(anchor, _) | Event::MappingStart(anchor, _) => {
                self.open(*anchor, position)
            }
            Event::SequenceEnd | Event::MappingEnd => self.close(),
            Event::DocumentEnd => self.end_document(position),
            Event::Nothing | Event::StreamStart | Event::StreamEnd | Event::DocumentStart => Ok(()),
        }
    }

    // An alias: it stands here, and its tree is that of its anchor.
    fn alias(&self, number: usize, position: Marker) -> Mark
        ensures { result ≡ alias_mark position (mark_under number self.now.anchors.entries) }
    {
        match self.anchors.get(&number) {
            Some(mark) => Mark {
                own: position,
                ..*mark
            },
            None => Mark::leaf(position),
        }
    }

    #[inline(always)]
    fn open(&mut self, anchor: usize, start: Marker) -> Result<(), AllocError>
        ensures { OnOk result (Goes self.old (defs.with_open anchor start) self.new) }
    {
        let before = self.waiting.len();
        self.opened.reserve(1)?;
        self.opened.push_reserved(Begun {
            anchor,
            start,
            before,
        });
        Ok(())
    }

    // The innermost collection is complete: the marks of its parts go into the table.
    #[inline(never)]
    fn close(&mut self) -> Result<(), AllocError>
        ensures { OnOk result (Goes self.old (λ x. defs.with_close x x.opened) self.new) }
    {
        let Some(collection) = self.opened.pop() else {
            return Ok(());
        };
        let first = self.table.len();
        let before = collection.before.min(self.waiting.len());
        self.table.extend_from_slice(&self.waiting[before..])?;
        let count = self.waiting.len() - before;
        self.waiting.truncate(before);
        let mark = Mark {
            own: collection.start,
            tree: collection.start,
            first,
            count,
        };
        self.insert_anchored(collection.anchor, mark)
    }

    #[inline(never)]
    fn end_document(&mut self, position: Marker) -> Result<(), AllocError>
        ensures { OnOk result (Goes self.old (λ x. defs.with_event_marked x Ev.document_end position) self.new) }
    {
        let root = self.root.take().unwrap_or(Mark::leaf(position));
        self.documents.reserve(1)?;
        self.documents.push_reserved(root);
        Ok(())
    }

    // A complete node with its anchor, if the number is not 0.
    #[inline(always)]
    fn insert_anchored(&mut self, anchor: usize, mark: Mark) -> Result<(), AllocError>
        ensures { OnOk result (GoesWith mark self.old (λ m x. defs.with_anchored anchor m x x.opened) self.new) }
    {
        if anchor > 0 {
            self.keep(anchor, &mark)?;
        }
        self.insert(mark)
    }

    // From now on an alias means the tree of this node.
    #[inline(never)]
    fn keep(&mut self, anchor: usize, mark: &Mark) -> Result<(), AllocError>
        ensures others { self.new ≡ record self.old { anchors = self.new.anchors } }
        ensures under { OnOk result (IsUnder anchor mark.now self.old.anchors.entries self.new.anchors.entries) }
    {
        self.anchors.insert(anchor, *mark)?;
        Ok(())
    }

    // A complete node: the root, or the next part of the innermost collection.
    #[inline(always)]
    fn insert(&mut self, mark: Mark) -> Result<(), AllocError>
        ensures { OnOk result (GoesWith mark self.old (λ m x. defs.with_part m x x.opened) self.new) }
    {
        if self.opened.is_empty() {
            self.root = Some(mark);
            return Ok(());
        }
        self.waiting.reserve(1)?;
        self.waiting.push_reserved(mark);
        Ok(())
    }
}
