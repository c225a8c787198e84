//! A reading that is not at its end.
ghost use Rattle.std.specs.Prelude.{◌≡◌};
ghost use Rattle.defs_event.specs.Unfinished.{nothing_read};
ghost use Rattle.yaml_loader.specs.View.{unfinished_of};

use std::alloc::{AllocError, Global};
use std::collections::BTreeMap;
use yaml_tree::{Array, Hash, Yaml};

/// A collection that is open.
#[derive(Drop)]
pub enum Open {
    /// A sequence: its anchor's number and its items.
    Sequence(usize, Array),
    /// A mapping: its anchor's number, its pairs, and the key that waits for its value.
    Mapping(usize, Hash, Option<Yaml>),
}

/// What was read so far.
#[derive(Drop)]
pub struct TreeBuilder {
    pub(crate) alloc: Global,
    pub(crate) documents: Vec<Yaml>,
    // The innermost is the last.
    pub(crate) opened: Vec<Open>,
    // The document's node, where it is complete.
    pub(crate) root: Option<Yaml>,
    // Copies of the nodes that have an anchor and are complete, by its number.
    pub(crate) anchors: BTreeMap<usize, Yaml>,
}

/// Why an event is not read.
#[derive(Clone, Copy, Debug)]
pub enum Refusal {
    /// Memory was refused.
    OutOfMemory,
    /// The event cannot come after those before it.
    OutOfNesting,
    /// A mapping has the key already. The mapping stays open, and the key is its last.
    RepeatedKey,
}

impl From<AllocError> for Refusal {
    ghost use Rattle.std.specs.Prelude.{◌≡◌};
    ghost use Rattle.yaml_loader.specs.declared.reading.Refusal.TheVariants.{OutOfMemory};

    ghost from_gives = { λ _ refusal. refusal ≡ OutOfMemory };

    fn from(_: AllocError) -> Refusal {
        Refusal::OutOfMemory
    }
}

impl TreeBuilder {
    /// Nothing was read. It takes no memory.
    pub fn new(alloc: Global) -> TreeBuilder
        ensures { unfinished_of result ≡ nothing_read }
    {
        TreeBuilder {
            alloc,
            documents: Vec::new(alloc),
            opened: Vec::new(alloc),
            root: None,
            anchors: BTreeMap::new(alloc),
        }
    }
}
