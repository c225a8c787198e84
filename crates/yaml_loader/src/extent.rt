//! How large a node is.
ghost use Rattle.std.specs.Prelude.{◌≡◌, ◌<◌, ◌+◌, ◌^◌};
ghost use Rattle.yaml_loader.specs.Extents.{extended};

/// How large a node is, with all nodes in it.
#[derive(Clone, Copy, Debug)]
pub struct Extent {
    /// How many nodes there are, and how many bytes their content has in UTF-8, together.
    pub size: usize,
    /// How deep they stand one in another: a scalar has one level, a collection one more than its deepest node.
    pub levels: usize,
}

/// A collection without nodes, or a scalar without content.
pub const SINGLE_NODE: Extent = Extent { size: 1, levels: 1 };

impl Extent {
    /// A collection of this extent with one node more. A number that does not fit is the largest one that does.
    pub fn extended(self, part: Extent) -> Extent
        ensures { self.size + part.size < 2 ^ 64 → part.levels + 1 < 2 ^ 64 → result ≡ extended self part }
    {
        Extent {
            size: self.size.saturating_add(part.size),
            levels: self.levels.max(part.levels.saturating_add(1)),
        }
    }
}
