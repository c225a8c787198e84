//! The marks of nodes.
ghost use Rattle.std.specs.Prelude.{◌≡◌};
ghost use Rattle.yaml_loader.specs.MarkedLeaf.{leaf_mark};

use yaml_chars::Marker;

/// Where a node begins, where its tree begins, and which marks of a table are those of its parts.
#[derive(Clone, Copy)]
pub struct Mark {
    pub(crate) own: Marker,
    pub(crate) tree: Marker,
    // The marks of the parts stand in the table in a row: the place of the first, and how many there are.
    pub(crate) first: usize,
    pub(crate) count: usize,
}

impl Mark {
    /// A node without parts.
    pub(crate) fn leaf(position: Marker) -> Mark
        ensures { result ≡ leaf_mark position }
    {
        Mark {
            own: position,
            tree: position,
            first: 0,
            count: 0,
        }
    }
}
