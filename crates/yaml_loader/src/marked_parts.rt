//! The parts of a node, one after the other.
ghost use Rattle.std.specs.Prelude.{◌≡◌};
ghost use Rattle.defs_tree.specs.Tree.{items_of, pairs_of};
ghost use Rattle.yaml_tree.specs.View.{items_view};
ghost use Rattle.yaml_loader.specs.Table.{ItemsHaveMarks, ItemsHaveMarks-prop, PairsHaveMarks, PairsHaveMarks-prop};

use crate::mark::Mark;
use crate::marked_node::Marked;
use yaml_tree::{Yaml, entries};

/// The items of an array with their positions, in order.
#[derive(Drop)]
pub struct Items<'a> {
    pub(crate) rest: &'a [Yaml],
    pub(crate) marks: &'a [Mark],
    pub(crate) table: &'a [Mark],
    ghost fits: { ItemsHaveMarks table.now (items_of (items_view rest.now)) marks.now } by { ItemsHaveMarks-prop table.now (items_of (items_view rest.now)) marks.now },
}

impl<'a> Iterator for Items<'a> {
    ghost use Rattle.std.specs.Iterator.{YieldsFirstBy, item_count};
    ghost use Rattle.yaml_loader.specs.MarkedNode.{node_of};
    ghost use Rattle.yaml_loader.specs.MarkedParts.{items_left};

    type Item = Marked<'a>;

    ghost next_gives = { YieldsFirstBy node_of items_left };

    ghost remaining = { item_count items_left };

    #[tactic(auto, using(crate::proofs::Seen::no_items_left))]
    fn next(&mut self) -> Option<Marked<'a>> {
        let (mark, marks) = self.marks.split_first()?;
        let (tree, rest) = self.rest.split_first()?;
        self.marks = marks;
        self.rest = rest;
        Some(Marked {
            tree,
            table: self.table,
            mark,
        })
    }
}

/// The pairs of a hash with their positions, in order: each key and its value.
#[derive(Drop)]
pub struct Pairs<'a> {
    pub(crate) rest: entries::Iter<'a>,
    pub(crate) marks: &'a [Mark],
    pub(crate) table: &'a [Mark],
    ghost fits: { PairsHaveMarks table.now (pairs_of rest) marks.now } by { PairsHaveMarks-prop table.now (pairs_of rest) marks.now },
}

impl<'a> Iterator for Pairs<'a> {
    ghost use Rattle.std.specs.Iterator.{YieldsFirstBy, item_count};
    ghost use Rattle.yaml_loader.specs.MarkedNode.{pair_of};
    ghost use Rattle.yaml_loader.specs.MarkedParts.{pairs_left};

    type Item = (Marked<'a>, Marked<'a>);

    ghost next_gives = { YieldsFirstBy pair_of pairs_left };

    ghost remaining = { item_count pairs_left };

    #[tactic(auto, using(crate::proofs::Seen::no_pairs_left))]
    fn next(&mut self) -> Option<(Marked<'a>, Marked<'a>)> {
        let (key_mark, marks) = self.marks.split_first()?;
        let (value_mark, marks) = marks.split_first()?;
        let (key, value) = self.rest.next()?;
        self.marks = marks;
        let table = self.table;
        let key = Marked {
            tree: key,
            table,
            mark: key_mark,
        };
        let value = Marked {
            tree: value,
            table,
            mark: value_mark,
        };
        Some((key, value))
    }
}
