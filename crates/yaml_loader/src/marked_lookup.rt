//! The parts of a node: all of them, the item at a place, and the pair of a key.
ghost use Rattle.std.specs.Prelude.{◌≡◌, ◌+◌, ◌≤◌, length, chars, option_map};
ghost use Rattle.defs_event.specs.Marks.{marked_items, marked_pairs, node_at_place, node_at_text, pair_at_text};
ghost use Rattle.defs_tree.specs.Order.{tree_eq};
ghost use Rattle.defs_tree.specs.Tree.{string};
ghost use Rattle.yaml_tree.specs.Node.{value_at_text};
ghost use Rattle.yaml_loader.specs.MarkedNode.{tree_of, marks_of, node_of, pair_of};
ghost use Rattle.yaml_loader.specs.MarkedParts.{items_left, pairs_left};
ghost use Rattle.yaml_loader.specs.Table.{parts_at};

use crate::mark::Mark;
use crate::marked_node::Marked;
use crate::marked_parts::{Items, Pairs};
use yaml_tree::Yaml;

impl<'a> Marked<'a> {
    // The marks of the parts.
    fn parts(&self) -> &'a [Mark]
        requires { self.now.mark.now.first + self.now.mark.now.count ≤ length self.now.table.now }
        ensures { result.now ≡ parts_at self.now.table.now self.now.mark.now }
    {
        let end = self.mark.first + self.mark.count;
        &self.table[self.mark.first..end]
    }

    /// The items of an `Array`, in their order; `None` for every other node.
    pub fn items(&self) -> Option<Items<'a>>
        ensures { option_map items_left result ≡ marked_items (tree_of self.now) (marks_of self.now) }
    {
        match self.tree {
            Yaml::Array(items) => Some(Items {
                rest: items.as_slice(),
                marks: self.parts(),
                table: self.table,
            }),
            _ => None,
        }
    }

    /// The pairs of a `Hash`, in their order; `None` for every other node.
    pub fn pairs(&self) -> Option<Pairs<'a>>
        ensures { option_map pairs_left result ≡ marked_pairs (tree_of self.now) (marks_of self.now) }
    {
        match self.tree {
            Yaml::Hash(pairs) => Some(Pairs {
                rest: pairs.iter(),
                marks: self.parts(),
                table: self.table,
            }),
            _ => None,
        }
    }

    /// In an `Array` the item at that place, counted from 0; else `None`.
    pub fn get_index(&self, index: usize) -> Option<Marked<'a>>
        ensures { option_map node_of result ≡ node_at_place index (tree_of self.now) (marks_of self.now) }
    {
        match self.tree {
            Yaml::Array(items) => {
                let tree = items.get(index)?;
                let mark = self.parts().get(index)?;
                Some(Marked {
                    tree,
                    table: self.table,
                    mark,
                })
            }
            _ => None,
        }
    }

    /// In a `Hash` the value of the key `String` with that text; else `None`.
    pub fn get_key(&self, key: &str) -> Option<Marked<'a>>
        ensures node { option_map node_of result ≡ node_at_text (chars key.now) (tree_of self.now) (marks_of self.now) }
    {
        let (_, value) = self.get_pair(key)?;
        Some(value)
    }

    /// In a `Hash` the key `String` with that text, and its value; else `None`. It looks at the pairs in their order.
    pub fn get_pair(&self, key: &str) -> Option<(Marked<'a>, Marked<'a>)>
        ensures { option_map pair_of result ≡ pair_at_text (chars key.now) (tree_of self.now) (marks_of self.now) }
    {
        'pairs: for (name, value) in self.pairs()? {
            if name.is_text(key) {
                return Some((name, value));
            }
        }
        None
    }

    // Whether it is the `String` with that text.
    fn is_text(&self, text: &str) -> bool
        ensures { result ≡ tree_eq (string (chars text.now)) (tree_of self.now) }
    {
        match self.tree {
            Yaml::String(own) => own.as_str() == text,
            _ => false,
        }
    }
}
