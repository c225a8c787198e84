//! A node of a document, with its position.
ghost use Rattle.std.specs.Prelude.{◌≡◌, option_map, chars};
ghost use Rattle.defs_event.specs.Marks.{own_position, tree_position};
ghost use Rattle.yaml_tree.specs.Node.{boolean_of, integer_of, text_of};
ghost use Rattle.yaml_tree.specs.View.{view};
ghost use Rattle.yaml_loader.specs.Table.{HasMarks, HasMarks-prop};

use crate::mark::Mark;
use yaml_chars::Marker;
use yaml_tree::Yaml;

/// A node of a loaded document, with where it begins in the text.
///
/// A node begins where the event does that starts it (`Parser::next_token`): a scalar, an alias and a flow collection at
/// their first character, after an anchor and a tag. A block sequence begins at its first `-`, and a block mapping at its
/// first `?`, or at the `:` of its first pair. A node that is not written begins where it was missed.
///
/// An alias begins at its `*`. Its tree is a copy, whose parts have the positions of the tree that was copied.
#[derive(Clone, Copy)]
pub struct Marked<'a> {
    pub(crate) tree: &'a Yaml,
    pub(crate) table: &'a [Mark],
    pub(crate) mark: &'a Mark,
    ghost fits: { HasMarks table.now (view tree.now) mark.now } by { HasMarks-prop table.now (view tree.now) mark.now },
}

impl<'a> Marked<'a> {
    ghost use Rattle.yaml_loader.specs.MarkedNode.{tree_of, marks_of};

    /// Where the node begins.
    pub fn marker(&self) -> Marker
        ensures { result ≡ own_position (marks_of self.now) }
    {
        self.mark.own
    }

    /// Where its tree begins: for an alias where the tree begins that it is a copy of, else the same as `marker`.
    pub fn tree_marker(&self) -> Marker
        ensures { result ≡ tree_position (marks_of self.now) }
    {
        self.mark.tree
    }

    /// The node without positions.
    pub fn yaml(&self) -> &'a Yaml
        ensures { view result.now ≡ tree_of self.now }
    {
        self.tree
    }

    /// The truth value of a `Boolean`; `None` for every other node.
    pub fn as_bool(&self) -> Option<bool>
        ensures { result ≡ boolean_of (tree_of self.now) }
    {
        self.tree.as_bool()
    }

    /// The number of an `Integer`; `None` for every other node.
    pub fn as_i64(&self) -> Option<i64>
        ensures { result ≡ integer_of (tree_of self.now) }
    {
        self.tree.as_i64()
    }

    /// The text of a `String`; `None` for every other node.
    pub fn as_str(&self) -> Option<&'a str>
        ensures { option_map (λ s. chars s.now) result ≡ text_of (tree_of self.now) }
    {
        self.tree.as_str()
    }
}
