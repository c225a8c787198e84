//! Counts of comparisons.
ghost use Rattle.std.specs.Prelude.{◌≡◌, ◌+◌, chars};
ghost use Rattle.defs_tree.specs.Order.{tree_cmp};
ghost use Rattle.defs_tree.specs.Tree.{string};
ghost use Rattle.yaml_tree.specs.View.{view};

use crate::Count;
use crate::compare::{compare, compare_text};
use crate::yaml::Yaml;
use std::cmp::Ordering;

/// How many keys, and how many digests of keys, were compared. Only contracts see the counts, and they take no bytes.
#[derive(Drop)]
pub struct Steps {
    /// How many keys were compared.
    pub keys: Count,
    /// How many digests were compared.
    pub digests: Count,
}

impl Steps {
    /// No comparison yet.
    pub fn new() -> Steps
        ensures keys { result.keys ≡ 0 }
        ensures digests { result.digests ≡ 0 }
    {
        Steps {
            keys: Count::new(),
            digests: Count::new(),
        }
    }

    /// Compares two nodes, and counts one comparison of keys.
    pub fn compare(&mut self, a: &Yaml, b: &Yaml) -> Ordering
        ensures order { result ≡ tree_cmp (view a.now) (view b.now) }
        ensures keys { self.new.keys ≡ self.old.keys + 1 }
        ensures digests { self.new.digests ≡ self.old.digests }
    {
        self.keys.add();
        compare(a, b)
    }

    // The same of a `String` of that text.
    pub(crate) fn compare_text(&mut self, text: &str, b: &Yaml) -> Ordering
        ensures order { result ≡ tree_cmp (string (chars text.now)) (view b.now) }
        ensures keys { self.new.keys ≡ self.old.keys + 1 }
        ensures digests { self.new.digests ≡ self.old.digests }
    {
        self.keys.add();
        compare_text(text, b)
    }
}
