//! Whether a tree is shallow, and every node of it has a JSON text.
ghost use Rattle.std.specs.Prelude.{◌≡◌};
ghost use Rattle.defs_tree.specs.Tree.{items_of, pairs_of};
ghost use Rattle.yaml_json.specs.Shallow.{is_shallow, are_items_shallow, are_pairs_shallow};
ghost use Rattle.yaml_tree.specs.View.{view};

use crate::find::is_string;
use crate::nest::only_item;
use crate::number::is_json_real;
use yaml_tree::{Array, Hash, Yaml};

/// Whether each node of a tree has a JSON text, and at most so many arrays and hashes stand one in another. It takes no
/// memory, and recurses no deeper than that.
#[cycle(shallow)]
pub(crate) fn is_shallow(root: &Yaml, levels: usize) -> bool
    ensures { result ≡ is_shallow levels (view root.now) }
{
    // An array of one item has a text just where the item has one. So a nest of such arrays takes no frames.
    let mut node = root;
    let mut left = levels;
    'node: while let Some(only) = only_item(node) {
        if left == 0 {
            return false;
        }
        left -= 1;
        node = only;
    }
    match node {
        Yaml::Real(text) => is_json_real(text.as_str()),
        Yaml::Array(items) => left > 0 && are_items_shallow(items, left - 1),
        Yaml::Hash(pairs) => left > 0 && are_pairs_shallow(pairs, left - 1),
        Yaml::Alias(_) | Yaml::BadValue => false,
        Yaml::Integer(_) | Yaml::String(_) | Yaml::Boolean(_) | Yaml::Null => true,
    }
}

#[cycle(shallow)]
fn are_items_shallow(items: &Array, levels: usize) -> bool
    ensures { result ≡ are_items_shallow levels (items_of items.now) }
{
    'items: for item in items {
        if !is_shallow(item, levels) {
            return false;
        }
    }
    true
}

#[cycle(shallow)]
fn are_pairs_shallow(pairs: &Hash, levels: usize) -> bool
    ensures { result ≡ are_pairs_shallow levels (pairs_of pairs.now) }
{
    'pairs: for (key, value) in pairs.iter() {
        if !is_string(key) || !is_shallow(value, levels) {
            return false;
        }
    }
    true
}
