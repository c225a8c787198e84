//! The order of trees, and when two are equal.
ghost use Rattle.std.specs.Prelude.{◌≡◌, chars, refl};
ghost use Rattle.std.specs.Cmp.{partial_equiv_from_equiv, partial_order_from_agreeing_total};
ghost use Rattle.std.specs.Ordering.{on, as_partial_cmp};
ghost use Rattle.std.proofs.lemmas.Cmp.{on_equiv, on_total};
ghost use Rattle.defs_tree.specs.Lists.{list_cmp};
ghost use Rattle.defs_tree.specs.Order.{rank, tree_cmp, tree_eq, items_cmp, pairs_cmp};
ghost use Rattle.defs_tree.specs.Tree.{string, items_of, pairs_of};
ghost use Rattle.defs_tree.proofs.OrderLaws.{tree_eq_equiv, tree_cmp_total};
ghost use Rattle.yaml_tree.specs.View.{view, items_view, array_tree, hash_tree};

use crate::array::Array;
use crate::hash::Hash;
use crate::yaml::Yaml;
use std::cmp::Ordering;

fn rank(y: &Yaml) -> u8
    ensures { result ≡ rank (view y.now) }
{
    match y {
        Yaml::Real(_) => 0,
        Yaml::Integer(_) => 1,
        Yaml::String(_) => 2,
        Yaml::Boolean(_) => 3,
        Yaml::Array(_) => 4,
        Yaml::Hash(_) => 5,
        Yaml::Alias(_) => 6,
        Yaml::Null => 7,
        Yaml::BadValue => 8,
    }
}

#[cycle(compare)]
#[tactic(auto, using(crate::proofs::TextOrder::string_cmp))]
pub(crate) fn compare(a: &Yaml, b: &Yaml) -> Ordering
    ensures { result ≡ tree_cmp (view a.now) (view b.now) }
{
    match (a, b) {
        (Yaml::Real(x), Yaml::Real(y)) => x.cmp(y),
        (Yaml::Integer(x), Yaml::Integer(y)) => x.cmp(y),
        (Yaml::String(x), Yaml::String(y)) => x.cmp(y),
        (Yaml::Boolean(x), Yaml::Boolean(y)) => x.cmp(y),
        (Yaml::Array(x), Yaml::Array(y)) => compare_items(x, y),
        (Yaml::Hash(x), Yaml::Hash(y)) => compare_pairs(x, y),
        (Yaml::Alias(x), Yaml::Alias(y)) => x.cmp(y),
        _ => rank(a).cmp(&rank(b)),
    }
}

#[cycle(compare)]
fn compare_items(a: &Array, b: &Array) -> Ordering
    ensures { result ≡ items_cmp (items_of a.now) (items_of b.now) }
{
    compare_nodes(a.items.as_slice(), b.items.as_slice())
}

#[cycle(compare)]
fn compare_pairs(a: &Hash, b: &Hash) -> Ordering
    ensures { result ≡ pairs_cmp (pairs_of a.now) (pairs_of b.now) }
{
    compare_nodes(a.row.as_slice(), b.row.as_slice())
}

// Compares nodes in a row: the items of arrays, or the keys and values of hashes.
#[cycle(compare)]
fn compare_nodes(a: &[Yaml], b: &[Yaml]) -> Ordering
    ensures { result ≡ list_cmp (items_view a.now) (items_view b.now) }
{
    let mut i = 0;
    while i < a.len() && i < b.len() {
        match compare(&a[i], &b[i]) {
            Ordering::Equal => i += 1,
            found => return found,
        }
    }
    a.len().cmp(&b.len())
}

/// Compares the `String` with that text with a node.
#[tactic(auto, using(crate::proofs::TextOrder::string_cmp))]
pub(crate) fn compare_text(text: &str, b: &Yaml) -> Ordering
    ensures { result ≡ tree_cmp (string (chars text.now)) (view b.now) }
{
    match b {
        Yaml::String(own) => text.cmp(own.as_str()),
        _ => 2.cmp(&rank(b)),
    }
}

impl PartialEq for Yaml {
    ghost eq = { on view tree_eq };

    ghost laws = { partial_equiv_from_equiv (on_equiv view tree_eq_equiv) };

    fn eq(&self, other: &Yaml) -> bool {
        compare(self, other).is_eq()
    }
}

impl Eq for Yaml {
    ghost laws = { on_equiv view tree_eq_equiv };
}

impl PartialOrd for Yaml {
    ghost partial_cmp = { as_partial_cmp (on view tree_cmp) };

    ghost laws = { partial_order_from_agreeing_total (on view tree_cmp) (on_total view tree_cmp_total) (λ _ _. refl) (λ _ _. refl) };

    fn partial_cmp(&self, other: &Yaml) -> Option<Ordering> {
        Some(compare(self, other))
    }
}

impl Ord for Yaml {
    ghost cmp = { on view tree_cmp };

    ghost total = { on_total view tree_cmp_total };

    ghost matches_partial_cmp = { λ _ _. refl };

    ghost matches_eq = { λ _ _. refl };

    fn cmp(&self, other: &Yaml) -> Ordering {
        compare(self, other)
    }
}

impl PartialEq for Array {
    ghost eq = { on array_tree tree_eq };

    ghost laws = { partial_equiv_from_equiv (on_equiv array_tree tree_eq_equiv) };

    fn eq(&self, other: &Array) -> bool {
        compare_items(self, other).is_eq()
    }
}

impl Eq for Array {
    ghost laws = { on_equiv array_tree tree_eq_equiv };
}

impl PartialOrd for Array {
    ghost partial_cmp = { as_partial_cmp (on array_tree tree_cmp) };

    ghost laws = { partial_order_from_agreeing_total (on array_tree tree_cmp) (on_total array_tree tree_cmp_total) (λ _ _. refl) (λ _ _. refl) };

    fn partial_cmp(&self, other: &Array) -> Option<Ordering> {
        Some(compare_items(self, other))
    }
}

impl Ord for Array {
    ghost cmp = { on array_tree tree_cmp };

    ghost total = { on_total array_tree tree_cmp_total };

    ghost matches_partial_cmp = { λ _ _. refl };

    ghost matches_eq = { λ _ _. refl };

    fn cmp(&self, other: &Array) -> Ordering {
        compare_items(self, other)
    }
}

impl PartialEq for Hash {
    ghost eq = { on hash_tree tree_eq };

    ghost laws = { partial_equiv_from_equiv (on_equiv hash_tree tree_eq_equiv) };

    fn eq(&self, other: &Hash) -> bool {
        compare_pairs(self, other).is_eq()
    }
}

impl Eq for Hash {
    ghost laws = { on_equiv hash_tree tree_eq_equiv };
}

impl PartialOrd for Hash {
    ghost partial_cmp = { as_partial_cmp (on hash_tree tree_cmp) };

    ghost laws = { partial_order_from_agreeing_total (on hash_tree tree_cmp) (on_total hash_tree tree_cmp_total) (λ _ _. refl) (λ _ _. refl) };

    fn partial_cmp(&self, other: &Hash) -> Option<Ordering> {
        Some(compare_pairs(self, other))
    }
}

impl Ord for Hash {
    ghost cmp = { on hash_tree tree_cmp };

    ghost total = { on_total hash_tree tree_cmp_total };

    ghost matches_partial_cmp = { λ _ _. refl };

    ghost matches_eq = { λ _ _. refl };

    fn cmp(&self, other: &Hash) -> Ordering {
        compare_pairs(self, other)
    }
}
