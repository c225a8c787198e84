//! How trees are dropped: without memory, and in a bounded number of stack frames, however deep they are.
ghost use Rattle.std.specs.Prelude.{◌≡◌, ◌≢◌, ◌<◌, ◌≤◌, ◌++◌, ◌∷◌, [], IfSome, IfNone, ◌+◌, vec_len, vec_capacity};
ghost use Rattle.yaml_tree.specs.View.{view, items_view, array_tree};
ghost use Rattle.defs_tree.specs.Tree.{array, items_of};
ghost use Rattle.yaml_tree.specs.Weight.{parts, weight, with_last};

use crate::array::Array;
use crate::yaml::Yaml;

// The items of a node, or its keys and values; drops a node that has none.
fn parts_of(y: Yaml) -> Option<Vec<Yaml>>
    ensures none { IfNone result (parts (view y) ≡ []) }
    ensures some { IfSome result (λ v. (items_view v.items ≡ parts (view y)) × (parts (view y) ≢ [])) }
{
    let items = match y {
        Yaml::Array(array) => array.into_vec(),
        Yaml::Hash(hash) => hash.into_row(),
        Yaml::Real(text) | Yaml::String(text) => {
            drop(text);
            return None;
        }
        Yaml::Integer(_) | Yaml::Boolean(_) | Yaml::Alias(_) | Yaml::Null | Yaml::BadValue =>
            return None,
    };
    if items.is_empty() {
        items.destroy_empty();
        return None;
    }
    Some(items)
}

// Puts a row, of which one item is missing before its last, around the last of some parts.
fn descend(mut inner: Vec<Yaml>, mut outer: Vec<Yaml>, last: Yaml) -> Yaml
    requires big { items_view inner.items ≢ [] }
    requires room { vec_len outer + 1 < vec_capacity outer }
    ensures { view result ≡ with_last (λ t. array (items_of (items_view outer.items ++ t ∷ view last ∷ []))) (array_tree (items_view inner.items)) }
{
    let Some(item) = inner.pop() else {
        unreachable!()
    };
    outer.push_reserved(item);
    outer.push_reserved(last);
    inner.push_reserved(Yaml::Array(Array { items: outer }));
    Yaml::Array(Array { items: inner })
}

// What is left of a row without the item before its last.
fn next_of_row(mut row: Vec<Yaml>) -> Option<Yaml>
    ensures { IfSome result (λ z. weight (view z) < weight (array_tree (items_view row.items))) }
{
    let Some(last) = row.pop() else {
        row.destroy_empty();
        return None;
    };
    let Some(y) = row.pop() else {
        row.destroy_empty();
        return Some(last);
    };
    match parts_of(y) {
        None => {
            row.push_reserved(last);
            Some(Yaml::Array(Array { items: row }))
        }
        Some(parts) => Some(descend(parts, row, last)),
    }
}

fn next_of(y: Yaml) -> Option<Yaml>
    ensures { IfSome result (λ z. weight (view z) < weight (view y)) }
{
    next_of_row(parts_of(y)?)
}

// Drops a node by a loop.
fn discard_by_loop(y: Yaml) {
    let mut rest = y;
    while let Some(next) = next_of(rest) {
        rest = next;
    }
}

/// Drops a pair.
#[cold]
#[inline(never)]
pub(crate) fn discard_pair(key: Yaml, value: Yaml) {
    drop(key);
    drop(value);
}

// How many levels of a tree go by calls one in another, which is quicker than the loop.
const LEVELS: u8 = 24;

/// Drops the items of an array, or the keys and values of a hash.
pub(crate) fn discard_row(row: Vec<Yaml>) {
    discard_parts(row, LEVELS);
}

#[cycle(levels)]
fn discard_parts(row: Vec<Yaml>, levels: u8) {
    if levels == 0 {
        discard_by_loop(Yaml::Array(Array { items: row }));
        return;
    }
    let mut row = row;
    while let Some(item) = row.pop() {
        discard_node(item, levels - 1);
    }
    row.destroy_empty();
}

#[cycle(levels)]
fn discard_node(y: Yaml, levels: u8) {
    match y {
        Yaml::Array(array) => discard_parts(array.into_vec(), levels),
        Yaml::Hash(hash) => discard_parts(hash.into_row(), levels),
        Yaml::Real(text) | Yaml::String(text) => drop(text),
        Yaml::Integer(_) | Yaml::Boolean(_) | Yaml::Alias(_) | Yaml::Null | Yaml::BadValue => {}
    }
}
