//! What a tree feeds a hasher.
ghost use Rattle.std.specs.Prelude.{◌≡◌, fold};
ghost use Rattle.std.proofs.Common.{ap};
ghost use Rattle.defs_tree.specs.Tree.{items_of, pairs_of};
ghost use Rattle.defs_tree.proofs.OrderLaws.{tree_eq_decides};
ghost use Rattle.yaml_tree.specs.Feed.{tree_feed, items_feed, pairs_feed};
ghost use Rattle.yaml_tree.specs.View.{view, array_tree, hash_tree};

use crate::array::Array;
use crate::hash::Hash;
use crate::yaml::Yaml;
use std::hash::{Hash as _, Hasher};

#[cycle(feed)]
#[tactic(auto, using(crate::proofs::TextOrder::string_encoded))]
fn feed<H: Hasher>(y: &Yaml, state: &mut H)
    ensures { state.new ≡ fold H.write state.old (tree_feed (view y.now)) }
{
    match y {
        Yaml::Real(text) => {
            state.write_u8(0);
            text.hash(state);
        }
        Yaml::Integer(n) => {
            state.write_u8(1);
            n.hash(state);
        }
        Yaml::String(text) => {
            state.write_u8(2);
            text.hash(state);
        }
        Yaml::Boolean(b) => {
            state.write_u8(3);
            b.hash(state);
        }
        Yaml::Array(items) => {
            state.write_u8(4);
            feed_items(items, state);
        }
        Yaml::Hash(pairs) => {
            state.write_u8(5);
            feed_pairs(pairs, state);
        }
        Yaml::Alias(n) => {
            state.write_u8(6);
            n.hash(state);
        }
        Yaml::Null => state.write_u8(7),
        Yaml::BadValue => state.write_u8(8),
    }
}

#[cycle(feed)]
fn feed_items<H: Hasher>(items: &Array, state: &mut H)
    ensures { state.new ≡ fold H.write state.old (items_feed (items_of items.now)) }
{
    for item in &items.items {
        state.write_u8(1);
        feed(item, state);
    }
    state.write_u8(0);
}

#[cycle(feed)]
fn feed_pairs<H: Hasher>(pairs: &Hash, state: &mut H)
    ensures { state.new ≡ fold H.write state.old (pairs_feed (pairs_of pairs.now)) }
{
    let row = pairs.row.as_slice();
    for i in 0..row.len() / 2 {
        state.write_u8(1);
        feed(&row[2 * i], state);
        feed(&row[2 * i + 1], state);
    }
    state.write_u8(0);
}

impl std::hash::Hash for Yaml {
    ghost hash_input = { λ y. tree_feed (view y) };

    ghost respects_eq = { λ x y e. ap tree_feed ((tree_eq_decides (view x) (view y)).0 e) };

    fn hash<H: Hasher>(&self, state: &mut H) {
        feed(self, state);
    }
}

impl std::hash::Hash for Array {
    ghost hash_input = { λ y. tree_feed (array_tree y) };

    ghost respects_eq = { λ x y e. ap tree_feed ((tree_eq_decides (array_tree x) (array_tree y)).0 e) };

    fn hash<H: Hasher>(&self, state: &mut H) {
        state.write_u8(4);
        feed_items(self, state);
    }
}

impl std::hash::Hash for Hash {
    ghost hash_input = { λ y. tree_feed (hash_tree y) };

    ghost respects_eq = { λ x y e. ap tree_feed ((tree_eq_decides (hash_tree x) (hash_tree y)).0 e) };

    fn hash<H: Hasher>(&self, state: &mut H) {
        state.write_u8(5);
        feed_pairs(self, state);
    }
}
