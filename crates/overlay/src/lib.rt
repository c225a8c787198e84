//! One tree laid over another, as settings are laid over their defaults, and merge keys.
//!
//! [`overlay`] lays two trees over each other at all levels. [`merge_keys`] carries out the merge keys (`<<`) that stand in one tree.
#![tactic(auto)]

mod carry_out;
mod error;
mod find;
pub mod laws;
pub mod merge_keys;

ghost use Rattle.std.specs.Prelude.{◌≡◌, [], true, IfOk, OnOk, OnErr};
ghost use Rattle.defs_tree.specs.Overlay.{overlay, pairs_under, new_pairs};
ghost use Rattle.defs_tree.specs.Pairs.{insert, AreDistinct};
ghost use Rattle.defs_tree.specs.Tree.{pairs_of};
ghost use Rattle.defs_tree.specs.Writable.{IsWritable};
ghost use Rattle.yaml_tree.specs.Node.{takes_memory};
ghost use Rattle.yaml_tree.specs.View.{view};
ghost use Rattle.overlay.specs.Inserted.{inserted};

use std::alloc::{AllocError, Global};
use yaml_tree::{Hash, Yaml};

/// The right tree laid over the left one. Of two hashes: the left's pairs in order, the value of a key that both have
/// being the right's value laid over the left's, and then the right's pairs of new keys in order. Else a copy of the
/// right. Both trees stay as they are. An `Err` comes only where memory was refused, and where the right is a number of
/// 64 bits, a `Boolean`, an `Alias`, `Null` or `BadValue` none is asked for.
///
/// Of two trees that can be written and read back, the overlay can be too.
#[cycle(overlay)]
pub fn overlay(alloc: Global, left: &Yaml, right: &Yaml) -> Result<Yaml, AllocError>
    ensures tree { IfOk result (λ y. view y ≡ overlay (view left.now) (view right.now)) }
    ensures writable { IsWritable (view left.now) → IsWritable (view right.now) → IfOk result (λ y. IsWritable (view y)) }
    ensures only_in_memory { OnErr result (takes_memory (view right.now) ≡ true) }
{
    match (left, right) {
        (Yaml::Hash(under), Yaml::Hash(over)) => {
            let mut pairs = shared_pairs(alloc, under, over)?;
            add_new_pairs(alloc, &mut pairs, under, over)?;
            Ok(Yaml::Hash(pairs))
        }
        _ => right.clone(alloc),
    }
}

// The left's pairs, each with what the right lays over its value.
#[cycle(overlay)]
fn shared_pairs(alloc: Global, left: &Hash, right: &Hash) -> Result<Hash, AllocError>
    ensures pairs { IfOk result (λ h. h ≡ inserted [] (pairs_under right.now (pairs_of left.now))) }
    ensures distinct { OnOk result (AreDistinct left.now) }
{
    let mut pairs = Hash::new(alloc);
    'pairs: for (key, value) in left.iter() {
        let laid = match right.get(key) {
            Some(over) => overlay(alloc, value, over)?,
            None => value.clone(alloc)?,
        };
        add(alloc, &mut pairs, key, laid)?;
    }
    Ok(pairs)
}

// The right's pairs of keys that the left doesn't have.
fn add_new_pairs(
    alloc: Global,
    pairs: &mut Hash,
    left: &Hash,
    right: &Hash,
) -> Result<(), AllocError>
    ensures pairs { OnOk result (pairs.new ≡ inserted pairs.old (new_pairs left.now right.now)) }
    ensures distinct { OnOk result (AreDistinct right.now) }
{
    'pairs: for (key, value) in right.iter() {
        if left.get(key).is_none() {
            let value = value.clone(alloc)?;
            add(alloc, pairs, key, value)?;
        }
    }
    Ok(())
}

fn add(alloc: Global, pairs: &mut Hash, key: &Yaml, value: Yaml) -> Result<(), AllocError>
    ensures { OnOk result (pairs.new ≡ insert (view key.now) (view value) pairs.old) }
{
    let key = key.clone(alloc)?;
    match pairs.insert(key, value) {
        Ok(_) => Ok(()),
        Err(_) => Err(AllocError),
    }
}
