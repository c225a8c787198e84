//! Merge keys, carried out.
ghost use Rattle.std.specs.Prelude.{◌≡◌, ◌≢◌, true, Some, IfOk, OnOk, OnErr};
ghost use Rattle.defs_tree.specs.Merge.{merged, merged_items, merged_values, merged_pairs, brought, with_new_pairs, pairs_of_mappings};
ghost use Rattle.defs_tree.specs.Pairs.{insert};
ghost use Rattle.defs_tree.specs.Tree.{items_of, pairs_of};
ghost use Rattle.yaml_tree.specs.Node.{takes_memory};
ghost use Rattle.yaml_tree.specs.View.{view};

use std::alloc::{AllocError, Global};
use yaml_tree::{Array, Hash, Yaml};

/// The tree with all its merge keys carried out, where each brings mappings alone. An `Err` comes only where memory was
/// refused.
#[cycle(merged)]
pub(crate) fn merged(alloc: Global, node: &Yaml) -> Result<Yaml, AllocError>
    ensures tree { IfOk result (λ y. view y ≡ merged (view node.now)) }
    ensures only_in_memory { OnErr result (takes_memory (view node.now) ≡ true) }
{
    match node {
        Yaml::Array(items) => Ok(Yaml::Array(merged_items(alloc, items)?)),
        Yaml::Hash(pairs) => {
            let pairs = merged_values(alloc, pairs)?;
            Ok(Yaml::Hash(merged_pairs(alloc, pairs)?))
        }
        _ => node.clone(alloc),
    }
}

#[cycle(merged)]
fn merged_items(alloc: Global, items: &Array) -> Result<Array, AllocError>
    ensures { IfOk result (λ a. a ≡ merged_items (items_of items.now)) }
{
    let mut whole = Array::new(alloc);
    'items: for item in items {
        let item = merged(alloc, item)?;
        if whole.push(item).is_err() {
            return Err(AllocError);
        }
    }
    Ok(whole)
}

// The same pairs, each with its value merged.
#[cycle(merged)]
fn merged_values(alloc: Global, pairs: &Hash) -> Result<Hash, AllocError>
    ensures { IfOk result (λ h. h ≡ merged_values (pairs_of pairs.now)) }
{
    let mut whole = Hash::new(alloc);
    'pairs: for (key, value) in pairs.iter() {
        let value = merged(alloc, value)?;
        insert(&mut whole, key.clone(alloc)?, value)?;
    }
    Ok(whole)
}

// The pairs of a mapping, its own merge key carried out.
fn merged_pairs(alloc: Global, mut pairs: Hash) -> Result<Hash, AllocError>
    ensures { IfOk result (λ h. h ≡ merged_pairs pairs) }
{
    let merge_key = Yaml::String(String::from_str(alloc, "<<")?);
    if let Some(value) = pairs.remove(&merge_key) {
        add_brought(&mut pairs, value)?;
    }
    Ok(pairs)
}

// Puts in what the value of a merge key brings.
fn add_brought(pairs: &mut Hash, value: Yaml) -> Result<(), AllocError>
    ensures { OnOk result (pairs.new ≡ with_new_pairs pairs.old (brought (Some (view value)))) }
{
    match value {
        Yaml::Hash(mapping) => add_new_pairs(pairs, mapping),
        Yaml::Array(items) => add_mappings(pairs, items),
        _ => Ok(()),
    }
}

// Puts in the pairs of all mappings of a sequence, those of an earlier one first.
fn add_mappings(pairs: &mut Hash, items: Array) -> Result<(), AllocError>
    ensures { OnOk result (pairs.new ≡ with_new_pairs pairs.old (pairs_of_mappings (items_of items))) }
{
    'items: for item in items {
        if let Yaml::Hash(mapping) = item {
            add_new_pairs(pairs, mapping)?;
        }
    }
    Ok(())
}

// Puts in the pairs of a mapping whose keys are not there already.
fn add_new_pairs(pairs: &mut Hash, mapping: Hash) -> Result<(), AllocError>
    ensures { OnOk result (pairs.new ≡ with_new_pairs pairs.old mapping) }
{
    'pairs: for (key, value) in mapping {
        if pairs.get(&key).is_none() {
            insert(pairs, key, value)?;
        }
    }
    Ok(())
}

fn insert(pairs: &mut Hash, key: Yaml, value: Yaml) -> Result<(), AllocError>
    ensures { OnOk result (pairs.new ≡ insert (view key) (view value) pairs.old) }
{
    match pairs.insert(key, value) {
        Ok(_) => Ok(()),
        Err(_) => Err(AllocError),
    }
}
