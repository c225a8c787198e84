//! The first node that is to be merged and is no mapping.
ghost use Rattle.std.specs.Prelude.{◌≡◌, ◌≢◌, ℕ, None, IfOk, OnErr, option_map};
ghost use Rattle.defs_tree.specs.MergeFault as fault;
ghost use Rattle.defs_tree.specs.Merge.{merge_key};
ghost use Rattle.defs_tree.specs.Order.{tree_eq};
ghost use Rattle.defs_tree.specs.Tree.{items_of, pairs_of};
ghost use Rattle.yaml_json.specs.Found.{step_view};
ghost use Rattle.overlay.specs.Found.{path_of, path_found, wanted_view};
ghost use Rattle.yaml_tree.specs.View.{view};

use crate::error::NotAMapping;
use std::alloc::{AllocError, Global};
use yaml_json::Step;
use yaml_tree::{Array, Hash, Yaml};

/// What may stand in a place.
#[derive(Clone, Copy)]
enum Wanted {
    /// Any node.
    Any,
    /// A mapping.
    Mapping,
    /// A mapping or a sequence of mappings.
    Mappings,
}

/// The first node that is to be merged and is no mapping. Memory is taken for its path alone.
pub(crate) fn first_fault(alloc: Global, tree: &Yaml) -> Result<Option<NotAMapping>, AllocError>
    ensures found { IfOk result (λ o. option_map path_of o ≡ fault.first_fault fault.any_node (view tree.now)) }
    ensures refused { OnErr result (fault.first_fault fault.any_node (view tree.now) ≢ None) }
{
    let Some(mut steps) = find(alloc, Wanted::Any, tree)? else {
        return Ok(None);
    };
    steps.reverse();
    Ok(Some(NotAMapping { path: steps }))
}

// The steps to it, the last one first.
#[cycle(find)]
fn find(alloc: Global, wanted: Wanted, node: &Yaml) -> Result<Option<Vec<Step>>, AllocError>
    ensures found { IfOk result (λ o. option_map path_found o ≡ fault.first_fault (wanted_view wanted) (view node.now)) }
    ensures refused { OnErr result (fault.first_fault (wanted_view wanted) (view node.now) ≢ None) }
{
    match (wanted, node) {
        (_, Yaml::Hash(pairs)) => find_in_pairs(alloc, pairs),
        (Wanted::Any, Yaml::Array(items)) => find_in_items(alloc, Wanted::Any, items),
        (Wanted::Mappings, Yaml::Array(items)) => find_in_items(alloc, Wanted::Mapping, items),
        (Wanted::Any, _) => Ok(None),
        _ => Ok(Some(Vec::new(alloc))),
    }
}

#[cycle(find)]
fn find_in_items(
    alloc: Global,
    wanted: Wanted,
    items: &Array,
) -> Result<Option<Vec<Step>>, AllocError>
    ensures found { IfOk result (λ o. option_map path_found o ≡ fault.first_item_fault (wanted_view wanted) 0 (items_of items.now)) }
    ensures refused { OnErr result (fault.first_item_fault (wanted_view wanted) 0 (items_of items.now) ≢ None) }
{
    'items: for (index, item) in items.iter().enumerate() {
        if let Some(mut steps) = find(alloc, wanted, item)? {
            steps.push(Step::Index(index))?;
            return Ok(Some(steps));
        }
    }
    Ok(None)
}

#[cycle(find)]
fn find_in_pairs(alloc: Global, pairs: &Hash) -> Result<Option<Vec<Step>>, AllocError>
    ensures found { IfOk result (λ o. option_map path_found o ≡ fault.first_pair_fault 0 (pairs_of pairs.now)) }
    ensures refused { OnErr result (fault.first_pair_fault 0 (pairs_of pairs.now) ≢ None) }
{
    // Places fit a `usize`, since the number of pairs does.
    let _count = pairs.len();
    'pairs: for (place, (key, value)) in pairs.iter().enumerate() {
        if let Some(mut steps) = find(alloc, wanted_at(key), value)? {
            steps.push(step_to(alloc, place, key)?)?;
            return Ok(Some(steps));
        }
    }
    Ok(None)
}

// What may stand as the value of a key.
fn wanted_at(key: &Yaml) -> Wanted
    ensures { wanted_view result ≡ fault.wanted_at (view key.now) }
{
    if is_merge_key(key) {
        Wanted::Mappings
    } else {
        Wanted::Any
    }
}

fn is_merge_key(key: &Yaml) -> bool
    ensures { result ≡ tree_eq merge_key (view key.now) }
{
    match key {
        Yaml::String(text) => text.as_str() == "<<",
        _ => false,
    }
}

// The step to the value of the pair at a place.
#[tactic(auto, unfolding(defs_text::specs::Text::string_chars))]
fn step_to(alloc: Global, place: usize, key: &Yaml) -> Result<Step, AllocError>
    ensures { IfOk result (λ s. step_view s ≡ fault.step_to place (view key.now)) }
{
    match key {
        Yaml::String(text) => Ok(Step::Key(String::from_str(alloc, text.as_str())?)),
        _ => Ok(Step::Index(place)),
    }
}
