//! An array: a list of nodes.
ghost use Rattle.std.specs.Prelude.{◌≡◌, ◌↔◌, ◌++◌, ◌∷◌, [], length, slice_get, option_map, IsTrue, IfErr, OnOk, OnErr};
ghost use Rattle.yaml_tree.specs.View.{view, items_view};

use crate::discard::discard_row;
use crate::yaml::Yaml;
use std::alloc::{AllocFailed, Global};
use std::marker::Model;
use std::ops::{Deref, DerefMut};

/// A list of nodes. It derefs to its `Vec<Yaml>`.
///
/// # Example
///
/// ```
/// let mut ports = Array::new(alloc);
/// ports.push(Yaml::Integer(80)).map_err(|_| AllocError)?;
/// ports.push(Yaml::Integer(443)).map_err(|_| AllocError)?;
/// assert_eq!(rt; ports.len(), 2);
/// assert_eq!(rt; ports.get(0), Some(&Yaml::Integer(80)));
/// let nodes: Vec<Yaml> = ports.into_vec();
/// assert_eq!(rt; nodes.len(), 2);
/// let ports = Yaml::Array(Array::from_vec(nodes));
/// for port in ports {
///     assert!(rt; port.as_i64().is_some());
/// }
/// ```
#[cycle(yaml)]
pub struct Array {
    pub(crate) items: Vec<Yaml>,
}

impl Model for Array {
    ghost use Rattle.std.specs.Prelude.{List};
    ghost use Rattle.defs_tree.specs.Tree.{Tree, items_of};
    ghost use Rattle.defs_tree.specs.TreeCode.{items_code};
    ghost use Rattle.yaml_tree.specs.Depth.{items_depth};

    ghost Value = { List Tree };

    ghost coded = { items_code };

    ghost use Rattle.yaml_tree.specs.View.{items_view};

    ghost view = { λ a. items_view a.items.items };

    ghost size = { λ ts. items_depth (items_of ts) };

    ghost use Rattle.std.proofs.Common.{arith};
    ghost use Rattle.yaml_tree.specs.Falls.{most-items};

    ghost size_decreases = { λ a h. omega (arith, most-items a.items.items) };
}

// This is a loop, so that a deep tree takes no more stack than a flat one.
impl Drop for Array {
    fn drop(self) {
        let Array { items } = self;
        discard_row(items);
    }
}

impl Array {
    /// The empty array. It takes no memory.
    pub fn new(alloc: Global) -> Array
        ensures { result ≡ [] }
    {
        Array {
            items: Vec::new(alloc),
        }
    }

    /// The array of these nodes.
    pub fn from_vec(items: Vec<Yaml>) -> Array
        ensures { result ≡ items_view items.items }
    {
        Array { items }
    }

    /// The nodes of the array.
    pub fn into_vec(self) -> Vec<Yaml>
        ensures { items_view result.items ≡ self }
    {
        let Array { items } = self;
        items
    }

    /// How many items there are.
    #[tactic(auto, using(crate::proofs::ItemsLemmas::length_items_view))]
    pub fn len(&self) -> usize
        ensures { result ≡ length self.now }
    {
        self.items.len()
    }

    /// Whether there is no item.
    pub fn is_empty(&self) -> bool
        ensures { IsTrue result ↔ (self.now ≡ []) }
    {
        self.items.is_empty()
    }

    /// The item at a place, counted from 0, or `None` if the array ends before it.
    #[tactic(auto, using(crate::proofs::ItemsLemmas::get_items_view))]
    pub fn get(&self, place: usize) -> Option<&Yaml>
        ensures { option_map (λ y. view y.now) result ≡ slice_get self.now place }
    {
        self.items.get(place)
    }

    /// Adds an item at the end. An `Err` comes only if memory was refused; then the array is as it was, and the item
    /// is handed back.
    #[inline(always)]
    #[tactic(auto, using(crate::proofs::ItemsLemmas::items_view_push))]
    pub fn push(&mut self, item: Yaml) -> Result<(), AllocFailed<Yaml>>
        ensures ok { OnOk result (self.new ≡ self.old ++ view item ∷ []) }
        ensures err { OnErr result (self.new ≡ self.old) }
        ensures handed_back { IfErr result (λ e. e.value ≡ item) }
    {
        if self.items.reserve(1).is_err() {
            return Err(AllocFailed { value: item });
        }
        self.items.push_reserved(item);
        Ok(())
    }
}

// An array derefs to its `Vec`.
impl Deref for Array {
    ghost use Rattle.std.specs.Prelude.{◌≡◌};
    ghost use Rattle.yaml_tree.specs.View.{items_view};

    type Target = Vec<Yaml>;

    ghost deref_gives = { λ a v. items_view v.items ≡ a };

    fn deref(&self) -> &Vec<Yaml> {
        &self.items
    }
}

impl DerefMut for Array {
    ghost use Rattle.std.specs.Prelude.{◌≡◌};
    ghost use Rattle.std.specs.Borrow.{Lends, sem};
    ghost use Rattle.yaml_tree.specs.contracts.array.Array.{the_row};
    ghost use Rattle.yaml_tree.specs.Rows.{list_row};
    ghost use Rattle.yaml_tree.specs.View.{items_view};

    ghost deref_mut_gives = { λ a v. items_view v.items ≡ a };

    fn deref_mut(&mut self) -> &mut Vec<Yaml>
        ensures* writes_back { sem 𝓛 (Lends the_row list_row self.entry result (λ w. items_view w.items)) }
        ensures shows { items_view result.now.items ≡ self.old }
    {
        &mut self.items
    }
}
