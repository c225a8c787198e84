//! The value at a key or a place of a node.
ghost use Rattle.std.specs.Prelude.{◌≡◌, ◌↔◌, Some, IsTrue, IsSome, option_map, chars};
ghost use Rattle.defs_tree.specs.Order.{tree_eq};
ghost use Rattle.defs_tree.specs.Pairs.{lookup, place_of, with_value};
ghost use Rattle.defs_tree.specs.Tree.{string};
ghost use Rattle.yaml_tree.specs.Node.{value_at_text, value_at_index};
ghost use Rattle.yaml_tree.specs.View.{view};

use crate::search::Probe;
use crate::yaml::Yaml;

impl Yaml {
    /// In a `Hash` the value of the key `String` with that text; else `None`. It takes no memory.
    #[tactic(auto, using(crate::proofs::ItemsLemmas::pair_list_of_pairs))]
    pub fn get_key(&self, key: &str) -> Option<&Yaml>
        ensures { option_map (λ y. view y.now) result ≡ value_at_text (chars key.now) (view self.now) }
    {
        match self {
            Yaml::Hash(pairs) => pairs.value_of_probe(Probe::Text(key)),
            _ => None,
        }
    }

    /// In an `Array` the item at that place, counted from 0. In a `Hash` the value of the key `Integer` with that
    /// number, if it is at most `i64::MAX`. Else `None`. It takes no memory.
    #[tactic(auto, using(crate::proofs::ItemsLemmas::list_of_items, crate::proofs::ItemsLemmas::pair_list_of_pairs))]
    pub fn get_index(&self, index: usize) -> Option<&Yaml>
        ensures { option_map (λ y. view y.now) result ≡ value_at_index index (view self.now) }
    {
        match self {
            Yaml::Array(items) => items.get(index),
            Yaml::Hash(pairs) => {
                let Ok(number) = i64::try_from(index) else {
                    return None;
                };
                pairs.get(&Yaml::Integer(number))
            }
            _ => None,
        }
    }

    /// Whether `get_key` gives a value.
    pub fn has_key(&self, key: &str) -> bool
        ensures { IsTrue result ↔ IsSome (value_at_text (chars key.now) (view self.now)) }
    {
        self.get_key(key).is_some()
    }

    /// Whether `get_index` gives a value.
    pub fn has_index(&self, index: usize) -> bool
        ensures { IsTrue result ↔ IsSome (value_at_index index (view self.now)) }
    {
        self.get_index(index).is_some()
    }
}
