//! The value at a key or a place of a node, for writing.
ghost use Rattle.std.specs.Prelude.{◌≡◌, ◌<◌, ◌^◌, Some, IsSome, pos, chars, slice_get, slice_set, true};
ghost use Rattle.defs_tree.specs.Pairs.{lookup, place_of, with_value};
ghost use Rattle.defs_tree.specs.Tree.{integer, string};
ghost use Rattle.yaml_tree.specs.Node.{value_at_text, value_at_index, is_array, is_hash};
ghost use Rattle.yaml_tree.specs.View.{view};

use crate::array::Array;
use crate::hash::Hash;
use crate::search::Probe;
use crate::steps::Steps;
use crate::yaml::Yaml;

impl Yaml {
    ghost use Rattle.std.specs.Borrow.{Lends, sem};
    ghost use Rattle.yaml_tree.specs.contracts.array.Array.{the_row as array_row};
    ghost use Rattle.yaml_tree.specs.contracts.hash.Hash.{the_row as hash_row};
    ghost use Rattle.yaml_tree.specs.contracts.yaml.Yaml.{the_row};
    ghost use Rattle.yaml_tree.specs.declared.yaml.Yaml.TheVariants.{Array as in_array, Hash as in_hash};
    ghost use Rattle.yaml_tree.specs.Writes.{with_text_value, with_index_value};

    /// The value of the key `String` with that text, for writing: what is written replaces the value, and the rest
    /// of the node stays. Condition: `has_key`. A proof learns the node after the write only if it is written by
    /// hand; `as_mut_hash` and `get_mut` say it to every proof.
    pub fn key_mut(&mut self, key: &str) -> &mut Yaml
        requires { IsSome (value_at_text (chars key.now) (view self.old)) }
        ensures* writes_back { sem 𝓛 (Lends the_row the_row self.entry result (with_text_value (chars key.now) self.old)) }
        ensures value { Some (view result.now) ≡ value_at_text (chars key.now) (view self.old) }
    {
        self.pairs_mut().text_mut(key)
    }

    /// In an `Array` the item at that place, in a `Hash` the value of the key `Integer` with that number, for
    /// writing: what is written replaces it, and the rest of the node stays. Condition: `has_index`. A proof learns
    /// the node after the write only if it is written by hand; `as_mut_vec` and `as_mut_hash` say it to every proof.
    pub fn place_mut(&mut self, index: usize) -> &mut Yaml
        requires { IsSome (value_at_index index (view self.old)) }
        ensures* writes_back { sem 𝓛 (Lends the_row the_row self.entry result (with_index_value index self.old)) }
        ensures value { Some (view result.now) ≡ value_at_index index (view self.old) }
    {
        if self.is_hash() {
            self.pairs_mut().number_mut(index)
        } else {
            self.items_mut().item_mut(index)
        }
    }

    fn pairs_mut(&mut self) -> &mut Hash
        requires { is_hash (view self.old) ≡ true }
        ensures* writes_back { sem 𝓛 (Lends the_row hash_row self.entry result in_hash) }
        ensures pairs { self.old ≡ in_hash result.now }
    {
        match self {
            Yaml::Hash(pairs) => pairs,
            _ => unreachable!(),
        }
    }

    fn items_mut(&mut self) -> &mut Array
        requires { is_array (view self.old) ≡ true }
        ensures* writes_back { sem 𝓛 (Lends the_row array_row self.entry result in_array) }
        ensures items { self.old ≡ in_array result.now }
    {
        match self {
            Yaml::Array(items) => items,
            _ => unreachable!(),
        }
    }
}

impl Array {
    ghost use Rattle.std.specs.Borrow.{Lends, sem};
    ghost use Rattle.yaml_tree.specs.contracts.array.Array.{the_row};
    ghost use Rattle.yaml_tree.specs.contracts.yaml.Yaml.{the_row as yaml_row};

    fn item_mut(&mut self, index: usize) -> &mut Yaml
        requires { IsSome (slice_get self.old index) }
        ensures* writes_back { sem 𝓛 (Lends the_row yaml_row self.entry result (λ w. slice_set self.old index (view w))) }
        ensures value { Some (view result.now) ≡ slice_get self.old index }
    {
        &mut self.items[index]
    }
}

impl Hash {
    ghost use Rattle.std.specs.Borrow.{Lends, sem};
    ghost use Rattle.yaml_tree.specs.contracts.hash.Hash.{the_row};
    ghost use Rattle.yaml_tree.specs.contracts.yaml.Yaml.{the_row as yaml_row};

    #[tactic(auto, using(crate::proofs::Placed::place_somewhere))]
    fn text_mut(&mut self, key: &str) -> &mut Yaml
        requires { IsSome (lookup (string (chars key.now)) self.old) }
        ensures* writes_back { sem 𝓛 (Lends the_row yaml_row self.entry result
            (λ w. with_value (string (chars key.now)) (view w) self.old)) }
        ensures value { Some (view result.now) ≡ lookup (string (chars key.now)) self.old }
    {
        let mut steps = Steps::new();
        let Some(i) = self.place_of_probe(Probe::Text(key), &mut steps) else {
            unreachable!()
        };
        self.value_mut_at(i)
    }

    fn number_mut(&mut self, number: usize) -> &mut Yaml
        requires fits { number < 2 ^ 63 }
        requires found { IsSome (lookup (integer (pos number)) self.old) }
        ensures* writes_back { sem 𝓛 (Lends the_row yaml_row self.entry result
            (λ w. with_value (integer (pos number)) (view w) self.old)) }
        ensures value { Some (view result.now) ≡ lookup (integer (pos number)) self.old }
    {
        let Ok(number) = i64::try_from(number) else {
            unreachable!()
        };
        match self.get_mut(&Yaml::Integer(number)) {
            Some(value) => value,
            None => unreachable!(),
        }
    }
}
