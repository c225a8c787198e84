//! What a node holds.
ghost use Rattle.std.specs.Prelude.{◌≡◌, option_map, chars};
ghost use Rattle.defs_text.specs.Text.{string_chars};
ghost use Rattle.yaml_tree.specs.Node.{boolean_of, integer_of, text_of, array_of, hash_of, is_null, is_bad_value, is_array, is_hash, or_else};
ghost use Rattle.yaml_tree.specs.View.{view};

use crate::array::Array;
use crate::hash::Hash;
use crate::yaml::Yaml;

impl Yaml {
    ghost use Rattle.std.specs.Borrow.{LendsIf, sem};
    ghost use Rattle.yaml_tree.specs.contracts.array.Array.{the_row as array_row};
    ghost use Rattle.yaml_tree.specs.contracts.hash.Hash.{the_row as hash_row};
    ghost use Rattle.yaml_tree.specs.contracts.yaml.Yaml.{the_row as yaml_row};
    ghost use Rattle.yaml_tree.specs.declared.yaml.Yaml.TheVariants.{Array as in_array, Hash as in_hash};

    /// The truth value of a `Boolean`; `None` for every other node.
    pub fn as_bool(&self) -> Option<bool>
        ensures { result ≡ boolean_of (view self.now) }
    {
        match self {
            Yaml::Boolean(b) => Some(*b),
            _ => None,
        }
    }

    /// The number of an `Integer`; `None` for every other node.
    pub fn as_i64(&self) -> Option<i64>
        ensures { result ≡ integer_of (view self.now) }
    {
        match self {
            Yaml::Integer(n) => Some(*n),
            _ => None,
        }
    }

    /// The text of a `String`; `None` for every other node.
    #[tactic(auto, unfolding(defs_text::specs::Text::string_chars))]
    pub fn as_str(&self) -> Option<&str>
        ensures { option_map (λ s. chars s.now) result ≡ text_of (view self.now) }
    {
        match self {
            Yaml::String(text) => Some(text.as_str()),
            _ => None,
        }
    }

    /// The pairs of a `Hash`; `None` for every other node.
    #[tactic(auto, using(crate::proofs::ItemsLemmas::pair_list_of_pairs))]
    pub fn as_hash(&self) -> Option<&Hash>
        ensures { option_map (λ h. h.now) result ≡ hash_of (view self.now) }
    {
        match self {
            Yaml::Hash(pairs) => Some(pairs),
            _ => None,
        }
    }

    /// The items of an `Array`; `None` for every other node.
    #[tactic(auto, using(crate::proofs::ItemsLemmas::list_of_items))]
    pub fn as_vec(&self) -> Option<&Array>
        ensures { option_map (λ a. a.now) result ≡ array_of (view self.now) }
    {
        match self {
            Yaml::Array(items) => Some(items),
            _ => None,
        }
    }

    /// The pairs of a `Hash`, for writing; `None` for every other node.
    #[tactic(auto, using(crate::proofs::ItemsLemmas::pair_list_of_pairs))]
    pub fn as_mut_hash(&mut self) -> Option<&mut Hash>
        ensures* writes_back { sem 𝓛 (LendsIf yaml_row hash_row self.entry result in_hash self.old) }
        ensures value { option_map (λ h. h.now) result ≡ hash_of (view self.old) }
    {
        if let Yaml::Hash(pairs) = self {
            Some(pairs)
        } else {
            None
        }
    }

    /// The items of an `Array`, for writing; `None` for every other node.
    #[tactic(auto, using(crate::proofs::ItemsLemmas::list_of_items))]
    pub fn as_mut_vec(&mut self) -> Option<&mut Array>
        ensures* writes_back { sem 𝓛 (LendsIf yaml_row array_row self.entry result in_array self.old) }
        ensures value { option_map (λ a. a.now) result ≡ array_of (view self.old) }
    {
        if let Yaml::Array(items) = self {
            Some(items)
        } else {
            None
        }
    }

    /// The truth value of a `Boolean`; `None` for every other node.
    pub fn into_bool(self) -> Option<bool>
        ensures { result ≡ boolean_of (view self) }
    {
        match self {
            Yaml::Boolean(b) => Some(b),
            _ => None,
        }
    }

    /// The number of an `Integer`; `None` for every other node.
    pub fn into_i64(self) -> Option<i64>
        ensures { result ≡ integer_of (view self) }
    {
        match self {
            Yaml::Integer(n) => Some(n),
            _ => None,
        }
    }

    /// The text of a `String`; `None` for every other node.
    pub fn into_string(self) -> Option<String>
        ensures { option_map (λ s. string_chars s) result ≡ text_of (view self) }
    {
        match self {
            Yaml::String(text) => Some(text),
            _ => None,
        }
    }

    /// The pairs of a `Hash`; `None` for every other node.
    #[tactic(auto, using(crate::proofs::ItemsLemmas::pair_list_of_pairs))]
    pub fn into_hash(self) -> Option<Hash>
        ensures { result ≡ hash_of (view self) }
    {
        match self {
            Yaml::Hash(pairs) => Some(pairs),
            _ => None,
        }
    }

    /// The items of an `Array`; `None` for every other node.
    #[tactic(auto, using(crate::proofs::ItemsLemmas::list_of_items))]
    pub fn into_vec(self) -> Option<Array>
        ensures { result ≡ array_of (view self) }
    {
        match self {
            Yaml::Array(items) => Some(items),
            _ => None,
        }
    }

    /// Whether it is `Null`.
    pub fn is_null(&self) -> bool
        ensures { result ≡ is_null (view self.now) }
    {
        matches!(self, Yaml::Null)
    }

    /// Whether it is `BadValue`.
    pub fn is_badvalue(&self) -> bool
        ensures { result ≡ is_bad_value (view self.now) }
    {
        matches!(self, Yaml::BadValue)
    }

    /// Whether it is an `Array`.
    pub fn is_array(&self) -> bool
        ensures { result ≡ is_array (view self.now) }
    {
        matches!(self, Yaml::Array(_))
    }

    /// Whether it is a `Hash`.
    pub fn is_hash(&self) -> bool
        ensures { result ≡ is_hash (view self.now) }
    {
        matches!(self, Yaml::Hash(_))
    }

    /// The other node if this one is `Null` or `BadValue`, else this one.
    pub fn or(self, other: Yaml) -> Yaml
        ensures { view result ≡ or_else (view self) (view other) }
    {
        match self {
            Yaml::Null | Yaml::BadValue => other,
            found => found,
        }
    }

    /// The same as `or`, for references.
    pub fn borrowed_or<'a>(&'a self, other: &'a Yaml) -> &'a Yaml
        ensures { view result.now ≡ or_else (view self.now) (view other.now) }
    {
        if self.is_null() || self.is_badvalue() {
            other
        } else {
            self
        }
    }
}
