//! A hash: pairs of a key and a value, in the order of insertion.
ghost use Rattle.std.specs.Prelude.{◌≡◌, ◌+◌, ◌*◌, ◌<◌, ◌↔◌, [], Some, None, length, option_map, IsTrue, IsSome, IfOk, IfErr, OnOk, OnErr};
ghost use Rattle.defs_tree.specs.Digits.{binary_digits};
ghost use Rattle.defs_tree.specs.Tree.{string};
ghost use Rattle.defs_tree.specs.Pairs.{insert, last_of, lookup, without, has_key, place_of, value_at, with_value_at, with_value, AreDistinct};
ghost use Rattle.yaml_tree.specs.Counts.{RisesWithin};
ghost use Rattle.yaml_tree.specs.Probes.{probed};
ghost use Rattle.yaml_tree.specs.View.{view, items_view};
ghost use Rattle.yaml_tree.specs.Flat.{flat};

use crate::discard::{discard_pair, discard_row};
use crate::ranks::Ranks;
use crate::row::{exchange, replace, seat, take};
use crate::search::{Probe, search};
use crate::steps::Steps;
use crate::yaml::Yaml;
use std::alloc::{AllocError, Global};
use std::marker::Model;

/// Pairs of a key and a value, in the order of insertion. No two keys are equal.
///
/// # Example
///
/// ```
/// let host = Yaml::from_str(alloc, "host")?;
/// let port = Yaml::from_str(alloc, "port")?;
/// let mut settings = Hash::new(alloc);
/// settings
///     .insert(port.clone(alloc)?, Yaml::Integer(80))
///     .map_err(|_| AllocError)?;
/// settings
///     .insert(host.clone(alloc)?, Yaml::Null)
///     .map_err(|_| AllocError)?;
/// assert_eq!(rt; settings.get(&port), Some(&Yaml::Integer(80)));
/// assert_eq!(rt; settings.place(&host, &mut Steps::new()), Some(1));
/// if let Some(value) = settings.get_mut(&port) {
///     *value = Yaml::Integer(8080); // in its place: `port` stays the first pair
/// }
/// assert_eq!(rt; settings.back(), Some((&host, &Yaml::Null)));
/// let old = settings
///     .insert(port.clone(alloc)?, Yaml::Integer(81))
///     .map_err(|_| AllocError)?;
/// assert_eq!(rt; old, Some(Yaml::Integer(8080)));
/// assert_eq!(rt; settings.back(), Some((&port, &Yaml::Integer(81)))); // `insert` puts the pair last
/// assert_eq!(rt; settings.remove(&host), Some(Yaml::Null));
/// assert!(rt; settings.len() == 1 && !settings.is_empty());
/// assert!(rt; settings.clone(alloc)? == settings);
/// ```
#[cycle(yaml)]
pub struct Hash {
    // The key and the value of each pair.
    pub(crate) row: Vec<Yaml>,
    // The places of the pairs, in the order of their keys.
    pub(crate) ranks: Ranks,
}

impl Model for Hash {
    ghost use Rattle.std.specs.Prelude.{List};
    ghost use Rattle.defs_tree.specs.Tree.{Tree, pairs_of};
    ghost use Rattle.defs_tree.specs.TreeCode.{pairs_code};
    ghost use Rattle.yaml_tree.specs.Depth.{pairs_depth};
    ghost use Rattle.yaml_tree.specs.Places.{IsIndexed};

    ghost Value = { List (Tree × Tree) };

    ghost coded = { pairs_code };

    ghost use Rattle.yaml_tree.specs.View.{items_view, pairs_view};

    ghost view = { λ h. pairs_view h.row.items };

    ghost invariant = { λ h. IsIndexed (items_view h.row.items) h.ranks.kept };

    ghost size = { λ ps. pairs_depth (pairs_of ps) };

    ghost use Rattle.std.proofs.Common.{arith};
    ghost use Rattle.yaml_tree.specs.Falls.{most-pairs};

    ghost size_decreases = { λ h i. omega (arith, most-pairs h.row.items i.hash.even) };
}

// This is a loop, so that a deep tree takes no more stack than a flat one.
impl Drop for Hash {
    fn drop(self) {
        let Hash { row, ranks } = self;
        drop(ranks);
        discard_row(row);
    }
}

impl Hash {
    ghost use Rattle.std.specs.Borrow.{Lends, LendsIf, sem};
    ghost use Rattle.yaml_tree.specs.contracts.hash.Hash.{the_row};
    ghost use Rattle.yaml_tree.specs.contracts.yaml.Yaml.{the_row as yaml_row};

    /// The empty hash. It takes no memory.
    pub fn new(alloc: Global) -> Hash
        ensures { result ≡ [] }
    {
        Hash {
            row: Vec::new(alloc),
            ranks: Ranks::new(),
        }
    }

    /// How many pairs there are.
    pub fn len(&self) -> usize
        ensures { result ≡ length self.now }
    {
        self.row.len() / 2
    }

    /// Whether there is no pair.
    pub fn is_empty(&self) -> bool
        ensures { IsTrue result ↔ (self.now ≡ []) }
    {
        self.row.is_empty()
    }

    /// The place of the key's pair, counted from 0, or `None` if no pair has the key. `steps` counts the comparisons:
    /// of keys, at most as many as the number of pairs has binary digits; of digests, numbers that are kept beside the
    /// places and rule out most pairs, at most four times as many and one. It takes no memory.
    pub fn place(&self, key: &Yaml, steps: &mut Steps) -> Option<usize>
        ensures place { result ≡ place_of (view key.now) self.now }
        ensures keys { RisesWithin steps.old.keys (binary_digits (length self.now)) steps.new.keys }
        ensures digests { RisesWithin steps.old.digests (4 * binary_digits (length self.now) + 1) steps.new.digests }
    {
        self.place_of_probe(Probe::Node(key), steps)
    }

    pub(crate) fn place_of_probe(&self, probe: Probe<'_>, steps: &mut Steps) -> Option<usize>
        ensures place { result ≡ place_of (probed probe.entry) self.now }
        ensures keys { RisesWithin steps.old.keys (binary_digits (length self.now)) steps.new.keys }
        ensures digests { RisesWithin steps.old.digests (4 * binary_digits (length self.now) + 1) steps.new.digests }
        ensures distinct { AreDistinct self.now }
    {
        match search(self.row.as_slice(), &self.ranks, probe, steps) {
            Ok(spot) => Some(self.ranks.at(spot)),
            Err(_) => None,
        }
    }

    pub(crate) fn value_of_probe(&self, probe: Probe<'_>) -> Option<&Yaml>
        ensures value { option_map (λ v. view v.now) result ≡ lookup (probed probe.entry) self.now }
        ensures distinct { AreDistinct self.now }
    {
        let mut steps = Steps::new();
        let i = self.place_of_probe(probe, &mut steps)?;
        let row = &self.row;
        Some(&row[2 * i + 1])
    }

    /// The value of the key, or `None` if no pair has it. It takes no memory.
    pub fn get(&self, key: &Yaml) -> Option<&Yaml>
        ensures value { option_map (λ v. view v.now) result ≡ lookup (view key.now) self.now }
        ensures distinct { AreDistinct self.now }
    {
        self.value_of_probe(Probe::Node(key))
    }

    pub(crate) fn value_mut_at(&mut self, i: usize) -> &mut Yaml
        requires { i < length self.old }
        ensures* writes_back { sem 𝓛 (Lends the_row yaml_row self.entry result (λ w. with_value_at i (view w) self.old)) }
        ensures value { Some (view result.now) ≡ value_at i self.old }
    {
        &mut self.row[2 * i + 1]
    }

    /// The value of the key, for writing, or `None` if no pair has it. What is written replaces the value; the key
    /// and the order stay. It takes no memory.
    pub fn get_mut(&mut self, key: &Yaml) -> Option<&mut Yaml>
        ensures* writes_back { sem 𝓛 (LendsIf the_row yaml_row self.entry result
            (λ w. with_value (view key.now) (view w) self.old) self.old) }
        ensures value { option_map (λ v. view v.now) result ≡ lookup (view key.now) self.old }
    {
        let mut steps = Steps::new();
        match self.place(key, &mut steps) {
            Some(i) => Some(self.value_mut_at(i)),
            None => None,
        }
    }

    /// The last pair, or `None` if there is none.
    pub fn back(&self) -> Option<(&Yaml, &Yaml)>
        ensures { option_map (λ p. (view p.0.now, view p.1.now)) result ≡ last_of self.now }
    {
        let last = self.len().checked_sub(1)?;
        let row = &self.row;
        Some((&row[2 * last], &row[2 * last + 1]))
    }

    /// Removes the key's old pair, if there is one, and puts the new pair at the end. The result is the key's old
    /// value. An `Err` comes only if memory was refused; then the hash is as it was, and the pair is handed back. If
    /// the key is there already, it takes no memory and cannot fail.
    #[inline(always)]
    pub fn insert(&mut self, key: Yaml, value: Yaml) -> Result<Option<Yaml>, (Yaml, Yaml)>
        ensures pairs { OnOk result (self.new ≡ insert (view key) (view value) self.old) }
        ensures old { IfOk result (λ v. option_map view v ≡ lookup (view key) self.old) }
        ensures handed_back { IfErr result (λ p. p ≡ (key, value)) }
        ensures unchanged { OnErr result (self.new ≡ self.old) }
        ensures only_at_growth { OnErr result (lookup (view key) self.old ≡ None) }
    {
        match seat(&mut self.row, &mut self.ranks, &key) {
            Ok(None) => {
                self.row.push_reserved(key);
                self.row.push_reserved(value);
                Ok(None)
            }
            Ok(Some(place)) => Ok(Some(exchange(&mut self.row, place, key, value))),
            Err(_) => Err((key, value)),
        }
    }

    /// The same as `insert`, but for what it returns: whether the key was there. The key's old value is dropped, and so
    /// is the pair if memory was refused.
    #[inline(always)]
    pub fn put(&mut self, key: Yaml, value: Yaml) -> Result<bool, AllocError>
        ensures pairs { OnOk result (self.new ≡ insert (view key) (view value) self.old) }
        ensures there { IfOk result (λ there. there ≡ has_key (view key) self.old) }
        ensures unchanged { OnErr result (self.new ≡ self.old) }
        ensures only_at_growth { OnErr result (lookup (view key) self.old ≡ None) }
    {
        match seat(&mut self.row, &mut self.ranks, &key) {
            Ok(None) => {
                self.row.push_reserved(key);
                self.row.push_reserved(value);
                Ok(false)
            }
            Ok(Some(place)) => {
                replace(&mut self.row, place, key, value);
                Ok(true)
            }
            Err(refused) => {
                discard_pair(key, value);
                Err(refused)
            }
        }
    }

    /// Removes the key's pair, and returns its value, or `None` if no pair has the key. The other pairs keep their
    /// order. It takes no memory.
    pub fn remove(&mut self, key: &Yaml) -> Option<Yaml>
        ensures pairs { self.new ≡ without (view key.now) self.old }
        ensures value { option_map view result ≡ lookup (view key.now) self.old }
    {
        let mut steps = Steps::new();
        let Ok(spot) = search(
            self.row.as_slice(),
            &self.ranks,
            Probe::Node(key),
            &mut steps,
        ) else {
            return None;
        };
        let place = self.ranks.at(spot);
        self.ranks.remove(spot);
        Some(take(&mut self.row, place))
    }
}

impl Hash {
    /// The allocator that the pairs' memory is from.
    pub fn allocator(&self) -> Global {
        *self.row.allocator()
    }

    pub(crate) fn into_row(self) -> Vec<Yaml>
        ensures { items_view result.items ≡ flat self }
    {
        let Hash { row, ranks } = self;
        drop(ranks);
        row
    }
}
