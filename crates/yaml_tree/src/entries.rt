//! Hashes by their pairs: iterators.
ghost use Rattle.std.specs.Prelude.{◌≡◌, List};
ghost use Rattle.std.specs.Iterator.{YieldsFirstBy, item_count};
ghost use Rattle.std.specs.Vec.Iter.{into_iter_items};
ghost use Rattle.defs_tree.specs.Pairs.{AreDistinct};
ghost use Rattle.defs_tree.specs.Tree.{Tree};
ghost use Rattle.defs_tree.specs.TreeCode.{pairs_code};
ghost use Rattle.yaml_tree.specs.View.{view, pair_view, pairs_view};

use crate::hash::Hash;
use crate::yaml::Yaml;
use std::marker::Model;
use std::vec;

/// The pairs of a hash, in their order.
///
/// # Example
///
/// ```
/// let mut settings = Hash::new(alloc);
/// settings
///     .insert(Yaml::from_str(alloc, "b")?, Yaml::Integer(1))
///     .map_err(|_| AllocError)?;
/// settings
///     .insert(Yaml::from_str(alloc, "a")?, Yaml::Integer(2))
///     .map_err(|_| AllocError)?;
/// let mut names = String::new(alloc);
/// for (key, _) in settings.iter() {
///     names.push_str(key.as_str().unwrap_or("?"))?;
/// }
/// assert_eq!(rt; names.as_str(), "ba");
/// for (_, value) in settings {
///     assert!(rt; value.into_i64().is_some());
/// }
/// ```
#[derive(Drop)]
pub struct Iter<'a> {
    rest: &'a [Yaml],
}

impl<'a> Model for Iter<'a> {
    ghost Value = { List (Tree × Tree) };

    ghost coded = { pairs_code };

    ghost view = { λ i. pairs_view i.rest.now };
}

impl<'a> Iterator for Iter<'a> {
    type Item = (&'a Yaml, &'a Yaml);

    ghost next_gives = { YieldsFirstBy (λ p. (view p.0.now, view p.1.now)) (λ i. i) };

    ghost remaining = { item_count (λ i. i) };

    fn next(&mut self) -> Option<(&'a Yaml, &'a Yaml)> {
        let (key, rest) = self.rest.split_first()?;
        let (value, rest) = rest.split_first()?;
        self.rest = rest;
        Some((key, value))
    }
}

impl Hash {
    /// The keys and values of the pairs, in turn.
    pub fn row(&self) -> &[Yaml]
        ensures pairs { pairs_view result.now ≡ self.now }
        ensures distinct { AreDistinct self.now }
    {
        self.row.as_slice()
    }

    /// The pairs, in their order.
    pub fn iter(&self) -> Iter<'_>
        ensures pairs { result ≡ self.now }
        ensures distinct { AreDistinct self.now }
    {
        Iter { rest: self.row() }
    }
}

impl<'a> IntoIterator for &'a Hash {
    type Item = (&'a Yaml, &'a Yaml);

    type IntoIter = Iter<'a>;

    ghost into_iter_gives = { λ h r. r ≡ h.now };

    fn into_iter(self) -> Iter<'a> {
        self.iter()
    }
}

/// The pairs of a hash, by value, in their order.
#[derive(Drop)]
pub struct IntoIter {
    rest: vec::IntoIter<Yaml>,
}

impl Model for IntoIter {
    ghost Value = { List (Tree × Tree) };

    ghost coded = { pairs_code };

    ghost view = { λ i. pairs_view (into_iter_items i.rest) };
}

impl Iterator for IntoIter {
    type Item = (Yaml, Yaml);

    ghost next_gives = { YieldsFirstBy pair_view (λ i. i) };

    ghost remaining = { item_count (λ i. i) };

    fn next(&mut self) -> Option<(Yaml, Yaml)> {
        let key = self.rest.next()?;
        let value = self.rest.next()?;
        Some((key, value))
    }
}

impl IntoIterator for Hash {
    type Item = (Yaml, Yaml);

    type IntoIter = IntoIter;

    ghost into_iter_gives = { λ h r. r ≡ h };

    fn into_iter(self) -> IntoIter {
        IntoIter {
            rest: self.into_row().into_iter(),
        }
    }
}
