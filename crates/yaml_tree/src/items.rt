//! Nodes by their items: iterators.
ghost use Rattle.std.specs.Prelude.{◌≡◌, List};
ghost use Rattle.std.specs.Iterator.{YieldsFirstBy, item_count};
ghost use Rattle.defs_tree.specs.Tree.{Tree};
ghost use Rattle.defs_tree.specs.TreeCode.{items_code};
ghost use Rattle.yaml_tree.specs.Items.{items_in, items_left};
ghost use Rattle.yaml_tree.specs.View.{view, items_view};

use crate::array::Array;
use crate::yaml::Yaml;
use std::marker::Model;
use std::vec;

/// The items of an array, by value, in their order. Every other node has none.
#[derive(Drop)]
pub struct YamlIter {
    items: Option<vec::IntoIter<Yaml>>,
}

impl Model for YamlIter {
    ghost Value = { List Tree };

    ghost coded = { items_code };

    ghost view = { λ i. items_left i.items };
}

impl Iterator for YamlIter {
    type Item = Yaml;

    ghost next_gives = { YieldsFirstBy view (λ i. i) };

    ghost remaining = { item_count (λ i. i) };

    fn next(&mut self) -> Option<Yaml> {
        match &mut self.items {
            Some(items) => items.next(),
            None => None,
        }
    }
}

impl IntoIterator for Array {
    type Item = Yaml;

    type IntoIter = YamlIter;

    ghost into_iter_gives = { λ a r. r ≡ a };

    fn into_iter(self) -> YamlIter {
        YamlIter {
            items: Some(self.into_vec().into_iter()),
        }
    }
}

impl IntoIterator for Yaml {
    type Item = Yaml;

    type IntoIter = YamlIter;

    ghost into_iter_gives = { λ y r. r ≡ items_in y };

    fn into_iter(self) -> YamlIter {
        match self {
            Yaml::Array(items) => items.into_iter(),
            _ => YamlIter { items: None },
        }
    }
}

/// The items of an array, in their order.
#[derive(Drop)]
pub struct Iter<'a> {
    rest: &'a [Yaml],
}

impl<'a> Model for Iter<'a> {
    ghost Value = { List Tree };

    ghost coded = { items_code };

    ghost view = { λ i. items_view i.rest.now };
}

impl<'a> Iterator for Iter<'a> {
    type Item = &'a Yaml;

    ghost next_gives = { YieldsFirstBy (λ y. view y.now) (λ i. i) };

    ghost remaining = { item_count (λ i. i) };

    fn next(&mut self) -> Option<&'a Yaml> {
        let (item, rest) = self.rest.split_first()?;
        self.rest = rest;
        Some(item)
    }
}

impl<'a> IntoIterator for &'a Array {
    type Item = &'a Yaml;

    type IntoIter = Iter<'a>;

    ghost into_iter_gives = { λ a r. r ≡ a.now };

    fn into_iter(self) -> Iter<'a> {
        Iter {
            rest: self.items.as_slice(),
        }
    }
}
