//! A number of all results.

use std::hash::{FoldHasher, Hash, Hasher};
use yaml_rust2::Yaml;
use yaml_rust2::scanner::Marker;

/// Results, summed up.
#[derive(Drop)]
pub struct Digest {
    hasher: FoldHasher,
}

impl Digest {
    /// Of no result.
    pub fn new() -> Digest {
        Digest {
            hasher: FoldHasher::default(),
        }
    }

    /// With the trees of a text.
    pub fn add_trees(&mut self, trees: &[Yaml]) {
        self.add_number(trees.len() as u64);
        for tree in trees {
            self.add_tree(tree);
        }
    }

    /// With a tree.
    pub fn add_tree(&mut self, tree: &Yaml) {
        tree.hash(&mut self.hasher);
    }

    /// With a text.
    pub fn add_text(&mut self, text: &str) {
        text.hash(&mut self.hasher);
    }

    /// With a number.
    pub fn add_number(&mut self, number: u64) {
        self.hasher.write_u64(number);
    }

    /// With a position.
    pub fn add_mark(&mut self, mark: Marker) {
        self.add_number(mark.index() as u64);
        self.add_number(mark.line() as u64);
        self.add_number(mark.col() as u64);
    }

    /// The number.
    pub fn value(&self) -> u64 {
        self.hasher.finish()
    }
}
