//! Places by rank for a short hash, with no memory of their own.
ghost use Rattle.std.specs.Prelude.{◌≡◌, ◌<◌, ◌≤◌, ◌+◌, [], length, map, get_or};
ghost use Rattle.std.specs.List.{insert, remove};
ghost use Rattle.yaml_tree.specs.Moves.{closed_up, moved_up};

use crate::moves::{closed_up, moved_up};
use std::marker::Model;

/// How many places there is room for.
pub(crate) const ROOM: usize = 14;

/// Up to fourteen places below 16, by their rank.
#[derive(Drop)]
pub(crate) struct Few {
    // Four bits each: first their count, then the places from the least rank on. So a hash is moved by whole words.
    packed: u64,
}

impl Model for Few {
    ghost use Rattle.std.specs.Prelude.{ℕ, List};
    ghost use Rattle.yaml_tree.specs.Packed.{unpacked, IsPacked};

    ghost Value = { List ℕ };

    ghost view = { λ f. unpacked f.packed };

    ghost invariant = { λ f. IsPacked f.packed };
}

impl Few {
    pub(crate) fn new() -> Few
        ensures { result ≡ [] }
    {
        Few { packed: 0 }
    }

    pub(crate) fn same(&self) -> Few
        ensures { result ≡ self.now }
    {
        Few {
            packed: self.packed,
        }
    }

    pub(crate) fn len(&self) -> usize
        ensures count { result ≡ length self.now }
        ensures within { result ≤ 14 }
    {
        (self.packed % 16) as usize
    }

    /// The place of a rank.
    pub(crate) fn at(&self, rank: usize) -> usize
        requires { rank < length self.now }
        ensures place { result ≡ get_or self.now rank 0 }
        ensures low { result < 16 }
    {
        ((self.packed >> (4 * rank + 4)) % 16) as usize
    }

    /// Gives a place this rank, before the one that had it.
    pub(crate) fn insert(&mut self, rank: usize, place: usize)
        requires room { length self.old < 14 }
        requires rank { rank ≤ length self.old }
        requires low { place < 16 }
        ensures { self.new ≡ insert self.old rank place }
    {
        let shift = 4 * rank + 4;
        let above = self.packed >> shift;
        let below = self.packed - (above << shift);
        self.packed = below + ((above * 16 + place as u64) << shift) + 1;
    }

    /// The places without that of a rank; the places above it fall by one.
    pub(crate) fn without(&self, rank: usize) -> Few
        requires { rank < length self.now }
        ensures { result ≡ map (closed_up (get_or self.now rank 0)) (remove self.now rank) }
    {
        let gone = self.at(rank);
        let mut rest: u64 = 0;
        let mut left = self.len();
        while 0 < left {
            left -= 1;
            if left != rank {
                rest = rest * 16 + closed_up(gone, self.at(left)) as u64;
            }
        }
        Few {
            packed: rest * 16 + (self.len() - 1) as u64,
        }
    }

    /// The places after the pair at `gone` moved to the end; the places above it fall by one.
    pub(crate) fn moved_to_end(&self, gone: usize) -> Few
        ensures { result ≡ map (moved_up gone (length self.now)) self.now }
    {
        let count = self.len();
        let mut moved: u64 = 0;
        let mut left = count;
        while 0 < left {
            left -= 1;
            moved = moved * 16 + moved_up(gone, count, self.at(left)) as u64;
        }
        Few {
            packed: moved * 16 + count as u64,
        }
    }
}
