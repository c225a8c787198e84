//! A block of entries.
ghost use Rattle.std.specs.Prelude.{◌≡◌, ◌-◌, ◌<◌, ◌≤◌, ◌∷◌, [], length, map, take, drop, IfOk, OnOk, OnErr};
ghost use Rattle.std.specs.List.{insert, remove};
ghost use Rattle.defs_tree.specs.Digits.{binary_digits};
ghost use Rattle.yaml_tree.specs.Counts.{RisesWithin};
ghost use Rattle.yaml_tree.specs.Edges.{digest_at, place_at, IsEdge};
ghost use Rattle.yaml_tree.specs.Moves.{entry_closed_up, entry_moved_up};

use crate::count::Count;
use crate::entry::Entry;
use crate::moves::{closed_up, moved_up};
use std::alloc::{AllocError, Global};
use std::marker::Model;

/// Entries in a row.
#[derive(Drop)]
pub struct Block {
    entries: Vec<Entry>,
}

impl Model for Block {
    ghost use Rattle.std.specs.Prelude.{List};
    ghost use Rattle.yaml_tree.specs.declared.entry.Entry.{Entry};

    ghost Value = { List Entry };

    ghost view = { λ b. b.entries.items };
}

impl Block {
    /// A block of one entry.
    pub(crate) fn of(alloc: Global, entry: Entry) -> Result<Block, AllocError>
        ensures { IfOk result (λ b. b ≡ entry ∷ []) }
    {
        let mut entries = Vec::with_capacity(alloc, 16)?;
        entries.push(entry)?;
        Ok(Block { entries })
    }

    /// A block of these entries.
    pub(crate) fn with(entries: Vec<Entry>) -> Block
        ensures { result ≡ entries.items }
    {
        Block { entries }
    }

    pub(crate) fn len(&self) -> usize
        ensures { result ≡ length self.now }
    {
        self.entries.len()
    }

    pub(crate) fn digest(&self, offset: usize) -> u64
        requires { offset < length self.now }
        ensures { result ≡ digest_at self.now offset }
    {
        self.entries[offset].digest
    }

    pub(crate) fn place(&self, offset: usize) -> usize
        requires { offset < length self.now }
        ensures { result ≡ place_at self.now offset }
    {
        self.entries[offset].place
    }

    /// Where the digests reach this one. The first does not.
    pub(crate) fn edge(&self, digest: u64, compared: &mut Count) -> usize
        requires some { 0 < length self.now }
        requires first { digest_at self.now 0 < digest }
        ensures edge { IsEdge (digest_at self.now) (length self.now) digest result }
        ensures compared { RisesWithin compared.old (binary_digits (length self.now - 1)) compared.new }
    {
        let entries = self.entries.as_slice();
        let mut low = 1;
        let mut high = entries.len();
        while low < high {
            let middle = low + (high - low) / 2;
            if compared.is_below(entries[middle].digest, digest) {
                low = middle + 1;
            } else {
                high = middle;
            }
        }
        low
    }

    /// Puts an entry before the one at that offset. An `Err` comes only where memory was refused, and then all
    /// is as it was.
    pub(crate) fn insert(&mut self, offset: usize, entry: Entry) -> Result<(), AllocError>
        requires { offset ≤ length self.old }
        ensures ok { OnOk result (self.new ≡ insert self.old offset entry) }
        ensures err { OnErr result (self.new ≡ self.old) }
    {
        self.entries.insert(offset, entry)?;
        Ok(())
    }

    pub(crate) fn remove(&mut self, offset: usize)
        requires { offset < length self.old }
        ensures { self.new ≡ remove self.old offset }
    {
        self.entries.remove(offset);
    }

    /// A copy of the entries from an offset on, with room for so many.
    pub(crate) fn from(
        &self,
        alloc: Global,
        offset: usize,
        room: usize,
    ) -> Result<Block, AllocError>
        requires { offset ≤ length self.now }
        ensures { IfOk result (λ b. b ≡ drop offset self.now) }
    {
        let mut entries = Vec::with_capacity(alloc, room)?;
        entries.extend_from_slice(&self.entries[offset..])?;
        Ok(Block { entries })
    }

    /// Keeps the entries before an offset.
    pub(crate) fn truncate(&mut self, offset: usize)
        ensures { self.new ≡ take offset self.old }
    {
        self.entries.truncate(offset);
    }

    /// Lowers the places after one that is gone.
    pub(crate) fn close_up(&mut self, gone: usize)
        ensures { self.new ≡ map (entry_closed_up gone) self.old }
    {
        for entry in self.entries.iter_mut() {
            *entry = Entry {
                digest: entry.digest,
                place: closed_up(gone, entry.place),
            };
        }
    }

    /// Makes a place the last of so many, and lowers those after it.
    pub(crate) fn move_up(&mut self, gone: usize, count: usize)
        requires { 0 < count }
        ensures { self.new ≡ map (entry_moved_up gone count) self.old }
    {
        for entry in self.entries.iter_mut() {
            *entry = Entry {
                digest: entry.digest,
                place: moved_up(gone, count, entry.place),
            };
        }
    }
}
