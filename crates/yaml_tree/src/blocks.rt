//! Places in an order of their own, in blocks, so that one more moves few of the others.
ghost use Rattle.std.specs.Prelude.{◌≡◌, ◌<◌, ◌≤◌, ◌+◌, ◌-◌, ◌*◌, ◌^◌, ◌∷◌, [], length, map, take, drop, get_or, set, IsTrue, IsFalse, IfOk, IfSome, OnOk, OnErr};
ghost use Rattle.std.specs.List.{insert, remove};
ghost use Rattle.defs_tree.specs.Digits.{binary_digits};
ghost use Rattle.yaml_tree.specs.Blocks.{joined, start, rank_of, head_at, halved, IsSpot, IsTaken, AreFilled, IsNarrowed};
ghost use Rattle.yaml_tree.specs.Counts.{RisesWithin};
ghost use Rattle.yaml_tree.specs.Edges.{digest_at, place_at, IsEdge, AreRising};
ghost use Rattle.yaml_tree.specs.Moves.{entry_closed_up, entry_moved_up};

use crate::block::Block;
use crate::count::Count;
use crate::entry::{Entry, Spot};
use crate::starts::{STRIDE, add_blocks, group_of, grow, lower, raise, subtract_blocks};
use std::alloc::{AllocError, Global};
use std::marker::Model;

// How many entries a block has at most.
const ROOM: usize = 256;

/// Entries in the order of their digests, in blocks.
#[derive(Drop)]
pub struct Blocks {
    blocks: Vec<Block>,
    // How many entries stand before every sixteenth block.
    starts: Vec<usize>,
}

impl Model for Blocks {
    ghost use Rattle.std.specs.Prelude.{List};
    ghost use Rattle.yaml_tree.specs.declared.entry.Entry.{Entry};
    ghost use Rattle.yaml_tree.specs.Starts.{AreCounted};

    ghost Value = { List (List Entry) };

    ghost view = { λ b. b.blocks.items };

    ghost invariant = { λ b. AreCounted b.blocks.items b.starts.items };
}

// Where the first digests of the blocks reach this one.
fn edge_of_heads(blocks: &[Block], digest: u64, compared: &mut Count) -> usize
    requires { AreFilled blocks.now }
    ensures edge { IsEdge (head_at blocks.now) (length blocks.now) digest result }
    ensures compared { RisesWithin compared.old (binary_digits (length blocks.now)) compared.new }
{
    let mut low = 0;
    let mut high = blocks.len();
    while low < high {
        let middle = low + (high - low) / 2;
        if compared.is_below(blocks[middle].digest(0), digest) {
            low = middle + 1;
        } else {
            high = middle;
        }
    }
    low
}

impl Blocks {
    /// No entries.
    pub fn new(alloc: Global) -> Result<Blocks, AllocError>
        ensures { IfOk result (λ b. b ≡ []) }
    {
        let mut starts = Vec::with_capacity(alloc, 2)?;
        starts.push(0)?;
        Ok(Blocks {
            blocks: Vec::new(alloc),
            starts,
        })
    }

    /// One block of these entries.
    pub fn of(alloc: Global, entries: Vec<Entry>) -> Result<Blocks, AllocError>
        requires { 0 < length entries.items }
        ensures { IfOk result (λ b. joined b ≡ entries.items) }
    {
        let mut starts = Vec::with_capacity(alloc, 2)?;
        starts.push(0)?;
        starts.push(entries.len())?;
        let mut blocks = Vec::new(alloc);
        blocks.push(Block::with(entries))?;
        Ok(Blocks { blocks, starts })
    }

    /// The place at a spot.
    pub fn place(&self, spot: Spot) -> usize
        requires { IsTaken self.now spot }
        ensures { result ≡ place_at (joined self.now) (rank_of self.now spot) }
    {
        self.blocks[spot.block].place(spot.offset)
    }

    // The first spot whose digest is at least this one.
    fn edge(&self, digest: u64, compared: &mut Count) -> Spot
        ensures spot { IsSpot self.now result }
        ensures edge { IsEdge (digest_at (joined self.now)) (length (joined self.now)) digest (rank_of self.now result) }
        ensures compared { RisesWithin compared.old (2 * binary_digits (length (joined self.now)) - 1) compared.new }
    {
        let before = edge_of_heads(self.blocks.as_slice(), digest, compared);
        match before.checked_sub(1) {
            Some(block) => Spot {
                block,
                offset: self.blocks[block].edge(digest, compared),
            },
            None => Spot {
                block: 0,
                offset: 0,
            },
        }
    }

    // Whether the next entry from the spot on, if there is one, has a higher digest.
    fn is_past(&self, spot: Spot, digest: u64, compared: &mut Count) -> bool
        requires { IsSpot self.now spot }
        ensures past { IsTrue result → rank_of self.now spot < length (joined self.now) → digest < digest_at (joined self.now) (rank_of self.now spot) }
        ensures not_past { IsFalse result → digest_at (joined self.now) (rank_of self.now spot) ≤ digest }
        ensures compared { RisesWithin compared.old 1 compared.new }
    {
        if self.blocks.len() <= spot.block {
            return true;
        }
        let block = &self.blocks[spot.block];
        if spot.offset < block.len() {
            return compared.is_below(digest, block.digest(spot.offset));
        }
        if self.blocks.len() <= spot.block + 1 {
            return true;
        }
        compared.is_below(digest, self.blocks[spot.block + 1].digest(0))
    }

    // Whether an entry stands at the spot, and the next one, if there is one, has a higher digest. It is `false` also at
    // the end of a block.
    fn is_last(&self, spot: Spot, digest: u64, compared: &mut Count) -> bool
        requires { IsSpot self.now spot }
        ensures taken { IsTrue result → rank_of self.now spot < length (joined self.now) }
        ensures past { IsTrue result → rank_of self.now spot + 1 < length (joined self.now) → digest < digest_at (joined self.now) (rank_of self.now spot + 1) }
        ensures compared { RisesWithin compared.old 1 compared.new }
    {
        if self.blocks.len() <= spot.block {
            return false;
        }
        if self.blocks[spot.block].len() <= spot.offset {
            return false;
        }
        let next = Spot {
            block: spot.block,
            offset: spot.offset + 1,
        };
        self.is_past(next, digest, compared)
    }

    // The end of all entries, if there are some and the last digest is below this one.
    fn end_below(&self, digest: u64, compared: &mut Count) -> Option<Spot>
        ensures spot { IfSome result (λ s. IsSpot self.now s) }
        ensures end { IfSome result (λ s. rank_of self.now s ≡ length (joined self.now)) }
        ensures below { IfSome result (λ s. IsEdge (digest_at (joined self.now)) (length (joined self.now)) digest (rank_of self.now s)) }
        ensures compared { RisesWithin compared.old 1 compared.new }
    {
        let block = self.blocks.len().checked_sub(1)?;
        let last = &self.blocks[block];
        let offset = last.len();
        if compared.is_below(last.digest(offset - 1), digest) {
            Some(Spot { block, offset })
        } else {
            None
        }
    }

    // How many entries stand between two spots.
    fn between(&self, low: Spot, high: Spot) -> usize
        requires low { IsSpot self.now low }
        requires high { IsSpot self.now high }
        requires ordered { rank_of self.now low ≤ rank_of self.now high }
        requires fits { length (joined self.now) < 2 ^ 63 }
        ensures { rank_of self.now low + result ≡ rank_of self.now high }
    {
        if low.block == high.block {
            return high.offset - low.offset;
        }
        let before = self.start(low.block) + low.offset;
        self.start(high.block) + high.offset - before
    }

    // How many entries stand before a block.
    fn start(&self, block: usize) -> usize
        requires within { block ≤ length self.now }
        requires fits { length (joined self.now) < 2 ^ 63 }
        ensures { result ≡ start self.now block }
    {
        let group = block / STRIDE;
        let mut count = self.starts[group];
        for i in group * STRIDE..block {
            count += self.blocks[i].len();
        }
        count
    }

    /// The first spot whose digest is at least this one, and how many entries from there on have this digest. Digests
    /// are compared only by `Count::is_below`.
    pub fn narrowed(&self, digest: u64, compared: &mut Count) -> (Spot, usize)
        requires rising { AreRising (joined self.now) }
        requires fits { length (joined self.now) < 2 ^ 63 }
        requires next { digest + 1 < 2 ^ 64 }
        ensures spot { IsSpot self.now result.0 }
        ensures narrowed { IsNarrowed (joined self.now) digest (rank_of self.now result.0) result.1 }
        ensures compared { RisesWithin compared.old (4 * binary_digits (length (joined self.now)) + 1) compared.new }
    {
        if self.blocks.is_empty() {
            let only = Spot {
                block: 0,
                offset: 0,
            };
            return (only, 0);
        }
        if let Some(end) = self.end_below(digest, compared) {
            return (end, 0);
        }
        let low = self.edge(digest, compared);
        if self.is_past(low, digest, compared) {
            return (low, 0);
        }
        if self.is_last(low, digest, compared) {
            return (low, 1);
        }
        let high = self.edge(digest + 1, compared);
        (low, self.between(low, high))
    }

    /// The spot so many entries on.
    pub fn advanced(&self, spot: Spot, by: usize) -> Spot
        requires spot { IsSpot self.now spot }
        requires within { rank_of self.now spot + by < length (joined self.now) }
        requires fits { length (joined self.now) < 2 ^ 63 }
        ensures taken { IsTaken self.now result }
        ensures rank { rank_of self.now result ≡ rank_of self.now spot + by }
    {
        let offset = spot.offset + by;
        if offset < self.blocks[spot.block].len() {
            return Spot {
                block: spot.block,
                offset,
            };
        }
        let rank = self.start(spot.block) + offset;
        let group = group_of(self.starts.as_slice(), rank);
        let first = Spot {
            block: group * STRIDE,
            offset: 0,
        };
        self.walked(first, rank - self.starts[group])
    }

    // The spot so many entries on, by way of each block between.
    fn walked(&self, spot: Spot, by: usize) -> Spot
        requires spot { IsSpot self.now spot }
        requires within { rank_of self.now spot + by < length (joined self.now) }
        requires fits { length (joined self.now) < 2 ^ 63 }
        ensures taken { IsTaken self.now result }
        ensures rank { rank_of self.now result ≡ rank_of self.now spot + by }
    {
        let mut block = spot.block;
        let mut offset = spot.offset + by;
        while self.blocks[block].len() <= offset {
            offset -= self.blocks[block].len();
            block += 1;
        }
        Spot { block, offset }
    }

    /// Puts an entry at a spot. An `Err` comes only where memory was refused, or there are as many entries as can be
    /// counted, and then the entries are as they were. They need not lie in the same blocks: one may have been made
    /// two, each with room for the entry.
    pub fn insert(&mut self, spot: Spot, entry: Entry) -> Result<(), AllocError>
        requires { IsSpot self.old spot }
        ensures ok { OnOk result (joined self.new ≡ insert (joined self.old) (rank_of self.old spot) entry) }
        ensures err { OnErr result (joined self.new ≡ joined self.old) }
    {
        if self.is_full() {
            return Err(AllocError);
        }
        let spot = self.with_room(spot)?;
        if spot.block == self.blocks.len() {
            self.push(entry)?;
            Ok(())
        } else {
            self.insert_inside(spot, entry)?;
            Ok(())
        }
    }

    // Whether there are as many entries as can be counted. Memory ends long before.
    fn is_full(&self) -> bool
        ensures full { IsTrue result → 2 ^ 64 ≤ length (joined self.now) + 1 }
        ensures room { IsFalse result → length (joined self.now) + 1 < 2 ^ 64 }
    {
        self.starts[self.starts.len() - 1] == usize::MAX
    }

    // Puts an entry after all, in a block of its own. All memory is asked for first.
    fn push(&mut self, entry: Entry) -> Result<(), AllocError>
        requires { length (joined self.old) + 1 < 2 ^ 64 }
        ensures ok { OnOk result (joined self.new ≡ insert (joined self.old) (length (joined self.old)) entry) }
        ensures err { OnErr result (self.new ≡ self.old) }
    {
        let count = self.blocks.len();
        let block = Block::of(*self.blocks.allocator(), entry)?;
        self.blocks.reserve(1)?;
        grow(&mut self.starts, self.blocks.as_slice())?;
        self.blocks.push_reserved(block);
        raise(self.starts.as_mut_slice(), count / STRIDE + 1);
        Ok(())
    }

    // Puts an entry into a block.
    fn insert_inside(&mut self, spot: Spot, entry: Entry) -> Result<(), AllocError>
        requires block { spot.block < length self.old }
        requires spot { IsSpot self.old spot }
        requires fits { length (joined self.old) + 1 < 2 ^ 64 }
        ensures ok { OnOk result (joined self.new ≡ insert (joined self.old) (rank_of self.old spot) entry) }
        ensures err { OnErr result (self.new ≡ self.old) }
    {
        self.blocks[spot.block].insert(spot.offset, entry)?;
        raise(self.starts.as_mut_slice(), spot.block / STRIDE + 1);
        Ok(())
    }

    // The same spot, where its block has room for an entry; if need be, the block is made two.
    fn with_room(&mut self, spot: Spot) -> Result<Spot, AllocError>
        requires { IsSpot self.old spot }
        ensures joined { joined self.new ≡ joined self.old }
        ensures spot { IfOk result (λ s. IsSpot self.new s) }
        ensures rank { IfOk result (λ s. rank_of self.new s ≡ rank_of self.old spot) }
    {
        if spot.block == self.blocks.len() {
            return Ok(spot);
        }
        let count = self.blocks[spot.block].len();
        if count < ROOM {
            return Ok(spot);
        }
        if spot.offset == count && spot.block + 1 == self.blocks.len() {
            return Ok(Spot {
                block: spot.block + 1,
                offset: 0,
            });
        }
        let half = count / 2;
        self.split(spot.block, half)?;
        if spot.offset <= half {
            Ok(spot)
        } else {
            Ok(Spot {
                block: spot.block + 1,
                offset: spot.offset - half,
            })
        }
    }

    // Makes a block two. All memory is asked for first.
    fn split(&mut self, block: usize, half: usize) -> Result<(), AllocError>
        requires block { block < length self.old }
        requires first { 0 < half }
        requires second { half < length (get_or self.old block []) }
        ensures ok { OnOk result (self.new ≡ halved self.old block (block + 1) half) }
        ensures joined { joined self.new ≡ joined self.old }
        ensures err { OnErr result (self.new ≡ self.old) }
    {
        let upper = self.blocks[block].from(*self.blocks.allocator(), half, ROOM)?;
        self.blocks.reserve(1)?;
        grow(&mut self.starts, self.blocks.as_slice())?;
        let Ok(()) = self.blocks.insert(block + 1, upper) else {
            unreachable!()
        };
        self.blocks[block].truncate(half);
        subtract_blocks(
            self.starts.as_mut_slice(),
            self.blocks.as_slice(),
            block / STRIDE + 1,
        );
        Ok(())
    }

    /// Takes the entry at a spot out, and lowers the places after its own.
    pub fn remove(&mut self, spot: Spot)
        requires { IsTaken self.old spot }
        ensures { joined self.new ≡ map (entry_closed_up (place_at (joined self.old) (rank_of self.old spot))) (remove (joined self.old) (rank_of self.old spot)) }
    {
        let gone = self.place(spot);
        self.take(spot);
        for block in self.blocks.iter_mut() {
            block.close_up(gone);
        }
    }

    // Takes the entry at a spot out, and the block if nothing is left of it.
    fn take(&mut self, spot: Spot)
        requires { IsTaken self.old spot }
        ensures { joined self.new ≡ remove (joined self.old) (rank_of self.old spot) }
    {
        if self.blocks[spot.block].len() == 1 {
            self.remove_block(spot.block);
        } else {
            self.remove_inside(spot);
        }
    }

    // Takes a block of one entry out.
    fn remove_block(&mut self, block: usize)
        requires block { block < length self.old }
        requires one { length (get_or self.old block []) ≡ 1 }
        ensures { joined self.new ≡ remove (joined self.old) (start self.old block) }
    {
        let after = block / STRIDE + 1;
        add_blocks(self.starts.as_mut_slice(), self.blocks.as_slice(), after);
        lower(self.starts.as_mut_slice(), after);
        drop(self.blocks.remove(block));
    }

    // Takes an entry out of a block of more.
    fn remove_inside(&mut self, spot: Spot)
        requires taken { IsTaken self.old spot }
        requires more { 1 < length (get_or self.old spot.block []) }
        ensures { joined self.new ≡ remove (joined self.old) (rank_of self.old spot) }
    {
        self.blocks[spot.block].remove(spot.offset);
        lower(self.starts.as_mut_slice(), spot.block / STRIDE + 1);
    }

    /// Makes a place the last of so many, and lowers those after it.
    pub fn move_up(&mut self, gone: usize, count: usize)
        requires { 0 < count }
        ensures { joined self.new ≡ map (entry_moved_up gone count) (joined self.old) }
    {
        for block in self.blocks.iter_mut() {
            block.move_up(gone, count);
        }
    }

    /// A copy.
    pub fn copied(&self, alloc: Global) -> Result<Blocks, AllocError>
        ensures { IfOk result (λ b. b ≡ self.now) }
    {
        let mut starts = Vec::with_capacity(alloc, self.starts.len())?;
        starts.extend_from_slice(self.starts.as_slice())?;
        let mut blocks = Vec::with_capacity(alloc, self.blocks.len())?;
        for block in &self.blocks {
            blocks.push(block.from(alloc, 0, block.len())?)?;
        }
        Ok(Blocks { blocks, starts })
    }
}
