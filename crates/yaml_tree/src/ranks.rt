//! The places of a hash's pairs, in the order of their keys: a short hash's by the order of trees, a long one's by
//! digests first.
ghost use Rattle.std.specs.Prelude.{◌≡◌, ◌<◌, ◌≤◌, ◌+◌, ◌*◌, ◌^◌, ◌++◌, ◌∷◌, [], ℕ, List, None, length, map, get_or, IfOk, OnOk, OnErr};
ghost use Rattle.std.specs.List.{remove};
ghost use Rattle.yaml_tree.specs.Blocks.{joined, rank_of, IsSpot};
ghost use Rattle.yaml_tree.specs.Counts.{RisesWithin};
ghost use Rattle.yaml_tree.specs.Edges.{digest_at, AreRising};
ghost use Rattle.yaml_tree.specs.Moves.{closed_up, moved_up};
ghost use Rattle.defs_tree.specs.Digits.{binary_digits};
ghost use Rattle.defs_tree.specs.Pairs.{place_of};
ghost use Rattle.defs_tree.specs.Tree.{Tree};
ghost use Rattle.yaml_tree.specs.Digests.{digest, first_by, AreDigests, HaveRising, IsWindow};
ghost use Rattle.yaml_tree.specs.Places.{places_in, digests_in, places, digests, rank_at, HasSpot, HasPlace, HasDigests, IsIndexed};
ghost use Rattle.yaml_tree.specs.Probes.{probed};
ghost use Rattle.yaml_tree.specs.Ranked.{AreRanked, IsHash, IsRankGap};
ghost use Rattle.yaml_tree.specs.View.{view, items_view, pairs_view};

use crate::digest::digest;
use crate::few::{Few, ROOM};
use crate::search::{Gap, Probe, search};
use crate::steps::Steps;
use crate::yaml::Yaml;
use crate::{Blocks, Count, Entry, Spot};
use std::alloc::{AllocError, Global};

// Those of a short hash take no memory of their own.
#[derive(Drop)]
pub(crate) enum Kept {
    Few(Few),
    Many(Box<Blocks>),
}

/// Places, by their rank.
#[derive(Drop)]
pub(crate) struct Ranks {
    kept: Kept,
}

// Adds the place of the next pair of a row, whose key belongs in this gap.
fn put(blocks: &mut Blocks, row: &[Yaml], gap: Gap, key: &Yaml) -> Result<(), AllocError>
    requires hash { IsHash digest (items_view row.now) (places_in blocks.old) }
    requires digested { AreDigests (digests_in blocks.old) (places_in blocks.old) (pairs_view row.now) }
    requires spot { IsSpot blocks.old gap.spot }
    requires digest { gap.digest ≡ digest (view key.now) }
    requires gap { IsRankGap digest (view key.now) (places_in blocks.old) (pairs_view row.now) (rank_of blocks.old gap.spot) }
    ensures ranked { OnOk result ((v : Tree) → AreRanked digest (places_in blocks.new) (pairs_view row.now ++ (view key.now, v) ∷ [])) }
    ensures digested { OnOk result ((v : Tree) → AreDigests (digests_in blocks.new) (places_in blocks.new) (pairs_view row.now ++ (view key.now, v) ∷ [])) }
    ensures same { OnErr result (joined blocks.new ≡ joined blocks.old) }
{
    let next = Entry {
        digest: gap.digest,
        place: row.len() / 2,
    };
    blocks.insert(gap.spot, next)?;
    Ok(())
}

// The offset after all entries whose digest is not above this one.
fn end_of(entries: &[Entry], digest: u64) -> usize
    requires rising { AreRising entries.now }
    ensures within { result ≤ length entries.now }
    ensures before { (i : ℕ) → i < result → digest_at entries.now i ≤ digest }
    ensures after { (i : ℕ) → result ≤ i → i < length entries.now → digest < digest_at entries.now i }
{
    let mut end = entries.len();
    while 0 < end {
        if entries[end - 1].digest <= digest {
            return end;
        }
        end -= 1;
    }
    0
}

// The index by digests of the pairs of a row, whose places these are. No two keys are compared: those of places that come
// later are higher, so with the same digest they belong after the others.
#[inline(never)]
fn by_digests(alloc: Global, row: &[Yaml], few: &Few) -> Result<Ranks, AllocError>
    requires hash { IsHash (λ k. 0) (items_view row.now) few.now }
    requires some { 0 < length few.now }
    ensures indexed { IfOk result (λ r. IsIndexed (items_view row.now) r.kept) }
    ensures many { IfOk result (λ r. HasDigests r.kept) }
{
    let mut entries = Vec::with_capacity(alloc, 16)?;
    for rank in 0..few.len() {
        let place = few.at(rank);
        let digest = digest(&row[2 * place]);
        let offset = end_of(entries.as_slice(), digest);
        entries.insert(offset, Entry { digest, place })?;
    }
    let blocks = Box::new(alloc, Blocks::of(alloc, entries)?)?;
    Ok(Ranks {
        kept: Kept::Many(blocks),
    })
}

impl Ranks {
    /// The index of no pairs. It takes no memory.
    pub(crate) fn new() -> Ranks
        ensures places { places result.kept ≡ [] }
        ensures digests { digests result.kept ≡ [] }
    {
        Ranks {
            kept: Kept::Few(Few::new()),
        }
    }

    /// The digest by which a key is searched for; 0 where no digests are kept.
    #[inline(always)]
    pub(crate) fn digest(&self, probe: Probe<'_>) -> u64
        ensures digest { result ≡ first_by self.now.kept (probed probe.entry) }
        ensures next { result + 1 < 2 ^ 64 }
    {
        match &self.kept {
            Kept::Few(_) => 0,
            Kept::Many(_) => probe.digest(),
        }
    }

    /// The first spot at which the place of a key with this digest may be, and how many spots to search from there.
    #[inline(always)]
    pub(crate) fn window(&self, digest: u64, compared: &mut Count) -> (Spot, usize)
        requires next { digest + 1 < 2 ^ 64 }
        requires rising { HaveRising self.now.kept }
        requires fits { length (places self.now.kept) < 2 ^ 63 }
        ensures spot { HasSpot self.now.kept result.0 }
        ensures window { (k : Tree) → digest ≡ first_by self.now.kept k → IsWindow self.now.kept k (rank_at self.now.kept result.0) result.1 }
        ensures compared { RisesWithin compared.old (4 * binary_digits (length (places self.now.kept)) + 1) compared.new }
    {
        match &self.kept {
            Kept::Few(few) => {
                let first = Spot {
                    block: 0,
                    offset: 0,
                };
                (first, few.len())
            }
            Kept::Many(blocks) => blocks.narrowed(digest, compared),
        }
    }

    /// The spot that many places further.
    #[inline(always)]
    pub(crate) fn advanced(&self, spot: Spot, by: usize) -> Spot
        requires spot { HasSpot self.now.kept spot }
        requires within { rank_at self.now.kept spot + by < length (places self.now.kept) }
        requires fits { length (places self.now.kept) < 2 ^ 63 }
        ensures place { HasPlace self.now.kept result }
        ensures rank { rank_at self.now.kept result ≡ rank_at self.now.kept spot + by }
    {
        match &self.kept {
            Kept::Few(_) => Spot {
                block: 0,
                offset: spot.offset + by,
            },
            Kept::Many(blocks) => blocks.advanced(spot, by),
        }
    }

    /// The place at a spot.
    #[inline(always)]
    pub(crate) fn at(&self, spot: Spot) -> usize
        requires { HasPlace self.now.kept spot }
        ensures { result ≡ get_or (places self.now.kept) (rank_at self.now.kept spot) 0 }
    {
        match &self.kept {
            Kept::Few(few) => few.at(spot.offset),
            Kept::Many(blocks) => blocks.place(spot),
        }
    }

    /// Adds the place of the next pair of a row, whose key belongs in this gap. An `Err` comes only if memory was
    /// refused, and then all is as it was.
    pub(crate) fn insert(
        &mut self,
        alloc: Global,
        row: &[Yaml],
        gap: Gap,
        key: &Yaml,
    ) -> Result<(), AllocError>
        requires indexed { IsIndexed (items_view row.now) self.old.kept }
        requires spot { HasSpot self.old.kept gap.spot }
        requires digest { gap.digest ≡ first_by self.old.kept (view key.now) }
        requires gap { IsRankGap (first_by self.old.kept) (view key.now) (places self.old.kept) (pairs_view row.now) (rank_at self.old.kept gap.spot) }
        ensures ranked { OnOk result ((v : Tree) → AreRanked (first_by self.new.kept) (places self.new.kept) (pairs_view row.now ++ (view key.now, v) ∷ [])) }
        ensures digests { OnOk result ((v : Tree) → AreDigests (digests self.new.kept) (places self.new.kept) (pairs_view row.now ++ (view key.now, v) ∷ [])) }
        ensures same { OnErr result (IsIndexed (items_view row.now) self.new.kept) }
    {
        match &mut self.kept {
            Kept::Few(few) if few.len() < ROOM => {
                let place = few.len();
                few.insert(gap.spot.offset, place);
                Ok(())
            }
            Kept::Few(few) => {
                let mut ranks = by_digests(alloc, row, few)?;
                ranks.add(row, key)?;
                *self = ranks;
                Ok(())
            }
            Kept::Many(blocks) => put(blocks, row, gap, key),
        }
    }

    // Adds the place of the next pair of a row, among places with digests. No pair of the row has the key.
    fn add(&mut self, row: &[Yaml], key: &Yaml) -> Result<(), AllocError>
        requires indexed { IsIndexed (items_view row.now) self.old.kept }
        requires many { HasDigests self.old.kept }
        requires absent { None ≡ place_of (view key.now) (pairs_view row.now) }
        ensures ranked { OnOk result ((v : Tree) → AreRanked digest (places self.new.kept) (pairs_view row.now ++ (view key.now, v) ∷ [])) }
        ensures digested { OnOk result ((v : Tree) → AreDigests (digests self.new.kept) (places self.new.kept) (pairs_view row.now ++ (view key.now, v) ∷ [])) }
        ensures many { OnOk result (HasDigests self.new.kept) }
    {
        let mut steps = Steps::new();
        let Err(gap) = search(row, self, Probe::Node(key), &mut steps) else {
            unreachable!()
        };
        let Kept::Many(blocks) = &mut self.kept else {
            unreachable!()
        };
        put(blocks, row, gap, key)
    }

    /// Removes the place at a spot; the places above it fall by one.
    pub(crate) fn remove(&mut self, spot: Spot)
        requires { HasPlace self.old.kept spot }
        ensures places { places self.new.kept ≡ map (closed_up (get_or (places self.old.kept) (rank_at self.old.kept spot) 0)) (remove (places self.old.kept) (rank_at self.old.kept spot)) }
        ensures digests { digests self.new.kept ≡ remove (digests self.old.kept) (rank_at self.old.kept spot) }
        ensures order { first_by self.new.kept ≡ first_by self.old.kept }
    {
        match &mut self.kept {
            Kept::Few(few) => *few = few.without(spot.offset),
            Kept::Many(blocks) => blocks.remove(spot),
        }
    }

    /// Moves the pair at `gone` to the end of `count` pairs; the places above it fall by one.
    #[inline(never)]
    pub(crate) fn move_to_end(&mut self, gone: usize, count: usize)
        requires some { 0 < count }
        requires all { count ≡ length (places self.old.kept) }
        ensures places { places self.new.kept ≡ map (moved_up gone count) (places self.old.kept) }
        ensures digests { digests self.new.kept ≡ digests self.old.kept }
        ensures order { first_by self.new.kept ≡ first_by self.old.kept }
    {
        match &mut self.kept {
            Kept::Few(few) => *few = few.moved_to_end(gone),
            Kept::Many(blocks) => blocks.move_up(gone, count),
        }
    }

    pub(crate) fn clone(&self, alloc: Global) -> Result<Ranks, AllocError>
        ensures places { IfOk result (λ r. places r.kept ≡ places self.now.kept) }
        ensures digests { IfOk result (λ r. digests r.kept ≡ digests self.now.kept) }
        ensures order { IfOk result (λ r. first_by r.kept ≡ first_by self.now.kept) }
    {
        let kept = match &self.kept {
            Kept::Few(few) => Kept::Few(few.same()),
            Kept::Many(blocks) => Kept::Many(Box::new(alloc, blocks.copied(alloc)?)?),
        };
        Ok(Ranks { kept })
    }
}
