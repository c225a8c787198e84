//! How many entries stand before every sixteenth block.
ghost use Rattle.std.specs.Prelude.{◌≡◌, ◌<◌, ◌≤◌, ◌+◌, ◌-◌, ◌*◌, ◌^◌, ℕ, length, get_or, OnOk};
ghost use Rattle.yaml_tree.specs.Starts.{AreApart, AreStarts, head_length};

use crate::block::Block;
use std::alloc::AllocError;

/// A start is kept for every so many blocks: one for each block would make an insertion dear, since it raises those
/// after.
pub(crate) const STRIDE: usize = 16;

/// The number of a start that is not above the rank, where the next one is.
pub(crate) fn group_of(starts: &[usize], rank: usize) -> usize
    requires first { get_or starts.now 0 0 ≤ rank }
    requires some { 0 < length starts.now }
    requires last { rank < get_or starts.now (length starts.now - 1) 0 }
    ensures within { result + 1 < length starts.now }
    ensures from { get_or starts.now result 0 ≤ rank }
    ensures to { rank < get_or starts.now (result + 1) 0 }
{
    let mut low = 0;
    let mut high = starts.len() - 1;
    while low + 1 < high {
        let middle = low + (high - low) / 2;
        if starts[middle] <= rank {
            low = middle;
        } else {
            high = middle;
        }
    }
    low
}

/// Counts an entry more in the starts from the first on.
pub(crate) fn raise(starts: &mut [usize], first: usize)
    requires { (g : ℕ) → g < length starts.old → get_or starts.old g 0 + 1 < 2 ^ 64 }
    ensures { AreApart (λ _. 1) first (length starts.old) starts.old starts.new }
{
    for i in first..starts.len() {
        starts[i] += 1;
    }
}

/// Counts an entry less in the starts from the first on.
pub(crate) fn lower(starts: &mut [usize], first: usize)
    requires { (g : ℕ) → first ≤ g → g < length starts.old → 0 < get_or starts.old g 0 }
    ensures { AreApart (λ _. 1) first (length starts.old) starts.new starts.old }
{
    for i in first..starts.len() {
        starts[i] -= 1;
    }
}

/// Adds to each start from the first on how many entries its block has.
pub(crate) fn add_blocks(starts: &mut [usize], blocks: &[Block], first: usize)
    requires { (g : ℕ) → g < length starts.old → get_or starts.old g 0 + head_length blocks.now g < 2 ^ 64 }
    ensures { AreApart (head_length blocks.now) first (length starts.old) starts.old starts.new }
{
    for i in first..starts.len() {
        if i * STRIDE < blocks.len() {
            starts[i] += blocks[i * STRIDE].len();
        }
    }
}

/// Takes from each start from the first on how many entries its block has.
pub(crate) fn subtract_blocks(starts: &mut [usize], blocks: &[Block], first: usize)
    requires { (g : ℕ) → first ≤ g → g < length starts.old → head_length blocks.now g ≤ get_or starts.old g 0 }
    ensures { AreApart (head_length blocks.now) first (length starts.old) starts.new starts.old }
{
    for i in first..starts.len() {
        if i * STRIDE < blocks.len() {
            starts[i] -= blocks[i * STRIDE].len();
        }
    }
}

/// Keeps the last start twice where one more block would leave no start after all.
pub(crate) fn grow(starts: &mut Vec<usize>, blocks: &[Block]) -> Result<(), AllocError>
    requires { AreStarts blocks.now starts.old.items }
    ensures same { AreStarts blocks.now starts.new.items }
    ensures ok { OnOk result (length blocks.now + 1 + 16 ≤ 16 * length starts.new.items) }
{
    let count = starts.len();
    if blocks.len() / STRIDE + 1 == count {
        let last = starts[count - 1];
        starts.push(last)?;
    }
    Ok(())
}
