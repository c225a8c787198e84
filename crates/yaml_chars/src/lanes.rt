//! Sixteen bytes at a time.
ghost use Rattle.std.specs.Prelude.{◌≡◌, ℕ, ◌+◌, ◌<◌, ◌≤◌, length, slice_index, false, map};
ghost use Rattle.yaml_chars.specs.BlockLines.{halts_simple};
ghost use Rattle.std.specs.List.{count_by};
ghost use Rattle.yaml_chars.specs.Words.{halts, halts_line, is_beyond, is_first_byte, pairs};
ghost use lib.Lanes.{chunk, mask_l};

use std::simd::prelude::*;

/// How many bytes are looked at together.
pub(crate) const LANES: usize = 16;

/// The bytes where words do not surely go on, as bits: by the bytes after them, and by two that are of no word.
#[inline(always)]
fn halting(block: u8x16, next: u8x16, first: u8, second: u8) -> u64
    ensures { result ≡ mask_l (map (halts first second) (pairs block next)) }
{
    let other = block.simd_lt(u8x16::splat(b'!'))
        | block.simd_eq(u8x16::splat(127))
        | block.simd_eq(u8x16::splat(first))
        | block.simd_eq(u8x16::splat(second));
    let apart = block.simd_ne(u8x16::splat(b' '))
        | next.simd_lt(u8x16::splat(b'0'))
        | next.simd_eq(u8x16::splat(b':'))
        | next.simd_eq(u8x16::splat(b'['))
        | next.simd_eq(u8x16::splat(b'\\'))
        | next.simd_eq(u8x16::splat(b']'))
        | next.simd_eq(u8x16::splat(b'{'))
        | next.simd_eq(u8x16::splat(b'}'));
    (other & apart).to_bitmask()
}

/// The bytes that are ASCII control characters, as bits.
#[inline(always)]
fn controls(block: u8x16) -> u64
    ensures { result ≡ mask_l (map halts_line block) }
{
    (block.simd_lt(u8x16::splat(b' ')) | block.simd_eq(u8x16::splat(127))).to_bitmask()
}

/// How many of the next sixteen bytes come before the first where words do not surely go on. Two bytes are named that are
/// of no word.
#[inline(always)]
pub(crate) fn word_lanes(bytes: &[u8], at: usize, first: u8, second: u8) -> usize
    requires { at + 16 < length bytes.now }
    ensures within { result ≤ 16 }
    ensures goes { (k : ℕ) → k < result → halts first second (slice_index bytes.now (at + k), slice_index bytes.now (at + 1 + k)) ≡ false }
{
    let block = u8x16::from_slice(&bytes[at..]);
    let next = u8x16::from_slice(&bytes[at + 1..]);
    let found = halting(block, next, first, second);
    if found == 0 {
        return LANES;
    }
    found.trailing_zeros() as usize
}

/// How many of the next sixteen bytes come before the first that is an ASCII control character.
#[inline(always)]
pub(crate) fn line_lanes(bytes: &[u8], at: usize) -> usize
    requires { at + 16 < length bytes.now }
    ensures within { result ≤ 16 }
    ensures goes { (k : ℕ) → k < result → halts_line (slice_index bytes.now (at + k)) ≡ false }
{
    let found = controls(u8x16::from_slice(&bytes[at..]));
    if found == 0 {
        return LANES;
    }
    found.trailing_zeros() as usize
}

/// The bytes outside ASCII, as bits.
#[inline(always)]
fn beyond_ascii(block: u8x16) -> u64
    ensures { result ≡ mask_l (map is_beyond block) }
{
    block.simd_gt(u8x16::splat(127)).to_bitmask()
}

/// Whether one of the next sixteen bytes is outside ASCII.
#[inline(always)]
pub(crate) fn has_beyond(bytes: &[u8], at: usize) -> bool
    requires { at + 16 < length bytes.now }
    ensures { result ≡ false → (k : ℕ) → k < 16 → slice_index bytes.now (at + k) < 128 }
{
    let found = beyond_ascii(u8x16::from_slice(&bytes[at..]));
    found != 0
}

/// The bytes with which characters begin, as bits.
#[inline(always)]
fn first_bytes(block: u8x16) -> u64
    ensures { result ≡ mask_l (map is_first_byte block) }
{
    (block.simd_lt(u8x16::splat(128)) | block.simd_gt(u8x16::splat(191))).to_bitmask()
}

/// How many characters begin among the next sixteen bytes.
#[inline(always)]
pub(crate) fn first_lanes(bytes: &[u8], at: usize) -> usize
    requires { at + 16 < length bytes.now }
    ensures { result ≡ count_by is_first_byte (chunk at 16 bytes.now) }
{
    first_bytes(u8x16::from_slice(&bytes[at..])).count_ones() as usize
}

/// The bytes that are not simple, as bits: no printable characters, `:` and `#`.
#[inline(always)]
fn not_simple(block: u8x16) -> u64
    ensures { result ≡ mask_l (map halts_simple block) }
{
    (block.simd_lt(u8x16::splat(b' '))
        | block.simd_gt(u8x16::splat(b'~'))
        | block.simd_eq(u8x16::splat(b':'))
        | block.simd_eq(u8x16::splat(b'#'))).to_bitmask()
}

/// How many of the next sixteen bytes come before the first that is not simple.
#[inline(always)]
pub(crate) fn simple_lanes(bytes: &[u8], at: usize) -> usize
    requires { at + 16 < length bytes.now }
    ensures within { result ≤ 16 }
    ensures goes { (k : ℕ) → k < result → halts_simple (slice_index bytes.now (at + k)) ≡ false }
{
    let found = not_simple(u8x16::from_slice(&bytes[at..]));
    if found == 0 {
        return LANES;
    }
    found.trailing_zeros() as usize
}
