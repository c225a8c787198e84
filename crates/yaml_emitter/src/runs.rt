//! Runs of bytes outside a class, found sixteen bytes at a time.
ghost use Rattle.std.specs.Prelude.{◌≡◌, ℕ, Bool, ◌+◌, ◌≤◌, not, length, drop, map};
ghost use Rattle.std.specs.List.{prefix_len};
ghost use Rattle.std.specs.Simd.Lanes.{mask_l};
ghost use Rattle.defs_tree.specs.Quoting.{is_unfit_for_plain};
ghost use Rattle.yaml_emitter.specs.Runs.{has_bit, is_break, is_escaped, is_unprintable};

use std::simd::prelude::*;

const BLOCK: usize = 16;

/// A class of bytes.
pub(crate) trait Class {
    ghost holds: { ℕ → Bool };

    /// The bytes of a block that are of the class, as bits.
    fn among(block: u8x16) -> u64
        ensures { result ≡ mask_l (map holds block) };

    fn has(byte: u8) -> bool
        ensures { result ≡ holds byte };
}

/// How many bytes stand before the first one of the class.
pub(crate) fn run_length<C: Class>(bytes: &[u8]) -> usize
    ensures { result ≡ prefix_len (λ b. not (C.holds b)) bytes.now }
{
    if bytes.len() < BLOCK {
        return short_run::<C>(bytes);
    }
    let mut at = 0;
    'lanes: while bytes.len() - at > BLOCK {
        let found = C::among(u8x16::from_slice(&bytes[at..]));
        if found != 0 {
            return at + found.trailing_zeros() as usize;
        }
        at += BLOCK;
    }
    last_run::<C>(bytes, at)
}

// The same, byte by byte.
fn short_run<C: Class>(bytes: &[u8]) -> usize
    ensures { result ≡ prefix_len (λ b. not (C.holds b)) bytes.now }
{
    let mut at = 0;
    'bytes: while at < bytes.len() && !C::has(bytes[at]) {
        at += 1;
    }
    at
}

// The same where no byte before a place is of the class, and at most a block stands behind it. The last block may begin
// before the place.
fn last_run<C: Class>(bytes: &[u8], at: usize) -> usize
    requires within { at ≤ length bytes.now }
    requires block { 16 ≤ length bytes.now }
    requires few { length bytes.now ≤ at + 16 }
    requires before { prefix_len (λ b. not (C.holds b)) bytes.now ≡ at + prefix_len (λ b. not (C.holds b)) (drop at bytes.now) }
    ensures { result ≡ prefix_len (λ b. not (C.holds b)) bytes.now }
{
    let last = bytes.len() - BLOCK;
    let found = C::among(u8x16::from_slice(&bytes[last..]));
    if found == 0 {
        return bytes.len();
    }
    last + found.trailing_zeros() as usize
}

/// ASCII characters, as bits.
#[derive(Clone, Copy)]
struct Bits {
    /// The characters from 0 to 63.
    low: u64,
    /// The characters from 64 to 127.
    high: u64,
}

/// A quote, a backslash and the control characters.
const ESCAPED: Bits = Bits {
    low: 0x0000_0004_FFFF_FFFF,
    high: 0x8000_0000_1000_0000,
};

/// `"`, `#`, `'`, `,`, `:`, brackets, braces, a backslash, a grave accent and most control characters.
const UNFIT: Bits = Bits {
    low: 0x0400_108C_F7FF_E67F,
    high: 0x2800_0001_3800_0000,
};

fn has_bit(bits: Bits, byte: u8) -> bool
    ensures { result ≡ has_bit bits byte }
{
    match byte {
        0..=63 => bits.low >> byte & 1 == 1,
        64..=127 => bits.high >> (byte - 64) & 1 == 1,
        _ => false,
    }
}

// Most bytes are small letters, so they come first.
fn is_escaped(byte: u8) -> bool
    ensures { result ≡ is_escaped byte }
{
    !byte.is_ascii_lowercase() && has_bit(ESCAPED, byte)
}

fn is_unfit_for_plain(byte: u8) -> bool
    ensures { result ≡ is_unfit_for_plain byte }
{
    !byte.is_ascii_lowercase() && has_bit(UNFIT, byte)
}

/// The bytes that are escaped in double quotes.
pub(crate) struct Escaped;

impl Class for Escaped {
    ghost holds = { is_escaped };

    #[inline(always)]
    fn among(block: u8x16) -> u64 {
        (block.simd_eq(u8x16::splat(b'"'))
            | block.simd_eq(u8x16::splat(b'\\'))
            | block.simd_lt(u8x16::splat(b' '))
            | block.simd_eq(u8x16::splat(0x7F))).to_bitmask()
    }

    fn has(byte: u8) -> bool {
        is_escaped(byte)
    }
}

/// The bytes that are not an ASCII character of a literal block.
pub(crate) struct Unprintable;

impl Class for Unprintable {
    ghost holds = { is_unprintable };

    #[inline(always)]
    fn among(block: u8x16) -> u64 {
        (block.simd_gt(u8x16::splat(b'~'))
            | (block.simd_lt(u8x16::splat(b' '))
                & block.simd_ne(u8x16::splat(b'\n'))
                & block.simd_ne(u8x16::splat(b'\t')))).to_bitmask()
    }

    fn has(byte: u8) -> bool {
        !matches!(byte, b'\n' | b'\t' | b' '..=b'~')
    }
}

/// The bytes that no plain scalar has.
pub(crate) struct Unfit;

impl Class for Unfit {
    ghost holds = { is_unfit_for_plain };

    #[inline(always)]
    fn among(block: u8x16) -> u64 {
        (block.simd_eq(u8x16::splat(b':'))
            | block.simd_eq(u8x16::splat(b'{'))
            | block.simd_eq(u8x16::splat(b'}'))
            | block.simd_eq(u8x16::splat(b'['))
            | block.simd_eq(u8x16::splat(b']'))
            | block.simd_eq(u8x16::splat(b','))
            | block.simd_eq(u8x16::splat(b'#'))
            | block.simd_eq(u8x16::splat(b'`'))
            | block.simd_eq(u8x16::splat(b'"'))
            | block.simd_eq(u8x16::splat(b'\''))
            | block.simd_eq(u8x16::splat(b'\\'))
            | (block.simd_lt(u8x16::splat(b' '))
                & block.simd_ne(u8x16::splat(0x07))
                & block.simd_ne(u8x16::splat(0x08))
                & block.simd_ne(u8x16::splat(0x0B))
                & block.simd_ne(u8x16::splat(0x0C))
                & block.simd_ne(u8x16::splat(0x1B)))).to_bitmask()
    }

    fn has(byte: u8) -> bool {
        is_unfit_for_plain(byte)
    }
}

/// The line feed.
pub(crate) struct LineFeed;

impl Class for LineFeed {
    ghost holds = { is_break };

    #[inline(always)]
    fn among(block: u8x16) -> u64 {
        block.simd_eq(u8x16::splat(b'\n')).to_bitmask()
    }

    fn has(byte: u8) -> bool {
        byte == b'\n'
    }
}
