//! The bytes of a JSON string that stand as they are, found sixteen at a time.
ghost use Rattle.std.specs.Prelude.{◌≡◌, ◌+◌, ◌≤◌, length, drop, map};
ghost use Rattle.std.specs.List.{prefix_len};
ghost use Rattle.std.specs.Simd.Lanes.{mask_l};
ghost use Rattle.yaml_json.specs.Runs.{ends_run, stands};

use std::simd::prelude::*;

const BLOCK: usize = 16;

/// How many bytes stand before the first quotation mark, backslash or control character.
#[inline(always)]
pub(crate) fn run_length(bytes: &[u8]) -> usize
    ensures { result ≡ prefix_len stands bytes.now }
{
    let mut at = 0;
    'lanes: while bytes.len() - at >= BLOCK {
        let found = marks(u8x16::from_slice(&bytes[at..]));
        if found != 0 {
            return at + found.trailing_zeros() as usize;
        }
        at += BLOCK;
    }
    last_run(bytes, at)
}

// The same byte by byte, where the run does not end before a place.
#[inline(never)]
fn last_run(bytes: &[u8], from: usize) -> usize
    requires within { from ≤ length bytes.now }
    requires before { prefix_len stands bytes.now ≡ from + prefix_len stands (drop from bytes.now) }
    ensures { result ≡ prefix_len stands bytes.now }
{
    let mut at = from;
    'bytes: while at < bytes.len() && !ends_run(bytes[at]) {
        at += 1;
    }
    at
}

// The bytes of a block that end a run, as bits.
#[inline(always)]
fn marks(block: u8x16) -> u64
    ensures { result ≡ mask_l (map ends_run block) }
{
    (block.simd_eq(u8x16::splat(b'"'))
        | block.simd_eq(u8x16::splat(b'\\'))
        | block.simd_lt(u8x16::splat(b' '))).to_bitmask()
}

fn ends_run(byte: u8) -> bool
    ensures { result ≡ ends_run byte }
{
    byte == b'"' || byte == b'\\' || byte < b' '
}
