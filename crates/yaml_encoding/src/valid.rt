//! Text with which an input begins: UTF-8 as it stands.
ghost use Rattle.std.specs.Prelude.{◌≡◌, ◌<◌, ◌≤◌, length, slice_index, take};

use std::simd::prelude::*;
use std::str;

/// How many bytes are looked at together.
const LANES: usize = 16;

/// How many ASCII bytes come before the first other byte of the next sixteen.
#[inline(always)]
fn ascii_lanes(input: &[u8]) -> usize
    requires { 16 < length input.now }
    ensures { result ≤ 16 }
{
    let other = u8x16::from_slice(input)
        .simd_ge(u8x16::splat(128))
        .to_bitmask();
    if other == 0 {
        return LANES;
    }
    (other.trailing_zeros() as usize).min(LANES)
}

/// A run of a few ASCII bytes with which an input begins, before what is not likely to be a character. Where there is none,
/// it is empty.
fn short_text(input: &[u8]) -> &str
    ensures there { length result.now ≤ length input.now }
    ensures value { result.now ≡ take (length result.now) input.now }
{
    if input.len() <= LANES {
        return "";
    }
    let count = ascii_lanes(input);
    if count == LANES || matches!(input[count + 1], 0x80..=0xBF) {
        return "";
    }
    match str::from_utf8(&input[..count]) {
        Ok(run) => run,
        Err(_) => "",
    }
}

/// The text with which an input begins, up to the first malformation.
fn valid_text(input: &[u8]) -> &str
    ensures there { length result.now ≤ length input.now }
    ensures value { result.now ≡ take (length result.now) input.now }
    ensures some { 0 < length input.now → slice_index input.now 0 < 128 → 0 < length result.now }
{
    match input.utf8_chunks().next() {
        Some(chunk) => chunk.valid(),
        None => "",
    }
}

/// Text with which an input begins. It goes up to the first malformation, or it is a short run of ASCII bytes: to look for
/// a malformation that is near costs more.
pub(crate) fn text_ahead(input: &[u8]) -> &str
    requires there { 0 < length input.now }
    requires ascii { slice_index input.now 0 < 128 }
    ensures there { length result.now ≤ length input.now }
    ensures value { result.now ≡ take (length result.now) input.now }
    ensures some { 0 < length result.now }
{
    let run = short_text(input);
    if !run.is_empty() {
        return run;
    }
    valid_text(input)
}
