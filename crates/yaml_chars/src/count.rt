//! How many characters a text has.
ghost use Rattle.std.specs.Prelude.{◌≡◌, length, chars, false, IsAscii};
ghost use Rattle.std.specs.List.{count_by};
ghost use Rattle.yaml_chars.specs.Words.{is_first_byte};

use crate::lanes::{LANES, first_lanes};

/// How many characters a text has. Where it is known to be ASCII, it has as many as bytes.
#[inline(always)]
#[tactic(auto, using(crate::proofs::CountLemmas::length_ascii))]
pub(crate) fn character_count(text: &str, beyond: bool) -> usize
    requires { beyond ≡ false → IsAscii text.now }
    ensures { result ≡ length (chars text.now) }
{
    if beyond {
        return counted(text);
    }
    text.len()
}

/// The same, counted: as many as bytes with which a character begins. Sixteen are looked at together, but for the last ones.
#[inline(never)]
fn counted(text: &str) -> usize
    ensures { result ≡ length (chars text.now) }
{
    let bytes = text.as_bytes();
    let mut at = 0;
    let mut count = 0;
    'blocks: while bytes.len() - at > LANES {
        count += first_lanes(bytes, at);
        at += LANES;
    }
    count + counted_singly(&bytes[at..])
}

/// How many characters begin among some bytes.
#[inline(always)]
fn counted_singly(bytes: &[u8]) -> usize
    ensures { result ≡ count_by is_first_byte bytes.now }
{
    let mut count = 0;
    'bytes: for byte in bytes {
        if *byte < 128 || *byte > 191 {
            count += 1;
        }
    }
    count
}
