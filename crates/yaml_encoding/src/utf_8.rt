//! Sequences of UTF-8, by the WHATWG Encoding standard, section 8.1.1, and RFC 3629, section 4.
ghost use Rattle.std.specs.Prelude.{◌≡◌, ◌<◌, ◌≤◌, length, IfSome, None, Some, MatchOption};
ghost use Rattle.yaml_encoding.specs.Decoding.{start_of, utf_8_sequence};
ghost use Rattle.yaml_encoding.specs.Front.{front, sequence_of, bounds};

use crate::sequence::Sequence;

/// What a first byte begins.
#[derive(Clone, Copy)]
struct Start {
    /// Its bits of the character.
    bits: u32,
    /// The least byte that may stand after it.
    low: u8,
    /// The greatest byte that may stand after it.
    high: u8,
    /// How many bytes stand after it.
    after: u8,
}

/// What a first byte begins; none where no sequence begins with it.
#[tactic(auto, unfolding(crate::specs::Decoding::start_of))]
fn start_of(first: u8) -> Option<Start>
    ensures value { MatchOption result (start_of first ≡ None) (λ s. start_of first ≡ Some (record { bits = s.bits; after = bounds s.low s.high s.after })) }
    ensures few { IfSome result (λ s. s.after ≤ 3) }
    ensures above { IfSome result (λ s. 0x80 ≤ s.low) }
{
    let (bits, low, high, after) = match first {
        0x00..=0x7F => (first, 0x80, 0xBF, 0),
        0xC2..=0xDF => (first - 0xC0, 0x80, 0xBF, 1),
        0xE0 => (first - 0xE0, 0xA0, 0xBF, 2),
        0xE1..=0xEC => (first - 0xE0, 0x80, 0xBF, 2),
        0xED => (first - 0xE0, 0x80, 0x9F, 2),
        0xEE..=0xEF => (first - 0xE0, 0x80, 0xBF, 2),
        0xF0 => (first - 0xF0, 0x90, 0xBF, 3),
        0xF1..=0xF3 => (first - 0xF0, 0x80, 0xBF, 3),
        0xF4 => (first - 0xF0, 0x80, 0x8F, 3),
        _ => return None,
    };
    Some(Start {
        bits: u32::from(bits),
        low,
        high,
        after,
    })
}

/// What an input begins with.
pub(crate) fn utf_8_sequence(input: &[u8]) -> Sequence
    requires { 0 < length input.now }
    ensures { sequence_of result ≡ front utf_8_sequence input.now }
{
    let Some(start) = start_of(input[0]) else {
        return Sequence::malformed(1, 0);
    };
    let mut start = start;
    let mut bytes = 1;
    'trails: while start.after > 0 {
        let Some(&byte) = input.get(usize::from(bytes)) else {
            return Sequence::malformed(bytes, 0);
        };
        if byte < start.low || start.high < byte {
            return Sequence::malformed(bytes, 0);
        }
        start.bits = start.bits * 64 + u32::from(byte - 0x80);
        start.low = 0x80;
        start.high = 0xBF;
        start.after -= 1;
        bytes += 1;
    }
    Sequence::means(bytes, start.bits)
}
