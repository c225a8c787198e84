//! Integers in decimal digits (RFC 8259, section 6).
ghost use Rattle.std.specs.Prelude.{◌≡◌, ◌+◌, ◌/◌, ◌%◌, ◌<◌, ◌≤◌, ◌∷◌, length, drop, IsAscii};
ghost use Rattle.std.specs.Fmt.{decimal, signed_decimal};
ghost use Rattle.yaml_emitter.specs.Writing.{Writes};

use std::fmt;
use yaml_emitter::{Writer, put_ascii};

/// The characters of the longest number: `-` and 19 digits.
const MOST: usize = 20;

/// The numbers from 0 to 99 in two digits each.
static PAIRS: [u8; 200] =
    *b"00010203040506070809101112131415161718192021222324252627282930313233343536373839404142434445464748495051525354555657585960616263646566676869707172737475767778798081828384858687888990919293949596979899";

/// Writes a number's decimal digits, after `-` where it is negative, as one part.
#[inline(never)]
#[tactic(auto, using(yaml_emitter::proofs::ByteLemmas::ascii_low))]
pub(crate) fn write_integer<W: Writer>(out: &mut W, number: i64) -> fmt::Result
    ensures { Writes W.put_gives W.put_leaves out.old result (signed_decimal number) out.new }
{
    let mut bytes = [0; MOST];
    put_ascii(out, spelled(number, &mut bytes))
}

// The text of a number, which stands at the end of the buffer.
fn spelled(number: i64, bytes: &mut [u8; MOST]) -> &str
    ensures text { result.now ≡ signed_decimal number }
    ensures ascii { IsAscii result.now }
{
    let start = spell(number, bytes);
    unsafe { str::from_utf8_unchecked(&bytes[start..]) }
}

// Writes a number at the end of the buffer, and says where it starts.
fn spell(number: i64, bytes: &mut [u8; MOST]) -> usize
    ensures within { result ≤ 20 }
    ensures written { drop result bytes.new ≡ signed_decimal number }
{
    let start = spell_digits(number.unsigned_abs(), bytes);
    if number >= 0 {
        return start;
    }
    bytes[start - 1] = b'-';
    start - 1
}

fn spell_digits(number: u64, bytes: &mut [u8; MOST]) -> usize
    ensures start { result + length (decimal number) ≡ 20 }
    ensures written { drop result bytes.new ≡ decimal number }
{
    let mut left = number;
    let mut at = MOST;
    'left: while left >= 100 {
        at -= 2;
        put_pair(left % 100, bytes, at);
        left /= 100;
    }
    if left >= 10 {
        put_pair(left, bytes, at - 2);
        return at - 2;
    }
    bytes[at - 1] = b'0' + left as u8;
    at - 1
}

// Writes the two digits of a number below 100.
#[inline(always)]
fn put_pair(pair: u64, bytes: &mut [u8; MOST], at: usize)
    requires pair { pair < 100 }
    requires within { at + 2 ≤ 20 }
    ensures { drop at bytes.new ≡ (48 + pair / 10) ∷ (48 + pair % 10) ∷ drop (at + 2) bytes.old }
{
    let from = 2 * pair as usize;
    bytes[at] = PAIRS[from];
    bytes[at + 1] = PAIRS[from + 1];
}
