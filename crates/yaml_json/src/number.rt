//! The reals that JSON can write (RFC 8259, section 6).
ghost use Rattle.std.specs.Prelude.{◌≡◌, chars};
ghost use Rattle.defs_layout.specs.JsonReal.{is_json_real};
ghost use Rattle.defs_layout.proofs.Reading.{reads_number, reads_unsigned, reads_end};

use yaml_tree::decimal::{after_digits, begins_with_digit, is_exponent};

/// Whether the text is a number of JSON that is read back as a real: no integer of 64 bits.
#[tactic(auto, using(crate::proofs::NumberLemmas::no_real))]
pub(crate) fn is_json_real(text: &str) -> bool
    ensures { result ≡ is_json_real (chars text.now) }
{
    is_number(text.as_bytes()) && text.parse::<i64>().is_err()
}

fn is_number(text: &[u8]) -> bool
    ensures { result ≡ reads_number text.now }
{
    match text {
        [b'-', rest @ ..] => is_unsigned(rest),
        _ => is_unsigned(text),
    }
}

// Digits that do not begin with 0, or 0 alone; and then the rest.
fn is_unsigned(text: &[u8]) -> bool
    ensures { result ≡ reads_unsigned text.now }
{
    match text {
        [b'0', rest @ ..] => is_end(rest),
        [b'1'..=b'9', rest @ ..] => is_end(after_digits(rest)),
        _ => false,
    }
}

// A fraction and an exponent, or one of them, or none.
fn is_end(text: &[u8]) -> bool
    ensures { result ≡ reads_end text.now }
{
    match text {
        [b'.', rest @ ..] => begins_with_digit(rest) && is_exponent(after_digits(rest)),
        _ => is_exponent(text),
    }
}
