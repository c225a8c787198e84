//! What a plain text stands for.
ghost use Rattle.std.specs.Prelude.{◌≡◌, ◌≤◌, ◌<◌, ◌^◌, ◌||◌, true, option_and_then, map, chars, codes};
ghost use Rattle.std.specs.Option.{option_or};
ghost use Rattle.std.specs.Str.{all_ascii_digits};
ghost use Rattle.std.specs.Str.Parse.{digits_value};
ghost use Rattle.std.specs.Char.{is_ascii_digit};
ghost use Rattle.defs_tree.specs.Grammar.{is_among};
ghost use Rattle.defs_tree.specs.Typing.{after_prefix, signed_number, typing, is_string, is_sign, is_decimal, special_words, null_words, true_words, false_words};
ghost use Rattle.defs_tree.proofs.DecimalReading.{begins_in, reads_on, reads_decimal};
ghost use Rattle.yaml_tree.specs.Meanings.{meant, string_or, integer_or};
ghost use Rattle.yaml_tree.specs.Values.{begins_special};

use crate::decimal::{after_digits, after_sign, begins_with_digit, is_exponent};

const SPECIAL: [&str; 12] = [
    ".inf", ".Inf", ".INF", "+.inf", "+.Inf", "+.INF", "-.inf", "-.Inf", "-.INF", ".nan", ".NaN",
    ".NAN",
];

/// What a plain text stands for, but for the text itself.
#[derive(Clone, Copy)]
pub enum Meaning {
    /// An integer of 64 bits.
    Integer(i64),
    /// `true` or `false`.
    Boolean(bool),
    /// The null value.
    Null,
    /// The number that the text writes.
    Real,
    /// The text.
    String,
}

/// Whether the text is a string as a plain scalar: it stands for its own text. It takes no memory.
pub fn is_string(text: &str) -> bool
    ensures { result ≡ is_string (typing (chars text.now)) }
{
    match stands_for(text) {
        Meaning::String => true,
        Meaning::Integer(_) | Meaning::Boolean(_) | Meaning::Null | Meaning::Real => false,
    }
}

/// What the text stands for as a plain scalar. It takes no memory.
pub fn stands_for(text: &str) -> Meaning
    ensures { meant result (chars text.now) ≡ typing (chars text.now) }
{
    by_first_byte(text)
}

// The first byte of a text chooses what it may stand for besides its own string.
fn by_first_byte(text: &str) -> Meaning
    ensures { meant result text.now ≡ typing text.now }
{
    let [first, ..] = text.as_bytes() else {
        return Meaning::Null;
    };
    match *first {
        b'0'..=b'9' => begun_by_digit(text),
        b'+' | b'-' => begun_by_sign(text),
        b'.' => string_or(Meaning::Real, is_real(text)),
        b'~' | b'n' => string_or(Meaning::Null, is_null(text)),
        b't' | b'T' => string_or(Meaning::Boolean(true), is_true(text)),
        b'f' | b'F' => string_or(Meaning::Boolean(false), is_false(text)),
        _ => Meaning::String,
    }
}

// What follows the digits tells an integer, a decimal number and a string apart.
fn begun_by_digit(text: &str) -> Meaning
    requires begins { begins_in is_ascii_digit text.now ≡ true }
    ensures { meant result text.now ≡ typing text.now }
{
    let rest = after_digits(text.as_bytes());
    let [next, ..] = rest else {
        return integer_or(Meaning::Real, number_of_digits(text));
    };
    match *next {
        b'x' => integer_or(Meaning::String, number_after("0x", text, 16)),
        b'o' => integer_or(Meaning::String, number_after("0o", text, 8)),
        _ => string_or(Meaning::Real, is_rest_of_decimal(true, rest)),
    }
}

// A sign may stand before an integer, a decimal number or a word for infinity, and a plus before an integer with a sign of its own.
fn begun_by_sign(text: &str) -> Meaning
    requires begins { begins_in is_sign text.now ≡ true }
    ensures { meant result text.now ≡ typing text.now }
{
    match integer_after_sign(text) {
        Some(number) => Meaning::Integer(number),
        None => string_or(Meaning::Real, is_real(text)),
    }
}

fn integer_after_sign(text: &str) -> Option<i64>
    ensures { result ≡ option_or (option_and_then (signed_number 10) (after_prefix (codes "+") text.now)) (signed_number 10 text.now) }
{
    match number_after("+", text, 10) {
        Some(number) => Some(number),
        None => number_in(text, 10),
    }
}

fn string_or(meaning: Meaning, holds: bool) -> Meaning
    ensures { result ≡ string_or meaning holds }
{
    if holds { meaning } else { Meaning::String }
}

fn integer_or(meaning: Meaning, number: Option<i64>) -> Meaning
    ensures { result ≡ integer_or meaning number }
{
    match number {
        Some(number) => Meaning::Integer(number),
        None => meaning,
    }
}

fn is_null(text: &str) -> bool
    ensures { result ≡ is_among null_words text.now }
{
    matches!(text, "" | "~" | "null")
}

fn is_true(text: &str) -> bool
    ensures { result ≡ is_among true_words text.now }
{
    matches!(text, "true" | "True" | "TRUE")
}

fn is_false(text: &str) -> bool
    ensures { result ≡ is_among false_words text.now }
{
    matches!(text, "false" | "False" | "FALSE")
}

/// Whether a text is a real: one of the words for infinity and for not a number, or a decimal number.
#[tactic(auto, using(crate::proofs::TypingLemmas::decimal_read))]
pub fn is_real(text: &str) -> bool
    ensures { result ≡ (is_among special_words text.now || is_decimal text.now) }
{
    is_special(text) || is_decimal(text.as_bytes())
}

fn is_special(text: &str) -> bool
    ensures { result ≡ is_among special_words text.now }
{
    begins_special(text.as_bytes()) && is_among(&SPECIAL, text)
}

// Whether a text begins as one of the words for infinity and for not a number.
fn begins_special(text: &[u8]) -> bool
    ensures { result ≡ begins_special text.now }
{
    match text {
        [b'+' | b'-', b'.', third, ..] => matches!(*third, b'i' | b'I'),
        [b'.', second, ..] => matches!(*second, b'i' | b'I' | b'n' | b'N'),
        _ => false,
    }
}

fn is_among(words: &[&str], text: &str) -> bool
    ensures { result ≡ is_among (map (λ w. w.now) words.now) text.now }
{
    for word in words {
        if *word == text {
            return true;
        }
    }
    false
}

fn number_after(prefix: &str, text: &str, base: u32) -> Option<i64>
    requires at_least { 2 ≤ base }
    requires at_most { base ≤ 36 }
    ensures { result ≡ option_and_then (signed_number base) (after_prefix prefix.now text.now) }
{
    number_in(text.strip_prefix(prefix)?, base)
}

fn number_in(text: &str, base: u32) -> Option<i64>
    requires at_least { 2 ≤ base }
    requires at_most { base ≤ 36 }
    ensures { result ≡ signed_number base text.now }
{
    i64::from_str_radix(text, base).ok()
}

// The integer that digits write, where 64 bits hold it. They hold that of 18 digits, whatever these are.
fn number_of_digits(text: &str) -> Option<i64>
    requires begins { begins_in is_ascii_digit text.now ≡ true }
    requires digits { all_ascii_digits text.now ≡ true }
    ensures { result ≡ signed_number 10 text.now }
{
    if text.len() <= 18 {
        return Some(value_of(text.as_bytes()) as i64);
    }
    number_in(text, 10)
}

fn value_of(digits: &[u8]) -> u64
    requires digits { all_ascii_digits digits.now ≡ true }
    requires below { digits_value 10 digits.now < 10 ^ 18 }
    ensures { result ≡ digits_value 10 digits.now }
{
    let mut value = 0u64;
    for digit in digits {
        value = value * 10 + (*digit - b'0') as u64;
    }
    value
}

fn is_decimal(text: &[u8]) -> bool
    ensures { result ≡ reads_decimal text.now }
{
    let text = after_sign(text);
    let has_digits = begins_with_digit(text);
    is_rest_of_decimal(has_digits, after_digits(text))
}

// What follows the first digits, where there were any or none.
fn is_rest_of_decimal(has_digits: bool, text: &[u8]) -> bool
    ensures { result ≡ reads_on has_digits text.now }
{
    match text {
        [] => has_digits,
        [b'.', rest @ ..] => (has_digits || begins_with_digit(rest))
            && is_exponent(after_digits(rest)),
        _ => has_digits && is_exponent(text),
    }
}
