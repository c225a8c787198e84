//! What stands behind the parts of a JSON text. Nothing is built, and no memory is asked for.
//!
//! Each function gives the text behind a part, and `None` where no such part stands. Where the text ends inside a string, or where more
//! is awaited behind a part, nothing is left.
ghost use Rattle.std.specs.Prelude.{◌<◌, ◌≤◌, IfSome, length};

use crate::digits::after_number;
use crate::run::run_length;

/// Behind white space. A TAB is none, unless a line begins before it and nothing but blanks stands between.
#[inline(always)]
pub(crate) fn after_gap(text: &[u8]) -> &[u8]
    ensures { length result.now ≤ length text.now }
{
    match text {
        [first, ..] if *first > b' ' => text,
        _ => after_blanks(text),
    }
}

/// The same where mostly one space stands.
#[inline(always)]
pub(crate) fn after_space(text: &[u8]) -> &[u8]
    ensures { length result.now ≤ length text.now }
{
    let rest = match text {
        [b' ', rest @ ..] => rest,
        _ => text,
    };
    after_gap(rest)
}

#[inline(never)]
fn after_blanks(text: &[u8]) -> &[u8]
    ensures { length result.now ≤ length text.now }
{
    let mut rest = text;
    let mut begins = false;
    'blanks: while let [first, after @ ..] = rest {
        match first {
            b' ' => {}
            b'\n' | b'\r' => begins = true,
            b'\t' if begins => {}
            _ => return rest,
        }
        rest = after;
    }
    rest
}

/// Behind a string, a number or a word.
#[inline(always)]
pub(crate) fn after_scalar(text: &[u8]) -> Option<&[u8]>
    ensures { IfSome result (λ rest. length rest.now < length text.now) }
{
    match text {
        [b'"', rest @ ..] => after_string(rest),
        [b'-' | b'0'..=b'9', ..] => behind_number(text),
        _ => after_word(text),
    }
}

/// Behind a key, its colon, and the white space behind each.
#[inline(always)]
pub(crate) fn after_key(text: &[u8]) -> Option<&[u8]>
    ensures { IfSome result (λ rest. length rest.now ≤ length text.now) }
{
    let [b'"', rest @ ..] = text else {
        return None;
    };
    let end = after_gap(after_string(rest)?);
    match end {
        [b':', rest @ ..] => Some(after_space(rest)),
        [] => Some(end),
        _ => None,
    }
}

// Behind a string whose opening quotation mark stands before the text.
#[inline(always)]
fn after_string(text: &[u8]) -> Option<&[u8]>
    ensures { IfSome result (λ rest. length rest.now ≤ length text.now) }
{
    let rest = after_run(text);
    if let [b'"', after @ ..] = rest {
        return Some(after);
    }
    let end = after_escapes(rest);
    match end {
        [b'"', after @ ..] => Some(after),
        [] => Some(end),
        _ => None,
    }
}

#[inline(always)]
#[tactic(auto, using(crate::proofs::Longer::run_within))]
fn after_run(text: &[u8]) -> &[u8]
    ensures { length result.now ≤ length text.now }
{
    &text[run_length(text)..]
}

// Behind escapes and what stands as it is behind each.
#[inline(never)]
fn after_escapes(text: &[u8]) -> &[u8]
    ensures { length result.now ≤ length text.now }
{
    let mut rest = text;
    'parts: loop {
        let after = match rest {
            [b'\\', b'u', first, second, _, _, after @ ..] if !is_surrogate(*first, *second) => {
                after_digits(after)
            }
            [b'\\', letter, after @ ..] if is_letter(*letter) => after,
            [b'\\', ..] => return after_cut(rest),
            [b'"', ..] => return rest,
            _ => after_run(rest),
        };
        if after.len() >= rest.len() {
            return rest;
        }
        rest = after;
    }
}

// Behind escapes by four digits that stand one behind the other, as texts of other scripts have them. One of a surrogate is none.
// Other digits are not looked at: where they are none, the text is a fault in YAML too.
#[inline(always)]
fn after_digits(text: &[u8]) -> &[u8]
    ensures { length result.now ≤ length text.now }
{
    let mut rest = text;
    'digits: while let [b'\\', b'u', first, second, _, _, after @ ..] = rest {
        if is_surrogate(*first, *second) {
            return rest;
        }
        rest = after;
    }
    rest
}

// Whether a character may stand behind a backslash, with no digits behind it.
#[inline(always)]
fn is_letter(letter: u8) -> bool {
    matches!(
        letter,
        b'"' | b'\\' | b'/' | b'b' | b'f' | b'n' | b'r' | b't'
    )
}

// The end of the text, where it cuts the escape that stands here; else nothing is passed over.
fn after_cut(text: &[u8]) -> &[u8]
    ensures { length result.now ≤ length text.now }
{
    match text {
        [_, b'u', _, _, _, _, ..] => text,
        [_] | [_, b'u', ..] => &text[text.len()..],
        _ => text,
    }
}

// Whether these are the first two digits of a surrogate.
#[inline(always)]
fn is_surrogate(first: u8, second: u8) -> bool {
    matches!(first, b'd' | b'D') && second >= b'8'
}

#[tactic(auto, using(crate::proofs::Longer::number_nearer))]
fn behind_number(text: &[u8]) -> Option<&[u8]>
    ensures { IfSome result (λ rest. length rest.now < length text.now) }
{
    let rest = after_number(text)?;
    Some(rest)
}

fn after_word(text: &[u8]) -> Option<&[u8]>
    ensures { IfSome result (λ rest. length rest.now < length text.now) }
{
    match text {
        [b't', b'r', b'u', b'e', rest @ ..] => Some(rest),
        [b'n', b'u', b'l', b'l', rest @ ..] => Some(rest),
        [b'f', b'a', b'l', b's', b'e', rest @ ..] => Some(rest),
        _ => None,
    }
}
