//! A first look at a text: whether it goes on as JSON.
ghost use Rattle.std.specs.Prelude.{◌<◌, ◌≤◌, IfSome, length};

use crate::behind::{after_gap, after_key, after_scalar, after_space};
use crate::levels::Levels;

// How many bytes are looked at. Up to here a text that begins as JSON and is none costs no more than the look, a twentieth of its load. A
// longer one is read as JSON in vain as far as it goes on as such, which is up to a third of its load.
const MOST: usize = 0x10_0000;

// A word or a number that the end of these bytes cuts is mostly shorter.
const CUT: usize = 32;

/// Whether a text that begins with a bracket is JSON of the class as far as it is looked at, but for keys that come twice. The look ends
/// at the first byte that does not fit.
#[inline(never)]
pub(crate) fn is_likely_json(text: &[u8]) -> bool {
    let part = first_bytes(text);
    let mut levels = Levels::new();
    let mut rest = part;
    'values: while let Some(after) = after_value(&mut levels, rest) {
        if levels.is_empty() {
            return after_gap(after).is_empty();
        }
        rest = after;
    }
    part.len() < text.len() && rest.len() < CUT
}

fn first_bytes(text: &[u8]) -> &[u8] {
    match text.get(..MOST) {
        Some(part) => part,
        None => text,
    }
}

// Where the next value stands, or behind the end of the outermost one.
#[inline(always)]
fn after_value<'a>(levels: &mut Levels, text: &'a [u8]) -> Option<&'a [u8]>
    ensures { IfSome result (λ rest. length rest.now < length text.now) }
{
    match text {
        [b'{', rest @ ..] => begin_object(levels, after_gap(rest)),
        [b'[', rest @ ..] => begin_array(levels, after_gap(rest)),
        _ => next_value(levels, after_scalar(text)?),
    }
}

// The same behind an object's brace and the white space behind it.
#[inline(always)]
fn begin_object<'a>(levels: &mut Levels, text: &'a [u8]) -> Option<&'a [u8]>
    ensures { IfSome result (λ rest. length rest.now ≤ length text.now) }
{
    if !levels.open(true) {
        return None;
    }
    match text {
        [b'}', ..] => next_value(levels, text),
        _ => after_key(text),
    }
}

// The same of an array.
#[inline(always)]
fn begin_array<'a>(levels: &mut Levels, text: &'a [u8]) -> Option<&'a [u8]>
    ensures { IfSome result (λ rest. length rest.now ≤ length text.now) }
{
    if !levels.open(false) {
        return None;
    }
    match text {
        [b']', ..] => next_value(levels, text),
        _ => Some(text),
    }
}

// The same behind a value, or before the end of an empty collection.
#[inline(always)]
fn next_value<'a>(levels: &mut Levels, text: &'a [u8]) -> Option<&'a [u8]>
    ensures { IfSome result (λ rest. length rest.now ≤ length text.now) }
{
    let mut rest = text;
    'levels: while !levels.is_empty() {
        rest = after_gap(rest);
        rest = match (rest, levels.is_in_object()) {
            ([b',', after @ ..], true) => return after_key(after_space(after)),
            ([b',', after @ ..], false) => return Some(after_space(after)),
            ([b'}', after @ ..], true) => after,
            ([b']', after @ ..], false) => after,
            ([], _) => return Some(rest),
            _ => return None,
        };
        levels.close();
    }
    Some(rest)
}
