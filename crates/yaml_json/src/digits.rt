//! The bytes of a JSON number.
ghost use Rattle.std.specs.Prelude.{◌≡◌, IfSome};
ghost use Rattle.yaml_json.specs.Numbers.{IsMinus, IsWhole, IsFractionPart, IsExponentPart, IsSign, IsDigits, IsNumberPart};

use yaml_tree::decimal::{after_digits, begins_with_digit};

/// The text behind the number that it begins with.
#[inline(never)]
pub(crate) fn after_number(text: &[u8]) -> Option<&[u8]>
    ensures { IfSome result (λ rest. IsNumberPart text.now rest.now) }
{
    let whole = after_minus(text);
    let fraction = after_whole(whole)?;
    let exponent = after_fraction(fraction)?;
    after_exponent(exponent)
}

fn after_minus(text: &[u8]) -> &[u8]
    ensures { IsMinus text.now result.now }
{
    match text {
        [b'-', rest @ ..] => rest,
        _ => text,
    }
}

// A zero, or digits that do not begin with it.
fn after_whole(text: &[u8]) -> Option<&[u8]>
    ensures { IfSome result (λ rest. IsWhole text.now rest.now) }
{
    match text {
        [b'0', rest @ ..] => Some(rest),
        [b'1'..=b'9', rest @ ..] => Some(after_digits(rest)),
        _ => None,
    }
}

fn after_fraction(text: &[u8]) -> Option<&[u8]>
    ensures { IfSome result (λ rest. IsFractionPart text.now rest.now) }
{
    match text {
        [b'.', rest @ ..] => after_some_digits(rest),
        _ => Some(text),
    }
}

fn after_exponent(text: &[u8]) -> Option<&[u8]>
    ensures { IfSome result (λ rest. IsExponentPart text.now rest.now) }
{
    match text {
        [b'e', rest @ ..] => after_some_digits(after_sign(rest)),
        [b'E', rest @ ..] => after_some_digits(after_sign(rest)),
        _ => Some(text),
    }
}

fn after_sign(text: &[u8]) -> &[u8]
    ensures { IsSign text.now result.now }
{
    match text {
        [b'+' | b'-', rest @ ..] => rest,
        _ => text,
    }
}

#[tactic(auto, using(crate::proofs::ReadNumberLemmas::digits_read))]
fn after_some_digits(text: &[u8]) -> Option<&[u8]>
    ensures { IfSome result (λ rest. IsDigits text.now rest.now) }
{
    if !begins_with_digit(text) {
        return None;
    }
    Some(after_digits(text))
}
