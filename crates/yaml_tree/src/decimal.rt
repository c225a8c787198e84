//! The parts of a decimal number, on the bytes of its text: those that YAML and JSON write alike.
ghost use Rattle.std.specs.Prelude.{◌≡◌};
ghost use Rattle.std.specs.Char.{is_ascii_digit};
ghost use Rattle.defs_tree.specs.Grammar.{at_least_one};
ghost use Rattle.defs_tree.specs.Typing.{is_sign};
ghost use Rattle.defs_tree.proofs.GrammarLaws.{after_all, after_one};
ghost use Rattle.defs_tree.proofs.DecimalReading.{begins_in, reads_exponent};

/// Whether the text is an exponent, up to its end, or empty. An exponent is `e` or `E`, a sign or none, and digits.
pub fn is_exponent(text: &[u8]) -> bool
    ensures { result ≡ reads_exponent text.now }
{
    match text {
        [] => true,
        [b'e' | b'E', rest @ ..] => are_digits(after_sign(rest)),
        _ => false,
    }
}

#[tactic(auto, using(crate::proofs::DecimalLemmas::digits_only))]
fn are_digits(text: &[u8]) -> bool
    ensures { result ≡ at_least_one is_ascii_digit text.now }
{
    match after_digits(text) {
        [] => begins_with_digit(text),
        _ => false,
    }
}

/// Whether the first byte is a digit.
pub fn begins_with_digit(text: &[u8]) -> bool
    ensures { result ≡ begins_in is_ascii_digit text.now }
{
    match text {
        [first, ..] => first.is_ascii_digit(),
        [] => false,
    }
}

// The text after its sign; the whole text where it has none.
pub(crate) fn after_sign(text: &[u8]) -> &[u8]
    ensures { result.now ≡ after_one is_sign text.now }
{
    match text {
        [b'+' | b'-', rest @ ..] => rest,
        _ => text,
    }
}

/// The text after the digits that it begins with.
pub fn after_digits(text: &[u8]) -> &[u8]
    ensures { result.now ≡ after_all is_ascii_digit text.now }
{
    let mut rest = text;
    while let [first, after @ ..] = rest {
        if !first.is_ascii_digit() {
            return rest;
        }
        rest = after;
    }
    rest
}
