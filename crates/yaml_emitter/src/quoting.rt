//! Which texts are written in double quotes (YAML 1.2, section 7.3.3).
ghost use Rattle.std.specs.Prelude.{◌≡◌, not, ◌||◌, map, chars, codes, nat_eq};
ghost use Rattle.std.specs.Char.{to_ascii_lowercase};
ghost use Rattle.std.specs.List.{list_any, ends_with};
ghost use Rattle.defs_tree.specs.Grammar.{is_among};
ghost use Rattle.defs_text.specs.Text.{is_empty};
ghost use Rattle.defs_tree.specs.Quoting.{is_quoted, has_outer_space, has_indicator_first, is_unfit_for_plain, reserved_words, is_float_word};
ghost use Rattle.defs_tree.specs.Typing.{typing, is_string, is_sign};
ghost use Rattle.defs_tree.proofs.GrammarLaws.{after_one};
ghost use Rattle.yaml_emitter.specs.Words.{is_unfit, is_word, is_name, float_names, begins_plainly, is_plain_letter, is_plain_small};

use crate::ends::{begins_with, ends_with};
use crate::runs::{Unfit, run_length};

/// Whether a plain scalar of the text would be read as something else than the text, here or by other
/// readers of YAML.
#[tactic(auto, using(crate::proofs::WordLemmas::quoted, crate::proofs::WordLemmas::plain_quoted))]
pub(crate) fn needs_quotes(text: &str) -> bool
    ensures { result ≡ is_quoted (chars text.now) }
{
    if begins_plainly(text.as_bytes()) {
        return is_unfit_behind(text);
    }
    is_unfit(text) || stands_for_word(text)
}

// Whether the first byte is a letter that begins none of the words below.
fn begins_plainly(text: &[u8]) -> bool
    ensures { result ≡ begins_plainly text.now }
{
    match text {
        [first, ..] => is_plain_letter(*first),
        [] => false,
    }
}

// A letter but `f`, `i`, `n`, `o`, `t` and `y`, in either case.
#[tactic(auto, using(crate::proofs::WordLemmas::small_letter))]
fn is_plain_letter(byte: u8) -> bool
    ensures { result ≡ is_plain_letter byte }
{
    is_plain_small(byte | 0x20)
}

fn is_plain_small(letter: u8) -> bool
    ensures { result ≡ is_plain_small letter }
{
    letter.is_ascii_lowercase() && !matches!(letter, b'f' | b'i' | b'n' | b'o' | b't' | b'y')
}

// What is left to be asked of a text that begins so.
fn is_unfit_behind(text: &str) -> bool
    ensures { result ≡ (ends_with nat_eq (chars text.now) (codes " ") || list_any is_unfit_for_plain (chars text.now)) }
{
    ends_with_space(text) || has_unfit_character(text)
}

fn ends_with_space(text: &str) -> bool
    ensures { result ≡ ends_with nat_eq (chars text.now) (codes " ") }
{
    match text.as_bytes() {
        [.., last] => *last == b' ',
        [] => false,
    }
}

// A text that cannot be written as one plain scalar.
fn is_unfit(text: &str) -> bool
    ensures { result ≡ is_unfit (chars text.now) }
{
    is_empty(text)
        || has_outer_space(text)
        || has_indicator_first(text)
        || begins_with(text, "0x")
        || has_unfit_character(text)
}

#[tactic(auto, using(crate::proofs::WordLemmas::empty_text))]
fn is_empty(text: &str) -> bool
    ensures { result ≡ is_empty (chars text.now) }
{
    text.is_empty()
}

fn has_outer_space(text: &str) -> bool
    ensures { result ≡ has_outer_space (chars text.now) }
{
    begins_with(text, " ") || ends_with(text, " ")
}

fn has_indicator_first(text: &str) -> bool
    ensures { result ≡ has_indicator_first (chars text.now) }
{
    matches!(
        text.chars().next(),
        Some('&' | '*' | '?' | '|' | '-' | '<' | '>' | '=' | '!' | '%' | '@' | '.')
    )
}

// The characters in question are all ASCII, and so a byte each.
fn has_unfit_character(text: &str) -> bool
    ensures { result ≡ list_any is_unfit_for_plain (chars text.now) }
{
    has_unfit_byte(text.as_bytes())
}

fn has_unfit_byte(bytes: &[u8]) -> bool
    ensures { result ≡ list_any is_unfit_for_plain bytes.now }
{
    run_length::<Unfit>(bytes) < bytes.len()
}

// A text that stands for something else, or that some reader takes for a boolean, for nothing or for a number.
fn stands_for_word(text: &str) -> bool
    ensures { result ≡ is_word (chars text.now) }
{
    is_name(text.as_bytes()) || !yaml_tree::is_string(text)
}

// The names are all ASCII.
fn is_name(text: &[u8]) -> bool
    ensures { result ≡ is_name text.now }
{
    is_reserved(text) || is_float_word(text)
}

// The words of booleans and of null, in YAML 1.2 and in earlier versions.
fn is_reserved(text: &[u8]) -> bool
    ensures { result ≡ is_among reserved_words text.now }
{
    match text {
        [b'~' | b'y' | b'Y' | b'n' | b'N'] => true,
        [b't', rest @ ..] => matches!(rest, b"rue"),
        [b'T', rest @ ..] => matches!(rest, b"rue" | b"RUE"),
        [b'f', rest @ ..] => matches!(rest, b"alse"),
        [b'F', rest @ ..] => matches!(rest, b"alse" | b"ALSE"),
        [b'n', rest @ ..] => matches!(rest, b"ull" | b"o"),
        [b'N', rest @ ..] => matches!(rest, b"ull" | b"ULL" | b"o" | b"O"),
        [b'y', rest @ ..] => matches!(rest, b"es"),
        [b'Y', rest @ ..] => matches!(rest, b"es" | b"ES"),
        [b'o', rest @ ..] => matches!(rest, b"n" | b"ff"),
        [b'O', rest @ ..] => matches!(rest, b"n" | b"N" | b"ff" | b"FF"),
        _ => false,
    }
}

// An infinity or `nan`, in any mixture of cases, with a sign or without.
#[tactic(auto, using(crate::proofs::WordLemmas::float_word))]
fn is_float_word(text: &[u8]) -> bool
    ensures { result ≡ is_float_word text.now }
{
    is_float_name(after_sign(text))
}

fn is_float_name(word: &[u8]) -> bool
    ensures { result ≡ is_among float_names (map to_ascii_lowercase word.now) }
{
    word.eq_ignore_ascii_case(b"inf")
        || word.eq_ignore_ascii_case(b"infinity")
        || word.eq_ignore_ascii_case(b"nan")
}

fn after_sign(text: &[u8]) -> &[u8]
    ensures { result.now ≡ after_one is_sign text.now }
{
    match text {
        [b'+' | b'-', rest @ ..] => rest,
        _ => text,
    }
}
