//! Strings that grow, as clauses see them: by characters.
ghost use Rattle.std.specs.Prelude.{◌≡◌, ◌++◌, [], ◌∷◌, OnOk, decimal, chars};
ghost use Rattle.defs_text.specs.Text.{string_chars};

use std::alloc::AllocError;
use std::fmt::Write;

/// Appends a character.
#[tactic(auto, using(yaml_chars::proofs::TextLemmas::string_chars_push))]
pub(crate) fn push(text: &mut String, c: char) -> Result<(), AllocError>
    ensures { OnOk result (string_chars text.new ≡ string_chars text.old ++ c ∷ []) }
{
    text.push(c)?;
    Ok(())
}

/// Appends the decimal number of a position or a byte.
#[tactic(auto, using(crate::proofs::GrowingLemmas::number_pushed))]
pub(crate) fn push_number(text: &mut String, number: usize) -> Result<(), AllocError>
    ensures { OnOk result (string_chars text.new ≡ string_chars text.old ++ decimal number) }
{
    write!(text, "{number}")
}

/// Appends a text.
#[tactic(auto, using(crate::proofs::GrowingLemmas::text_pushed))]
pub(crate) fn push_text(text: &mut String, more: &str) -> Result<(), AllocError>
    ensures { OnOk result (string_chars text.new ≡ string_chars text.old ++ chars more.now) }
{
    text.push_str(more)
}

/// Appends the replacement character, by its bytes.
#[tactic(auto, using(crate::proofs::GrowingLemmas::replacement_pushed))]
pub(crate) fn push_replacement(text: &mut String) -> Result<(), AllocError>
    ensures { OnOk result (string_chars text.new ≡ string_chars text.old ++ 0xFFFD ∷ []) }
{
    push_text(text, "\u{FFFD}")
}
