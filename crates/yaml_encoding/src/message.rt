//! The message of a malformation.
ghost use Rattle.std.specs.Prelude.{◌≡◌, ◌++◌, OnOk, IfOk, codes, decimal};
ghost use Rattle.defs_text.specs.Text.{string_chars};
ghost use Rattle.yaml_encoding.specs.Decoding.{listed};
ghost use Rattle.yaml_encoding.specs.Messages.{after};

use crate::growing::{push_number, push_text};
use std::alloc::{AllocError, Global};

/// Appends numbers, with a comma and a space before each.
fn push_others(text: &mut String, bytes: &[u8]) -> Result<(), AllocError>
    ensures { OnOk result (string_chars text.new ≡ string_chars text.old ++ after bytes.now) }
{
    'others: for byte in bytes {
        push_text(text, ", ")?;
        push_number(text, usize::from(*byte))?;
    }
    Ok(())
}

/// Appends numbers, with a comma and a space between two.
#[tactic(auto, using(crate::proofs::MessageLemmas::list_pushed, crate::proofs::MessageLemmas::nothing_pushed))]
fn push_list(text: &mut String, bytes: &[u8]) -> Result<(), AllocError>
    ensures { OnOk result (string_chars text.new ≡ string_chars text.old ++ listed bytes.now) }
{
    let Some((first, others)) = bytes.split_first() else {
        return Ok(());
    };
    push_number(text, usize::from(*first))?;
    push_others(text, others)?;
    Ok(())
}

/// The message of a malformation: its position, counted in bytes from the input's first, and its bytes.
pub(crate) fn message(
    alloc: Global,
    position: usize,
    malformed: &[u8],
) -> Result<String, AllocError>
    ensures { IfOk result (λ m. string_chars m ≡ codes "Invalid character sequence at " ++ decimal position ++ codes ": [" ++ listed malformed.now ++ codes "]") }
{
    let mut text = String::new(alloc);
    push_text(&mut text, "Invalid character sequence at ")?;
    push_number(&mut text, position)?;
    push_text(&mut text, ": [")?;
    push_list(&mut text, malformed)?;
    push_text(&mut text, "]")?;
    Ok(text)
}
