//! The text of an input.
ghost use Rattle.std.specs.Prelude.{◌≡◌, ◌<◌, length};
ghost use Rattle.defs_text.specs.Text.{string_chars};
ghost use Rattle.yaml_encoding.specs.Decoding.{text, parts, ignored, replaced, strict, IsDecodedByCalls};
ghost use Rattle.yaml_encoding.specs.Encodings.{encoding_of};
ghost use Rattle.yaml_encoding.specs.Outcomes.{OutcomeIs, Passes};
ghost use Rattle.yaml_encoding.specs.Steps.{IsStep, steps_by};

use crate::encoding::{Encoding, chosen_encoding};
use crate::growing::{push, push_text};
use crate::malformation::{Malformation, trapped};
use crate::stop::Stop;
use crate::trap::YAMLDecodingTrap;
use crate::valid::text_ahead;
use std::alloc::Global;

/// Reads some of an input at a position, and returns the position after it: in UTF-8 text if it begins
/// with an ASCII byte, else one part.
fn read_some(
    encoding: Encoding,
    trap: YAMLDecodingTrap,
    input: &[u8],
    position: usize,
    text: &mut String,
) -> Result<usize, Stop>
    requires { position < length input.now }
    ensures { Passes (steps_by (λ f. IsStep (post f.function)) trap) (encoding_of encoding) input.now position (string_chars text.old) (string_chars text.new) result }
{
    let rest = &input[position..];
    if encoding.is_utf_8() && input[position] < 128 {
        let valid = text_ahead(rest);
        push_text(text, valid)?;
        return Ok(position + valid.len());
    }
    let sequence = encoding.sequence(rest);
    let after = position + usize::from(sequence.bytes);
    let Some(c) = sequence.character else {
        let malformation = Malformation {
            position,
            bytes: sequence.bytes,
            ahead: sequence.ahead,
        };
        return match trapped(trap, malformation, rest, text) {
            Ok(()) => Ok(after),
            Err(stop) => Err(stop),
        };
    };
    push(text, c)?;
    Ok(after)
}

/// The text of an input: by calls of the trap at each malformation.
fn decoded(alloc: Global, input: &[u8], trap: YAMLDecodingTrap) -> Result<String, Stop>
    ensures { OutcomeIs result (IsDecodedByCalls (steps_by (λ f. IsStep (post f.function)) trap) input.now) }
{
    let chosen = chosen_encoding(input);
    let mut text = String::with_capacity(alloc, input.len())?;
    let mut position = chosen.mark;
    'parts: while position < input.len() {
        position = read_some(chosen.encoding, trap, input, position, &mut text)?;
    }
    Ok(text)
}

/// The text of an input. The encoding is that of the byte order mark, which is no part of the text. Without a mark it
/// is UTF-16 if just one of the first two bytes is NUL: big endian if it is the first, little endian if it is the
/// second. Else it is UTF-8 (YAML 1.2, section 5.2). Malformations are those of the WHATWG Encoding standard,
/// sections 8.1.1 and 14.4, and the trap says what becomes of each.
///
/// # Errors
///
/// [`Stop::Message`] if the trap stops at a malformation: `Strict` at the first, `Call` when its function breaks, the
/// others never. [`Stop::OutOfMemory`] if memory was refused; no clause says when it is not.
pub fn text_of(alloc: Global, input: &[u8], trap: YAMLDecodingTrap) -> Result<String, Stop>
    ensures ignore { trap ≡ YAMLDecodingTrap.Ignore → OutcomeIs result (λ o. o ≡ text (ignored (parts input.now))) }
    ensures replace { trap ≡ YAMLDecodingTrap.Replace → OutcomeIs result (λ o. o ≡ text (replaced (parts input.now))) }
    ensures strict { trap ≡ YAMLDecodingTrap.Strict → OutcomeIs result (λ o. o ≡ strict (parts input.now)) }
    ensures call { (f : _) → trap ≡ YAMLDecodingTrap.Call f → OutcomeIs result (IsDecodedByCalls (IsStep (post f.function)) input.now) }
{
    decoded(alloc, input, trap)
}
