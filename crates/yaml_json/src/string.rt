//! JSON strings.
ghost use Rattle.std.specs.Prelude.{◌≡◌, ◌<◌, ◌∷◌, IfOk, IfSome};
ghost use Rattle.defs_text.specs.Text.{string_chars};
ghost use Rattle.defs_layout.specs.Marks.{double_quote};
ghost use Rattle.yaml_json.specs.Reads.{IsStringEnd, IsPart, IsEscape, IsCode, IsShort, TakesDigit};

use crate::cursor::Cursor;
use crate::stop::Stop;
use std::alloc::Global;

/// The string whose opening quotation mark stands before the place.
#[inline(always)]
pub(crate) fn read_string(alloc: Global, cursor: &mut Cursor<'_>) -> Result<String, Stop>
    ensures { IfOk result (λ string. IsStringEnd (string_chars string) cursor.old cursor.new) }
{
    let run = cursor.take_run();
    let string = String::from_str(alloc, run)?;
    if cursor.take(b'"') {
        return Ok(string);
    }
    read_escaped(string, cursor)
}

// What follows the start of a string, where it does not end there.
#[inline(never)]
fn read_escaped(start: String, cursor: &mut Cursor<'_>) -> Result<String, Stop>
    ensures { IfOk result (λ string. IsPart (string_chars start) (string_chars string) cursor.old (double_quote ∷ cursor.new)) }
{
    let mut string = start;
    'escapes: while cursor.take(b'\\') {
        let character = read_escape(cursor)?;
        string.push(character)?;
        let run = cursor.take_run();
        string.push_str(run)?;
    }
    if !cursor.take(b'"') {
        return Err(Stop::Foreign);
    }
    Ok(string)
}

// The character of an escape whose backslash stands before the place.
fn read_escape(cursor: &mut Cursor<'_>) -> Result<char, Stop>
    ensures { IfOk result (λ character. IsEscape character cursor.old cursor.new) }
{
    if cursor.take(b'u') {
        return read_code(cursor);
    }
    let letter = cursor.peek();
    let Some(character) = short_escape(letter) else {
        return Err(Stop::Foreign);
    };
    cursor.skip();
    Ok(character)
}

fn short_escape(letter: u8) -> Option<char>
    ensures { IfSome result (λ character. IsShort letter character) }
{
    match letter {
        b'"' => Some('"'),
        b'\\' => Some('\\'),
        b'/' => Some('/'),
        b'b' => Some('\u{8}'),
        b'f' => Some('\u{C}'),
        b'n' => Some('\n'),
        b'r' => Some('\r'),
        b't' => Some('\t'),
        _ => None,
    }
}

// The character of four hexadecimal digits, which is no surrogate.
fn read_code(cursor: &mut Cursor<'_>) -> Result<char, Stop>
    ensures { IfOk result (λ character. IsCode character cursor.old cursor.new) }
{
    let a = read_digit(cursor)?;
    let b = read_digit(cursor)?;
    let c = read_digit(cursor)?;
    let d = read_digit(cursor)?;
    let Some(character) = char::from_u32(a * 4096 + b * 256 + c * 16 + d) else {
        return Err(Stop::Foreign);
    };
    Ok(character)
}

#[inline(always)]
fn read_digit(cursor: &mut Cursor<'_>) -> Result<u32, Stop>
    ensures small { IfOk result (λ value. value < 16) }
    ensures digit { IfOk result (λ value. TakesDigit value cursor.old cursor.new) }
{
    let byte = cursor.peek();
    let Some(value) = char::from(byte).to_digit(16) else {
        return Err(Stop::Foreign);
    };
    cursor.skip();
    Ok(value)
}
