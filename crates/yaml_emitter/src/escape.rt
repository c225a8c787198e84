//! Texts in double quotes (YAML 1.2, section 5.7).
ghost use Rattle.std.specs.Prelude.{◌≡◌, ◌<◌, ◌≤◌, chars, Some, MatchOption};
ghost use Rattle.std.specs.Str.{encode_utf8_all};
ghost use Rattle.defs_tree.specs.Escapes.{double_quoted, written_character, written_escapes, escaped_code, hexadecimal_digit};
ghost use Rattle.yaml_emitter.specs.Escaping.{inner_text, written_code};
ghost use Rattle.yaml_emitter.specs.Runs.{IsRun, IsRunCut};
ghost use Rattle.yaml_emitter.specs.Writing.{Writes};

use crate::runs::{Escaped, run_length};
use crate::writer::{Writer, put_ascii, put_char};
use std::fmt;

/// A text that is shown in double quotes: by `{}`, as the emitter writes it.
#[derive(Clone, Copy)]
pub struct DoubleQuoted<'a>(pub &'a str);

impl fmt::Display for DoubleQuoted<'_> {
    ghost output = { λ quoted. Some (encode_utf8_all (double_quoted (chars (inner_text quoted)))) };

    fn fmt<W: fmt::Write>(&self, f: &mut fmt::Formatter<W>) -> fmt::Result {
        write_double_quoted(f, self.0)
    }
}

/// Writes a text in double quotes. A quote, a backslash and the control characters are escaped.
pub fn write_double_quoted<W: Writer>(out: &mut W, text: &str) -> fmt::Result
    ensures { Writes W.put_gives W.put_leaves out.old result (double_quoted (chars text.now)) out.new }
{
    put_ascii(out, "\"")?;
    write_characters(out, text)?;
    put_ascii(out, "\"")
}

fn write_characters<W: Writer>(out: &mut W, text: &str) -> fmt::Result
    ensures { Writes W.put_gives W.put_leaves out.old result (written_escapes (chars text.now)) out.new }
{
    let mut rest = text;
    'runs: while let Some((front, c, after)) = first_escape(rest) {
        out.put(front)?;
        write_character(out, c)?;
        rest = after;
    }
    out.put(rest)
}

// The run before the first character that is escaped, that character, and what stands after it.
fn first_escape(text: &str) -> Option<(&str, char, &str)>
    ensures { MatchOption result (IsRun (chars text.now)) (λ x. IsRunCut text.now x.0.now x.1 x.2.now) }
{
    let (run, after) = text.split_at(run_length::<Escaped>(text.as_bytes()));
    let mut after = after.chars();
    let c = after.next()?;
    Some((run, c, after.as_str()))
}

// A quote, a backslash and the control characters are escaped.
#[tactic(auto, using(crate::proofs::RunLemmas::writes_escape, crate::proofs::RunLemmas::other_character), unfolding(defs_tree::specs::Escapes::written_character))]
fn write_character<W: Writer>(out: &mut W, c: char) -> fmt::Result
    ensures { Writes W.put_gives W.put_leaves out.old result (written_character c) out.new }
{
    match c {
        '"' => put_ascii(out, "\\\""),
        '\\' => put_ascii(out, "\\\\"),
        '\u{8}' => put_ascii(out, "\\b"),
        '\t' => put_ascii(out, "\\t"),
        '\n' => put_ascii(out, "\\n"),
        '\u{C}' => put_ascii(out, "\\f"),
        '\r' => put_ascii(out, "\\r"),
        _ => write_other(out, c),
    }
}

// A character that has no escape of its own.
fn write_other<W: Writer>(out: &mut W, c: char) -> fmt::Result
    ensures { Writes W.put_gives W.put_leaves out.old result (written_code c) out.new }
{
    if c < ' ' || c == '\u{7F}' {
        write_code(out, c as u32)
    } else {
        put_char(out, c)
    }
}

fn write_code<W: Writer>(out: &mut W, code: u32) -> fmt::Result
    requires { code < 256 }
    ensures { Writes W.put_gives W.put_leaves out.old result (escaped_code code) out.new }
{
    put_ascii(out, "\\u00")?;
    put_char(out, hexadecimal_digit(code / 16))?;
    put_char(out, hexadecimal_digit(code % 16))
}

fn hexadecimal_digit(digit: u32) -> char
    requires { digit < 16 }
    ensures { result ≡ hexadecimal_digit digit }
{
    if digit < 10 {
        char::from(b'0' + digit as u8)
    } else {
        char::from(b'a' + (digit - 10) as u8)
    }
}
