//! Literal blocks (YAML 1.2, section 8.1.2).
ghost use Rattle.std.specs.Prelude.{◌≡◌, ◌++◌, chars, not, ◌&&◌, ◌||◌, IsTrue, MatchOption, length, bytes_eq, take, drop};
ghost use Rattle.std.specs.List.{list_any, list_all};
ghost use Rattle.defs_tree.specs.Lines.{lines_of};
ghost use Rattle.defs_tree.specs.Literal.{is_literal_text, is_root_literal, is_literal_character, is_line_feed, begins_blank, begins_as_marker, literal_header};
ghost use Rattle.yaml_emitter.specs.At.{is_low, new_line, below};
ghost use Rattle.yaml_emitter.specs.Blocks.{has_clear_lines, is_clear, begins_well, begins_with_mark, last_line, IsUnbroken, IsFirstCut};
ghost use Rattle.yaml_emitter.specs.Writing.{Writes};

use crate::ends::{begins_with, ends_with};
use crate::line::break_line;
use crate::runs::{LineFeed, Unprintable, run_length};
use crate::writer::{Writer, put_ascii};
use std::fmt;
use yaml_chars::class;

/// Whether a string may be written as a literal block in an array or hash.
#[tactic(auto, using(crate::proofs::LiteralLemmas::literal))]
pub(crate) fn is_literal_text(text: &str) -> bool
    ensures { result ≡ is_literal_text (chars text.now) }
{
    has_clear_lines(text) && !ends_with(text, "\n\n")
}

/// The same at the root, where the lines stand in column 0.
#[tactic(auto, using(crate::proofs::LiteralLemmas::root_literal))]
pub(crate) fn is_root_literal(text: &str) -> bool
    ensures { result ≡ is_root_literal (chars text.now) }
{
    is_literal_text(text) && !begins_with(text, "\t") && !has_marker(text)
}

// The text has a line feed, fit characters alone, and a first full line that does not start with a space.
fn has_clear_lines(text: &str) -> bool
    ensures { result ≡ has_clear_lines (chars text.now) }
{
    has_line_feed(text) && is_clear(text)
}

fn has_line_feed(text: &str) -> bool
    ensures { result ≡ list_any is_line_feed (chars text.now) }
{
    first_cut(text).is_some()
}

fn is_clear(text: &str) -> bool
    ensures { result ≡ is_clear (chars text.now) }
{
    is_printable(text) && begins_well(text)
}

// Most texts are ASCII throughout.
fn is_printable(text: &str) -> bool
    ensures { result ≡ list_all is_literal_character (chars text.now) }
{
    let (_, rest) = text.split_at(run_length::<Unprintable>(text.as_bytes()));
    has_literal_characters(rest)
}

fn has_literal_characters(text: &str) -> bool
    ensures { result ≡ list_all is_literal_character (chars text.now) }
{
    text.chars().all(is_literal_character)
}

#[tactic(auto, using(crate::proofs::LiteralLemmas::literal_character))]
fn is_literal_character(c: char) -> bool
    ensures { result ≡ is_literal_character c }
{
    class::is_literal_character(c)
}

fn begins_well(text: &str) -> bool
    ensures { result ≡ begins_well (chars text.now) }
{
    'characters: for c in text.chars() {
        if c != '\n' {
            return c != ' ';
        }
    }
    false
}

// Whether a line is read as a document marker in column 0.
fn has_marker(text: &str) -> bool
    ensures { result ≡ list_any begins_as_marker (lines_of (chars text.now)) }
{
    let mut rest = text;
    'lines: while let Some((line, after)) = first_cut(rest) {
        if begins_as_marker(line) {
            return true;
        }
        rest = after;
    }
    begins_as_marker(rest)
}

// The first line, and what stands after its line feed.
fn first_cut(text: &str) -> Option<(&str, &str)>
    ensures { MatchOption result (IsUnbroken (chars text.now)) (λ x. IsFirstCut text.now x.0.now x.1.now) }
{
    let end = run_length::<LineFeed>(text.as_bytes());
    if end == text.len() {
        return None;
    }
    let (line, rest) = text.split_at(end);
    let (_, after) = rest.split_at(1);
    Some((line, after))
}

#[tactic(auto, using(crate::proofs::LiteralLemmas::marks))]
fn begins_as_marker(line: &str) -> bool
    ensures { result ≡ begins_as_marker (chars line.now) }
{
    begins_with_mark(line, "---") || begins_with_mark(line, "...")
}

#[tactic(auto, using(crate::proofs::LiteralLemmas::after_mark, crate::proofs::LiteralLemmas::no_mark))]
fn begins_with_mark(line: &str, mark: &str) -> bool
    requires low { IsTrue (is_low mark.now) }
    requires length { length mark.now ≡ 3 }
    ensures { result ≡ begins_with_mark mark.now (chars line.now) }
{
    match line.strip_prefix(mark) {
        Some(rest) => begins_blank(rest),
        None => false,
    }
}

fn begins_blank(text: &str) -> bool
    ensures { result ≡ begins_blank (chars text.now) }
{
    matches!(text.chars().next(), None | Some(' ' | '\t'))
}

/// Writes the header of a literal block, and its lines at the level.
#[inline(never)]
#[tactic(auto, using(crate::proofs::WritingLemmas::calls_in_a_row))]
pub(crate) fn write_literal<W: Writer>(out: &mut W, level: usize, text: &str) -> fmt::Result
    ensures { Writes W.put_gives W.put_leaves out.old result
        (literal_header (chars text.now) ++ below level (lines_of (chars text.now))) out.new }
{
    write_header(out, text)?;
    write_lines(out, level, text)
}

// The last break is kept if there is one.
fn write_header<W: Writer>(out: &mut W, text: &str) -> fmt::Result
    ensures { Writes W.put_gives W.put_leaves out.old result (literal_header (chars text.now)) out.new }
{
    if ends_with(text, "\n") {
        put_ascii(out, "|")
    } else {
        put_ascii(out, "|-")
    }
}

fn write_lines<W: Writer>(out: &mut W, level: usize, text: &str) -> fmt::Result
    ensures { Writes W.put_gives W.put_leaves out.old result (below level (lines_of (chars text.now))) out.new }
{
    let mut rest = text;
    'lines: while let Some((line, after)) = first_cut(rest) {
        write_line(out, level, line)?;
        rest = after;
    }
    write_last_line(out, level, rest)
}

fn write_line<W: Writer>(out: &mut W, level: usize, line: &str) -> fmt::Result
    ensures { Writes W.put_gives W.put_leaves out.old result (new_line level ++ chars line.now) out.new }
{
    break_line(out, level)?;
    out.put(line)
}

// An empty text after the last break is no line.
fn write_last_line<W: Writer>(out: &mut W, level: usize, line: &str) -> fmt::Result
    ensures { Writes W.put_gives W.put_leaves out.old result (last_line level (chars line.now)) out.new }
{
    if line.is_empty() {
        return Ok(());
    }
    write_line(out, level, line)
}
