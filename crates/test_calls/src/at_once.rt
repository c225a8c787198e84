//! Keys and values of block mappings, each handed out with the token before it by one call.
ghost use Rattle.std.specs.Prelude.{◌^◌, ◌<◌};
ghost use Rattle.std.specs.Iterator.{IsFinite, size};

use std::alloc::Global;
use std::process::Abort;
use std::test::Fail;
use test_rows::Report;
use yaml_chars::{Characters, Marker, TextInMemory};
use yaml_parser::{Event, Parser};
use yaml_scanner::{PlainNode, Scanner};
use yaml_tokens::{TScalarStyle, TokenType};

/// What it shows, a text, and how many of its keys and values are handed out at once.
type Row = (&'static str, &'static str, &'static str);

const ROWS: [Row; 13] = [
    ("pairs", "a: b\nc: d\ne: f\n", "2 keys, 2 values"),
    (
        "a mapping in a mapping",
        "a:\n  b: c\n  d: e\nf: g\nh: i\n",
        "2 keys, 3 values",
    ),
    (
        "an array between",
        "a: b\nc:\n- d\nother: f\ng: h\n",
        "3 keys, 2 values",
    ),
    ("a quoted value", "a: b\nc: 'd'\ne: f\n", "2 keys, 1 values"),
    (
        "a value of two lines",
        "a: b\nc: d\n e\nother: g\n",
        "2 keys, 1 values",
    ),
    ("a comment", "a: b # c\nd: e\n", "0 keys, 0 values"),
    ("a marker", "a: b\n---\nc: d\n", "0 keys, 1 values"),
    ("in flow", "{a: b, c: d}\n", "0 keys, 0 values"),
    ("a fault", "a: b\nc: d\n  e: f\n", "1 keys, 1 values"),
    (
        "an array of words and mappings",
        "- a\n- b c\n- d: e\n  f: g\n- h\n",
        "1 keys, 2 values",
    ),
    (
        "words below a key",
        "a:\n- b\n- c d\ne:\n  f\ng: h\ni: j\n",
        "3 keys, 1 values",
    ),
    ("a word for a key", "a: b\nc\nd: e\n", "0 keys, 1 values"),
    (
        "a key after brackets that may be one",
        "a:\n- [? b]\ncd: e\nf: g\n",
        "1 keys, 1 values",
    ),
];

// The functions below have no contract, so that a row of calls makes no long proof.

// A token with its position.
fn tell(alloc: Global, out: &mut String, mark: Marker, kind: &TokenType) -> Result<(), Fail> {
    let word = format!(in alloc;
        "{kind:?} {} {} {}, ",
        mark.index(),
        mark.line(),
        mark.col()
    )?;
    out.push_str(word.as_str())?;
    Ok(())
}

// A token and the scalar after it.
fn tell_both(
    alloc: Global,
    out: &mut String,
    node: PlainNode,
    kind: &TokenType,
) -> Result<(), Fail> {
    tell(alloc, out, node.indicator, kind)?;
    let scalar = TokenType::Scalar(TScalarStyle::Plain, node.text);
    tell(alloc, out, node.mark, &scalar)
}

// The next token alone, or the fault. The result is whether there was a token.
fn tell_next<S: Characters>(
    alloc: Global,
    out: &mut String,
    scanner: &mut Scanner<S>,
) -> Result<bool, Fail> {
    match scanner.next_token() {
        Ok(Some(token)) => {
            tell(alloc, out, token.0, &token.1)?;
            Ok(true)
        }
        Ok(None) => Ok(false),
        Err(fault) => {
            out.push_str(format!(in alloc; "{fault}")?.as_str())?;
            Ok(false)
        }
    }
}

// The tokens of a text, one by one.
pub(crate) fn alone<S: Characters>(alloc: Global, source: S) -> Result<String, Fail>
    requires can { S.can_next source }
    requires finite { IsFinite (S.remaining source) }
    requires few { size (S.remaining source) < 2 ^ 63 }
{
    let mut out = String::new(alloc);
    let mut scanner = Scanner::new(alloc, source);
    for _ in 0..u64::MAX {
        if !tell_next(alloc, &mut out, &mut scanner)? {
            break;
        }
    }
    Ok(out)
}

// The tokens of a text, two at once where that can be, and how many keys and values were handed out so.
pub(crate) fn at_once<S: Characters>(alloc: Global, source: S) -> Result<(String, String), Fail>
    requires can { S.can_next source }
    requires finite { IsFinite (S.remaining source) }
    requires few { size (S.remaining source) < 2 ^ 63 }
{
    let mut out = String::new(alloc);
    let mut keys: u64 = 0;
    let mut values: u64 = 0;
    let mut scanner = Scanner::new(alloc, source);
    for _ in 0..u64::MAX {
        if let Some(node) = scanner.next_key()? {
            tell_both(alloc, &mut out, node, &TokenType::Key)?;
            keys = keys.saturating_add(1);
        } else if let Some(node) = scanner.next_value()? {
            tell_both(alloc, &mut out, node, &TokenType::Value)?;
            values = values.saturating_add(1);
        } else if !tell_next(alloc, &mut out, &mut scanner)? {
            break;
        }
    }
    Ok((out, format!(in alloc; "{keys} keys, {values} values")?))
}

// The events of a text with their positions, and its fault.
pub(crate) fn events<S: Characters>(alloc: Global, source: S) -> Result<String, Fail>
    requires can { S.can_next source }
    requires finite { IsFinite (S.remaining source) }
    requires few { size (S.remaining source) < 2 ^ 63 }
{
    let mut out = String::new(alloc);
    let mut parser = Parser::new(alloc, source);
    for _ in 0..u64::MAX {
        match parser.next_token() {
            Ok((Event::StreamEnd, _)) => break,
            Ok((event, mark)) => {
                let word = format!(in alloc;
                    "{event:?} {} {} {}, ",
                    mark.index(),
                    mark.line(),
                    mark.col()
                )?;
                out.push_str(word.as_str())?;
            }
            Err(fault) => {
                out.push_str(format!(in alloc; "{fault}")?.as_str())?;
                break;
            }
        }
    }
    Ok(out)
}

// Each text has the same tokens in both ways, and where its characters are asked for one by one. All rows that fail are told.
fn rows_hold(rt: &(impl Abort + AllocGlobal), rows: &[Row]) -> Result<(), Fail> {
    let mut report = Report::new(rt.alloc());
    for (name, text, want) in rows {
        let one_by_one = alone(rt.alloc(), TextInMemory::new(text))?;
        let (tokens, counts) = at_once(rt.alloc(), TextInMemory::new(text))?;
        let asked_for = alone(rt.alloc(), text.chars())?;
        report.compare(name, "scanned", tokens.as_str(), one_by_one.as_str())?;
        report.compare(name, "asked for", asked_for.as_str(), one_by_one.as_str())?;
        let parsed = events(rt.alloc(), TextInMemory::new(text))?;
        let asked_for = events(rt.alloc(), text.chars())?;
        report.compare(name, "parsed", parsed.as_str(), asked_for.as_str())?;
        report.compare(name, "counted", counts.as_str(), want)?;
    }
    assert!(rt; report.is_empty(), "{report}");
    Ok(())
}

#[test]
fn two_tokens_come_at_once(rt: HostRuntime) -> Result<(), Fail> {
    rows_hold(&rt, &ROWS)
}
