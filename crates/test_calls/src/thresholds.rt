//! Texts that stand in memory and whose characters are asked for one by one, on both sides of the lengths where they are read in
//! two ways.
use crate::at_once::{alone, at_once, events};
use std::alloc::Global;
use std::process::Abort;
use std::test::Fail;
use test_rows::Report;
use yaml_chars::TextInMemory;

/// What it shows, what a text begins with, what is repeated then, and what the text ends with.
type Row = (&'static str, &'static str, &'static str, &'static str);

/// A key is looked for in 1,024 characters.
const KEYS: [Row; 16] = [
    ("the first key", "", "k", ": v\nn: w\n"),
    ("another key", "a: b\n", "k", ": v\nn: w\n"),
    ("a key below a key", "a:\n  ", "k", ": v\nb: c\n"),
    ("a key of words", "a: b\nw ", "k", " w: v\nn: w\n"),
    ("a key that is no ASCII", "a: b\n", "é", ": v\nn: w\n"),
    ("a key after one end", "a:\n  b: c\n", "k", ": v\nd: e\n"),
    (
        "a key after two ends",
        "a:\n  b:\n    c: d\n",
        "k",
        ": v\ne: f\n",
    ),
    (
        "a key of a mapping in an array",
        "- ",
        "k",
        ": v\n  n: w\n- x\n",
    ),
    ("a scalar below a key", "a:\n  ", "k", "\nb: c\n"),
    ("a pair in flow", "[", "k", ": v, b: c]\n"),
    ("a pair in flow with spaces", "[ ", "k", " : v , b : c ]\n"),
    ("a quoted key in flow", "[\"", "k", "\":v, b: c]\n"),
    ("a quoted key", "a: b\n'", "k", "': v\nn: w\n"),
    ("brackets for a key", "- [? b]\n- [", "k", "]: v\n"),
    ("a pair in brackets for a key", "- [? ", "k", "]: v\n"),
    (
        "a key after brackets that may be one",
        "a:\n- [? b]\n",
        "k",
        ": v\nc: d\n",
    ),
];

/// Sixteen bytes of a text in memory are looked at by one step. These are scalars, comments and blanks outside flow.
const RUNS: [Row; 20] = [
    ("a key", "a: b\n", "r", ": v\nc: d\n"),
    ("a value", "a: ", "r", "\nb: c\n"),
    ("words", "a: b ", "r", " c d\ne: f\n"),
    ("a word that is no ASCII", "a: b", "é", "r\nc: d\n"),
    ("a value of two lines", "a: ", "r", "\n  b\nc: d\n"),
    ("a word with a colon", "a: ", "r", ":b\nc: d\n"),
    ("a value before a comment", "a: ", "r", " # b\nc: d\n"),
    ("a value before CR LF", "a: ", "r", "\r\nb: c\r\n"),
    ("an entry", "- ", "r", "\n- b\n"),
    ("single quotes", "a: '", "r", "'\nb: c\n"),
    ("a quote in single quotes", "a: '", "r", "''s'\nb: c\n"),
    ("double quotes", "a: \"", "r", "\"\nb: c\n"),
    ("an escape", "a: \"", "r", "\\n\"\nb: c\n"),
    ("two lines in quotes", "a: \"b ", "r", "\n  c\"\nd: e\n"),
    ("a literal line", "a: |\n  ", "r", "\n  b\nc: d\n"),
    ("a folded line", "a: >-\n  ", "r", " b\n  c\nd: e\n"),
    ("a line before CR LF", "a: |\r\n  ", "r", "\r\nb: c\r\n"),
    ("a comment", "a: b # ", "r", "\nc: d\n"),
    ("indentation", "a:\n", " ", "b: c\nd: e\n"),
    ("spaces before a value", "a:", " ", "b\nc: d\n"),
];

/// The same in flow.
const FLOW: [Row; 16] = [
    ("an item", "[", "r", "]\na"),
    ("an item before another", "[", "r", ", b]\n"),
    ("a pair", "[", "r", ": v]\n"),
    ("a pair with spaces", "[ ", "r", " : v ]\n"),
    ("a pair before another", "[", "r", ": v, b: c]\n"),
    (
        "a pair before another, with spaces",
        "[ ",
        "r",
        " : v , b : c ]\n",
    ),
    ("a value in a pair", "[k: ", "r", "]\n"),
    ("a value in a pair with spaces", "[ k : ", "r", " ]\n"),
    ("a key alone", "[? ", "r", "]\n"),
    ("a quoted key", "[\"", "r", "\":v]\n"),
    ("a value alone", "[: ", "r", ", b]\n"),
    ("a pair in a mapping", "{", "r", ": v, b}\n"),
    ("a pair on two lines", "[a,\n", "r", ": v\n, b]\n"),
    ("a pair before a key", "a:\n- [", "r", ": v]\nb: c\nd: e\n"),
    ("a pair before a word", "- [? ", "r", "]\n- b c\n- d\n"),
    ("brackets for a key", "a: b\n? [", "r", ": v]\n: c\n"),
];

/// The fewer spaces stand before a key, the more collections end before it.
const ENDS: [Row; 12] = [
    (
        "pairs",
        "a:\n  b:\n    c:\n      d: e\n",
        "  ",
        "key: v\nlast: w\n",
    ),
    (
        "an array below the key",
        "a:\n  b:\n    c:\n      d: e\n",
        "  ",
        "key:\n- v\nlast: w\n",
    ),
    ("arrays", "- - - a: b\n", "  ", "key: v\n"),
    (
        "arrays below keys",
        "a:\n  b:\n    c:\n    - d\n",
        "  ",
        "key: v\nlast: w\n",
    ),
    (
        "a literal",
        "a:\n  b:\n    c: |\n      d\n",
        "  ",
        "key: v\nlast: w\n",
    ),
    (
        "columns where no mapping stands",
        "a:\n    b:\n        c: d\n",
        "  ",
        "key: v\n",
    ),
    (
        "brackets",
        "a:\n  b:\n    c:\n      - [d, e]\n",
        "  ",
        "key: v\nlast: w\n",
    ),
    (
        "a pair in brackets",
        "a:\n  b:\n    c:\n      - [d: e]\n",
        "  ",
        "key: v\nlast: w\n",
    ),
    (
        "a pair with spaces",
        "a:\n  b:\n    c:\n      - [ d : e ]\n",
        "  ",
        "key: v\nlast: w\n",
    ),
    (
        "a key alone in brackets",
        "a:\n  b:\n    c:\n      - [? d]\n",
        "  ",
        "key: v\nlast: w\n",
    ),
    (
        "a pair in brackets on the key's line",
        "a:\n  b:\n    c: [d: e]\n",
        "  ",
        "key: v\nlast: w\n",
    ),
    ("a word", "a:\n  b:\n    c: d\n", "  ", "word\nlast: w\n"),
];

// The functions below have no contract, so that a row of calls makes no long proof.

// The text of a row, with so many of what is repeated.
fn made(alloc: Global, row: &Row, count: u32) -> Result<String, Fail> {
    let (_, head, repeated, tail) = row;
    let mut text = String::from_str(alloc, head)?;
    for _ in 0..count {
        text.push_str(repeated)?;
    }
    text.push_str(tail)?;
    Ok(text)
}

// A text should have the same tokens, events, positions and fault in both ways.
fn compare_readings(
    alloc: Global,
    report: &mut Report,
    name: &str,
    text: &str,
) -> Result<(), Fail> {
    let one_by_one = alone(alloc, text.chars())?;
    let in_memory = alone(alloc, TextInMemory::new(text))?;
    report.compare(name, "scanned", in_memory.as_str(), one_by_one.as_str())?;
    let (two_by_two, _) = at_once(alloc, TextInMemory::new(text))?;
    report.compare(
        name,
        "scanned at once",
        two_by_two.as_str(),
        one_by_one.as_str(),
    )?;
    let one_by_one = events(alloc, text.chars())?;
    let in_memory = events(alloc, TextInMemory::new(text))?;
    report.compare(name, "parsed", in_memory.as_str(), one_by_one.as_str())?;
    Ok(())
}

// A row's texts are read alike, with each count between two.
fn row_holds(
    alloc: Global,
    report: &mut Report,
    row: &Row,
    first: u32,
    last: u32,
) -> Result<(), Fail> {
    for count in first..=last {
        let text = made(alloc, row, count)?;
        compare_readings(alloc, report, row.0, text.as_str())?;
    }
    Ok(())
}

// Each row's texts are read alike. All rows that fail are told.
fn rows_hold(
    rt: &(impl Abort + AllocGlobal),
    rows: &[Row],
    first: u32,
    last: u32,
) -> Result<(), Fail> {
    let mut report = Report::new(rt.alloc());
    for row in rows {
        row_holds(rt.alloc(), &mut report, row, first, last)?;
    }
    assert!(rt; report.is_empty(), "{report}");
    Ok(())
}

#[test]
fn keys_of_any_length_are_read_alike(rt: HostRuntime) -> Result<(), Fail> {
    rows_hold(&rt, &KEYS, 1022, 1026)
}

#[test]
fn runs_of_any_length_are_read_alike(rt: HostRuntime) -> Result<(), Fail> {
    rows_hold(&rt, &RUNS, 14, 18)
}

#[test]
fn flow_of_any_length_is_read_alike(rt: HostRuntime) -> Result<(), Fail> {
    rows_hold(&rt, &FLOW, 14, 18)
}

#[test]
fn keys_after_any_ends_are_read_alike(rt: HostRuntime) -> Result<(), Fail> {
    rows_hold(&rt, &ENDS, 0, 3)
}
