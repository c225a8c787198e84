//! A key, a value and another scalar of a line, each taken at once of a text in memory.
ghost use Rattle.std.specs.Prelude.{◌<◌, ◌^◌};
ghost use Rattle.std.specs.Iterator.{IsFinite, size};

use std::alloc::{AllocError, Global};
use std::process::Abort;
use std::test::Fail;
use test_rows::Report;
use yaml_chars::{BlockLine, Characters, TextBuilder, TextInMemory, Window};

/// What it shows, a text, and what is taken of its first line: each text, with the index, line and column after it.
type Row = (&'static str, &'static str, &'static str);

const ROWS: [Row; 16] = [
    ("a pair", "key: value\nnext: x", "key 4 1 4, value 11 2 0"),
    (
        "the next line is indented",
        "k: v\n   n: x",
        "k 2 1 2, v 8 2 3",
    ),
    (
        "words of more than sixteen characters",
        "some words of a long key: and the words of a value, which is longer than two blocks\nn: x",
        "some words of a long key 25 1 25, and the words of a value, which is longer than two blocks 84 2 0",
    ),
    ("no value", "key:\n  n: x", "key 4 1 4, none 4 1 4"),
    ("no space after the colon", "key:value\nn: x", "none 0 1 0"),
    (
        "a space before the colon",
        "key : value\nn: x",
        "none 0 1 0",
    ),
    ("a quoted key", "'key': value\nn: x", "none 0 1 0"),
    ("a number sign", "k#y: value\nn: x", "none 0 1 0"),
    ("a key that is no ASCII", "ké: value\nn: x", "none 0 1 0"),
    ("the text ends after the key", "key:", "none 0 1 0"),
    (
        "two spaces before the value",
        "k:  v\nn: x",
        "k 2 1 2, none 2 1 2",
    ),
    (
        "a space after the value",
        "k: v \nn: x",
        "k 2 1 2, none 2 1 2",
    ),
    (
        "a colon in the value",
        "k: a:b\nn: x",
        "k 2 1 2, none 2 1 2",
    ),
    (
        "a next line that is deeper",
        "k: v\n    n: x",
        "k 2 1 2, none 2 1 2",
    ),
    ("an empty line", "k: v\n\nn: x", "k 2 1 2, none 2 1 2"),
    (
        "the text ends after the value",
        "k: v\n",
        "k 2 1 2, none 2 1 2",
    ),
];

/// The same where a key or another scalar may begin. The next line ends a scalar if it has fewer than four spaces.
const NODES: [Row; 12] = [
    ("a key", "key: value\nnext: x", "key key 4 1 4"),
    ("a key without a value", "key:\n  n: x", "key key 4 1 4"),
    ("a scalar", "some words\nnext", "scalar some words 11 2 0"),
    (
        "the next line is indented",
        "some words\n   next",
        "scalar some words 14 2 3",
    ),
    (
        "words of more than sixteen characters",
        "some words that are longer than one block\n- next",
        "scalar some words that are longer than one block 42 2 0",
    ),
    (
        "the next line goes on",
        "some words\n    more",
        "none 0 1 0",
    ),
    ("an empty line", "word\n\nnext", "none 0 1 0"),
    ("a comment", "word # c\nnext", "none 0 1 0"),
    ("a colon in a word", "a:b\nnext", "none 0 1 0"),
    ("an indicator", "- word\nnext", "none 0 1 0"),
    ("no ASCII", "mot à\nnext", "none 0 1 0"),
    ("the text ends", "word\n", "none 0 1 0"),
];

// What was taken, and where the window stands then.
fn shown<T: Characters>(
    alloc: Global,
    window: &Window<T>,
    taken: Option<TextBuilder>,
) -> Result<String, AllocError> {
    let mark = window.mark();
    match taken {
        Some(text) => {
            let word = text.into_string();
            format!(in alloc; "{word} {} {} {}", mark.index(), mark.line(), mark.col())
        }
        None => format!(in alloc; "none {} {} {}", mark.index(), mark.line(), mark.col()),
    }
}

// What is taken of the first line.
fn taken<T: Characters>(alloc: Global, source: T) -> Result<String, Fail>
    requires can { T.can_next source }
    requires finite { IsFinite (T.remaining source) }
    requires few { size (T.remaining source) < 2 ^ 63 }
{
    let mut window = Window::new(source);
    // A scanner has looked at the first character when it comes to a key.
    window.lookahead(1);
    let key = window.take_key(alloc)?;
    let has_key = key.is_some();
    let first = shown(alloc, &window, key)?;
    if !has_key {
        return Ok(first);
    }
    let value = window.take_value(alloc, 4)?;
    let second = shown(alloc, &window, value)?;
    Ok(format!(in alloc; "{first}, {second}")?)
}

// The key or the scalar that is taken first.
fn node_taken<T: Characters>(alloc: Global, source: T) -> Result<String, Fail>
    requires can { T.can_next source }
    requires finite { IsFinite (T.remaining source) }
    requires few { size (T.remaining source) < 2 ^ 63 }
{
    let mut window = Window::new(source);
    window.lookahead(1);
    let (kind, text) = match window.take_node(alloc, 4)? {
        Some(BlockLine::Key(text)) => ("key ", Some(text)),
        Some(BlockLine::Scalar(text)) => ("scalar ", Some(text)),
        None => ("", None),
    };
    let node = shown(alloc, &window, text)?;
    Ok(format!(in alloc; "{kind}{node}")?)
}

// Of each text is taken what its row says. All rows that fail are told.
fn rows_hold(rt: &(impl Abort + AllocGlobal), rows: &[Row]) -> Result<(), Fail> {
    let mut report = Report::new(rt.alloc());
    for (name, text, want) in rows {
        let found = taken(rt.alloc(), TextInMemory::new(text))?;
        report.compare(name, "taken", found.as_str(), want)?;
    }
    assert!(rt; report.is_empty(), "{report}");
    Ok(())
}

#[test]
fn lines_are_taken(rt: HostRuntime) -> Result<(), Fail> {
    rows_hold(&rt, &ROWS)
}

#[test]
fn nodes_are_taken(rt: HostRuntime) -> Result<(), Fail> {
    let mut report = Report::new(rt.alloc());
    for (name, text, want) in &NODES {
        let found = node_taken(rt.alloc(), TextInMemory::new(text))?;
        report.compare(name, "taken", found.as_str(), want)?;
    }
    assert!(rt; report.is_empty(), "{report}");
    Ok(())
}
