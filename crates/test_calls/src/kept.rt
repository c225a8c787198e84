//! How much memory the texts of scalars keep.
ghost use Rattle.std.specs.Prelude.{◌^◌, ◌<◌};
ghost use Rattle.std.specs.Iterator.{IsFinite, size};

use std::alloc::Global;
use std::process::Abort;
use std::test::Fail;
use test_rows::Report;
use yaml_chars::{Characters, TextInMemory};
use yaml_scanner::Scanner;
use yaml_tokens::TokenType;

// What it shows, what stands before some letters and after them, how many bytes more the text has, and the least room that
// it begins with.
type Row = (&'static str, &'static str, &'static str, usize, usize);

const ROWS: [Row; 10] = [
    ("a literal of one line", "|\n  ", "\n", 1, 8),
    ("a literal of two lines", "|\n  ", "\n  b\n", 3, 8),
    ("a folded one", ">\n  ", "\n  b\n", 3, 8),
    ("in double quotes", "\"", "\"", 0, 8),
    (
        "in double quotes, with a break at the end",
        "\"",
        "\\n\"",
        1,
        8,
    ),
    (
        "in double quotes, with an escape inside",
        "\"a\\t",
        " b\"",
        4,
        8,
    ),
    ("in single quotes", "'", "'", 0, 8),
    ("in single quotes, with a quote inside", "'", "''b'", 2, 8),
    ("a plain one", "- ", "\n", 0, 24),
    ("a plain one with a late colon", "- ", ":b c\n", 4, 24),
];

// The functions below have no contract, so that many texts make no long proof.

// The room of a text whose characters were put in one by one: it doubles, from the least on.
fn doubled(len: usize, least: usize) -> usize {
    let mut room = least;
    for _ in 0..16 {
        if room < len {
            room = room.saturating_add(room);
        }
    }
    room
}

// The most room that the text of a scalar has.
fn most_kept<T: Characters>(alloc: Global, text: T) -> usize
    requires can { T.can_next text }
    requires finite { IsFinite (T.remaining text) }
    requires few { size (T.remaining text) < 2 ^ 63 }
{
    let mut most = 0;
    for token in Scanner::new(alloc, text) {
        if let TokenType::Scalar(_, text) = &token.1 {
            most = most.max(text.capacity());
        }
    }
    most
}

// With so many letters: whether no more is kept, of a text in memory and of its characters one by one.
fn is_kept_small(alloc: Global, row: &Row, count: usize) -> Result<bool, Fail> {
    let (_, before, after, more, least) = row;
    let mut text = String::from_str(alloc, before)?;
    for _ in 0..count {
        text.push('x')?;
    }
    text.push_str(after)?;
    let limit = doubled(count.saturating_add(*more), *least);
    let at_once = most_kept(alloc, TextInMemory::new(text.as_str()));
    let one_by_one = most_kept(alloc, text.as_str().chars());
    Ok(at_once > 0 && at_once <= limit && one_by_one <= limit)
}

// The first count of letters with which more is kept.
fn first_large(alloc: Global, row: &Row) -> Result<String, Fail> {
    for count in 1..301 {
        if !is_kept_small(alloc, row, count)? {
            return Ok(format!(in alloc; "{count}")?);
        }
    }
    Ok(String::from_str(alloc, "none")?)
}

// No text keeps more than if its characters had been put in one by one. All rows that fail are told.
#[test]
fn a_text_keeps_no_more_than_its_characters(rt: HostRuntime) -> Result<(), Fail> {
    let mut report = Report::new(rt.alloc());
    for row in &ROWS {
        let found = first_large(rt.alloc(), row)?;
        report.compare(row.0, "kept", found.as_str(), "none")?;
    }
    assert!(rt; report.is_empty(), "{report}");
    Ok(())
}
