//! Writers that refuse a part of a JSON text.
use crate::refused_writes::{Refusing, Row, TextKind, rows_hold};
use std::alloc::Global;
use std::test::Fail;
use yaml_emitter::Writer;
use yaml_json::{JsonError, write_json, write_json_indented};
use yaml_tree::Yaml;

// The functions below have no contract, so that many calls make no long proof.

/// Writes a tree without white space, or in lines that are indented by so many spaces a level.
pub(crate) fn write<W: Writer>(
    alloc: Global,
    tree: &Yaml,
    width: Option<usize>,
    out: &mut W,
) -> Result<(), JsonError> {
    match width {
        None => write_json(alloc, tree, out),
        Some(width) => write_json_indented(alloc, tree, width, out),
    }
}

// How the writing of a text ends.
#[derive(Clone, Copy)]
enum End {
    Whole,
    Refused,
    // With another error.
    Other,
}

fn ended<W: Writer>(alloc: Global, tree: &Yaml, width: Option<usize>, out: &mut W) -> End {
    match write(alloc, tree, width, out) {
        Ok(()) => End::Whole,
        Err(JsonError::Refused(_)) => End::Refused,
        Err(_) => End::Other,
    }
}

// What stands in each writer before.
const BEFORE: &str = "before: ";

// What a writer that refuses after a number of calls has then, and how it ends.
fn written(alloc: Global, tree: &Yaml, width: Option<usize>, left: u32) -> (String, End) {
    let Ok(text) = String::from_str(alloc, BEFORE) else {
        return (String::new(alloc), End::Other);
    };
    let mut writer = Refusing { text, left };
    let end = ended(alloc, tree, width, &mut writer);
    (writer.text, end)
}

// What a `String` has, which takes the text whole.
fn taken_whole(alloc: Global, tree: &Yaml, width: Option<usize>) -> Option<String> {
    let mut text = String::from_str(alloc, BEFORE).ok()?;
    match ended(alloc, tree, width, &mut text) {
        End::Whole => Some(text),
        _ => None,
    }
}

// Whether a writer has what stood in it before, and of the text a beginning.
fn is_beginning(text: &str, whole: &str) -> bool {
    text.starts_with(BEFORE) && whole.starts_with(text)
}

// How many calls a tree's text takes: each of them is refused in turn. Or what is wrong.
fn calls(alloc: Global, tree: &Yaml, width: Option<usize>) -> Result<u32, &'static str> {
    let Some(whole) = taken_whole(alloc, tree, width) else {
        return Err("no text");
    };
    for left in 0..u32::MAX {
        let (text, end) = written(alloc, tree, width, left);
        match end {
            End::Whole if text == whole => return Ok(left),
            End::Refused if is_beginning(text.as_str(), whole.as_str()) => {}
            _ => return Err("another end"),
        }
    }
    Err("no end")
}

// JSON texts without white space and in lines.
struct JsonTexts;

impl TextKind for JsonTexts {
    fn fewest(&self, alloc: Global, tree: &Yaml) -> Result<u32, &'static str> {
        let compact = calls(alloc, tree, None)?;
        let in_lines = calls(alloc, tree, Some(33))?;
        Ok(compact.min(in_lines))
    }
}

const TEXTS: [Row; 5] = [
    ("a scalar", "~", 1),
    ("empty collections", "[[], {}]", 4),
    ("escapes", "\"a\\nb\\u0001\"", 2),
    (
        "numbers, booleans and keys",
        "{x: [~, true, -5, 1.5], y: z}",
        10,
    ),
    ("lines of more than 64 spaces", "[[[[a]]]]", 4),
];

#[test]
fn a_writer_that_refuses_json_is_answered(rt: HostRuntime) -> Result<(), Fail> {
    rows_hold(&rt, &TEXTS, &JsonTexts)
}
