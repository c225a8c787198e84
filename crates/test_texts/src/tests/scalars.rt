//! Scalars: quoted, plain, literal and folded (YAML 1.2, chapters 7.3 and 8.1).
use super::reading::{Row, rows_hold};
use std::test::Fail;

// What it shows, a text, and the trees that it loads as.
const SCALARS: [Row; 23] = [
    (
        "double quotes: lines are folded, an escaped break is none",
        "\"a  \n  b\n\n c\\\n   d\"",
        "[String(\"a b\\ncd\")]",
    ),
    (
        "single quotes: two are one",
        "'it''s'",
        "[String(\"it's\")]",
    ),
    (
        "escapes by code",
        "\"\\x41\\u00e9\\U0001F600\"",
        "[String(\"A\u{e9}\u{1f600}\")]",
    ),
    (
        "a plain scalar on several lines",
        "a\n b\n\n c",
        "[String(\"a b\\nc\")]",
    ),
    (
        "a character that is not ASCII",
        "[\"\u{e9}\", 1]",
        "[Array([String(\"\u{e9}\"), Integer(1)])]",
    ),
    (
        "four dashes are no document marker",
        "----",
        "[String(\"----\")]",
    ),
    (
        "`:` before a comma outside flow",
        "a:,b",
        "[String(\"a:,b\")]",
    ),
    (
        "`:` before a comma begins a plain scalar",
        ":,b",
        "[String(\":,b\")]",
    ),
    (
        "`?` before a letter begins a plain scalar",
        "?a",
        "[String(\"?a\")]",
    ),
    (
        "a folded block: more indented lines keep their breaks",
        ">\n a\n b\n\n c\n  d\n e\n",
        "[String(\"a b\\nc\\n d\\ne\\n\")]",
    ),
    (
        "a literal block: its first line sets the indentation",
        "a: |-\n                  a\n                      b\n",
        "[Hash({String(\"a\"): String(\"a\\n    b\")})]",
    ),
    (
        "an indentation indicator",
        "- |1\n  x\n",
        "[Array([String(\" x\\n\")])]",
    ),
    ("chomping: keep", "|+\na\n\n", "[String(\"a\\n\\n\")]"),
    ("chomping: strip", ">-\na\n\n", "[String(\"a\")]"),
    (
        "a last line of blanks",
        "a: |\n  x\n  ",
        "[Hash({String(\"a\"): String(\"x\\n\\n\")})]",
    ),
    (
        "a literal block without lines",
        "a: |",
        "[Hash({String(\"a\"): String(\"\")})]",
    ),
    (
        "a literal block without lines, after a break",
        "a: |\n",
        "[Hash({String(\"a\"): String(\"\\n\")})]",
    ),
    (
        "a literal block without lines, with strip",
        "a: |-\n",
        "[Hash({String(\"a\"): String(\"\")})]",
    ),
    (
        "a literal block with an empty line, with keep",
        "a: |+\n\n",
        "[Hash({String(\"a\"): String(\"\\n\")})]",
    ),
    (
        "keep, and a key after it",
        "a: |+\n\nb: 1",
        "[Hash({String(\"a\"): String(\"\\n\"), String(\"b\"): Integer(1)})]",
    ),
    (
        "a literal block longer than the window",
        "a: |\n  \u{e9}\u{e9}\u{e9}\u{e9}\u{e9}\u{e9}\u{e9}\u{e9}\u{e9}\u{e9}\u{e9}\u{e9}\u{e9}\u{e9}\u{e9}\u{e9}\u{e9}\u{e9}\u{e9}\u{e9}\nb: 1",
        "[Hash({String(\"a\"): String(\"\u{e9}\u{e9}\u{e9}\u{e9}\u{e9}\u{e9}\u{e9}\u{e9}\u{e9}\u{e9}\u{e9}\u{e9}\u{e9}\u{e9}\u{e9}\u{e9}\u{e9}\u{e9}\u{e9}\u{e9}\\n\"), String(\"b\"): Integer(1)})]",
    ),
    (
        "a literal block that a NUL ends",
        "|\n a\0b",
        "[String(\"a\\n\")]",
    ),
    (
        "a tag without content is an empty string",
        "!!str",
        "[String(\"\")]",
    ),
];

#[test]
fn scalars_are_read(rt: HostRuntime) -> Result<(), Fail> {
    rows_hold(&rt, &SCALARS)
}
