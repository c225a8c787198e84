//! Texts that are refused.
use super::reading::{Row, parser, pulled, rows_hold};
use std::alloc::Global;
use std::process::Abort;
use std::test::Fail;
use test_rows::Report;

// What it shows, a text, and its fault's printed line: tokens that may not stand where they stand.
const MISPLACED: [Row; 49] = [
    (
        "a sequence without its bracket",
        "[a",
        "while parsing a flow sequence, expected ',' or ']' at byte 2 line 2 column 1",
    ),
    (
        "a sequence of a number without its bracket",
        "[1",
        "while parsing a flow sequence, expected ',' or ']' at byte 2 line 2 column 1",
    ),
    (
        "a mapping without its brace",
        "{a: 1",
        "while parsing a flow mapping, did not find expected ',' or '}' at byte 5 line 2 column 1",
    ),
    (
        "a later fault comes before a key twice",
        "a: 1\na: 2\nb: [",
        "while parsing a node, did not find expected node content at byte 14 line 4 column 1",
    ),
    (
        "a dash in a block mapping",
        "a: 1\n- b",
        "while parsing a block mapping, did not find expected key at byte 7 line 2 column 3",
    ),
    (
        "`?` in a block sequence",
        "- a\n? b",
        "while parsing a block collection, did not find expected '-' indicator at byte 4 line 2 column 1",
    ),
    (
        "a node after an item, further in than the dash",
        "- [a]\n [b]",
        "while parsing a block collection, did not find expected '-' indicator at byte 7 line 2 column 2",
    ),
    (
        "a directive without a document",
        "%YAML 1.2\nfoo",
        "did not find expected <document start> at byte 10 line 2 column 1",
    ),
    (
        "a directive without `...` before it",
        "--- \"a\"\n%YAML 1.2\n---\n",
        "missing explicit document end marker before directive at byte 8 line 2 column 1",
    ),
    (
        "a directive after a block sequence, without `...` before it",
        "- a\n%YAML 1.2\n",
        "missing explicit document end marker before directive at byte 4 line 2 column 1",
    ),
    (
        "a directive right after `---`",
        "---\n%YAML 1.2\n---\n",
        "missing explicit document end marker before directive at byte 4 line 2 column 1",
    ),
    (
        "a directive in a flow sequence",
        "[\n%YAML 1.2\n",
        "while parsing a node, did not find expected node content at byte 2 line 2 column 1",
    ),
    (
        "a bracket after a document",
        "[a]]",
        "did not find expected <document start> at byte 3 line 1 column 4",
    ),
    (
        "a bracket after a sequence without indentation",
        "a:\n- b\n]",
        "while parsing a block mapping, did not find expected key at byte 7 line 3 column 1",
    ),
    (
        "a bracket after a key in braces",
        "{? a]",
        "while parsing a flow mapping, did not find expected ',' or '}' at byte 4 line 1 column 5",
    ),
    (
        "a key that begins on the line before",
        "\n# syntax error\nscalar\nkey: [1, 2]]\nkey1:a2\n",
        "mapping values are not allowed in this context at byte 26 line 4 column 4",
    ),
    (
        "a key without `:` at the end",
        "- a\nb",
        "simple key expected at byte 5 line 3 column 1",
    ),
    (
        "only a TAB between `:` and a dash",
        "a:\t- b",
        "':' must be followed by a valid YAML whitespace at byte 3 line 1 column 4",
    ),
    (
        "a node further in than its mapping, after a comment",
        "k: a\n\t# c\n  b",
        "while parsing a block mapping, did not find expected key at byte 12 line 3 column 3",
    ),
    (
        "a dash in flow",
        "{-",
        "\"-\" is only valid inside a block at byte 1 line 1 column 2",
    ),
    (
        "a dash before a bracket, after a scalar",
        "[a -]",
        "plain scalar cannot start with '-' followed by ,[]{} at byte 3 line 1 column 4",
    ),
    (
        "a dash before a bracket, on a line of its own",
        "[a\n-]",
        "plain scalar cannot start with '-' followed by ,[]{} at byte 3 line 2 column 1",
    ),
    (
        "content after `...`",
        "--- a\n... b",
        "invalid content after document end marker at byte 10 line 2 column 5",
    ),
    (
        "content after double quotes",
        "\"foo\" l",
        "invalid trailing content after double-quoted scalar at byte 6 line 1 column 7",
    ),
    (
        "NUL in a sequence",
        "[a\0]",
        "while parsing a flow sequence, expected ',' or ']' at byte 2 line 2 column 1",
    ),
    (
        "an alias without anchor",
        "*a",
        "while parsing node, found unknown anchor at byte 0 line 1 column 1",
    ),
    (
        "an alias for an anchor of the document before",
        "--- &a 1\n--- *a",
        "while parsing node, found unknown anchor at byte 13 line 2 column 5",
    ),
    (
        "a handle that is not declared",
        "&x !h!a b",
        "the handle wasn't declared at byte 0 line 1 column 1",
    ),
    (
        "a handle that is not declared, before a key",
        "a: 1\n&x !h!a b: c",
        "the handle wasn't declared at byte 5 line 2 column 1",
    ),
    (
        "a handle is forgotten at the next document",
        "%TAG !prefix! tag:example.com,2011:\n--- !prefix!A\na: b\n--- !prefix!B\nc: d\n--- !prefix!C\ne: f",
        "the handle wasn't declared at byte 59 line 4 column 5",
    ),
    (
        "a handle beside a version is forgotten at the next document",
        "%YAML 1.1\n%TAG !t! tag:test,2024:\n--- !t!1 &1\nfoo: \"bar\"\n--- !t!2 &2\nbaz: \"qux\"\n",
        "the handle wasn't declared at byte 61 line 5 column 5",
    ),
    (
        "a handle that is declared twice",
        "%TAG !a! x:\n%TAG !a! y:\n--- b",
        "the TAG directive must only be given at most once per handle in the same document at byte 12 line 2 column 1",
    ),
    (
        "two versions",
        "%YAML 1.2\n%YAML 1.2\n---",
        "duplicate version directive at byte 10 line 2 column 1",
    ),
    (
        "only a TAB between two dashes",
        "-\t-",
        "'-' must be followed by a valid YAML whitespace at byte 2 line 1 column 3",
    ),
    (
        "a dash after a flow collection",
        "[]-",
        "block sequence entries are not allowed in this context at byte 2 line 1 column 3",
    ),
    (
        "a comment without a blank before it",
        ",#",
        "comments must be separated from other tokens by whitespace at byte 1 line 1 column 2",
    ),
    (
        "`?` at the end of the text",
        "?",
        "expected whitespace at byte 1 line 1 column 2",
    ),
    (
        "a pair of a sequence with its `:` on the next line",
        "[a\n: b]",
        "illegal placement of ':' indicator at byte 3 line 2 column 1",
    ),
    (
        "a token in flow further left than its block mapping",
        ": {\n- ",
        "invalid indentation at byte 4 line 2 column 1",
    ),
    (
        "a plain scalar in flow further left than its block mapping",
        "s:\n  - [a:\n  b: c",
        "invalid indentation in flow construct at byte 13 line 3 column 3",
    ),
    (
        "`?` after a flow collection",
        "[]?",
        "mapping keys are not allowed in this context at byte 2 line 1 column 3",
    ),
    (
        "a dash before a comma in flow",
        "[-,",
        "plain scalar cannot start with '-' followed by ,[]{} at byte 1 line 1 column 2",
    ),
    (
        "a key without `:` on its line",
        "-\na\n",
        "simple key expect ':' at byte 4 line 3 column 1",
    ),
    (
        "a TAB after `?` and a space",
        "? \t",
        "tabs disallowed in this context at byte 2 line 1 column 3",
    ),
    (
        "a TAB as the indentation of an item",
        "-\n\ta",
        "tabs disallowed within this context (block indentation) at byte 3 line 2 column 2",
    ),
    (
        "`%` in flow",
        "[%",
        "unexpected character: `%' at byte 1 line 1 column 2",
    ),
    (
        "`@`",
        "@",
        "unexpected character: `@' at byte 0 line 1 column 1",
    ),
    (
        "`@` after a flow collection, on the next line",
        "[a]\n@",
        "unexpected character: `@' at byte 4 line 2 column 1",
    ),
    (
        "a backtick",
        "`",
        "unexpected character: ``' at byte 0 line 1 column 1",
    ),
];

// The same: tokens that cannot be read.
const MALFORMED: [Row; 32] = [
    (
        "double quotes that do not end",
        "\"abc",
        "while scanning a quoted scalar, found unexpected end of stream at byte 0 line 1 column 1",
    ),
    (
        "a document marker in double quotes",
        "\"a\n---\nb\"",
        "while scanning a quoted scalar, found unexpected document indicator at byte 0 line 1 column 1",
    ),
    (
        "an unknown escape",
        "\"\\q\"",
        "while parsing a quoted scalar, found unknown escape character at byte 0 line 1 column 1",
    ),
    (
        "an escaped surrogate",
        "\"\\ud83d\\ude00\"",
        "while parsing a quoted scalar, found invalid Unicode character escape code at byte 0 line 1 column 1",
    ),
    (
        "an indentation indicator of 0",
        "|0",
        "while scanning a block scalar, found an indentation indicator equal to 0 at byte 0 line 1 column 1",
    ),
    (
        "a TAB at the start of a block scalar",
        "|\n\ta",
        "a block scalar content cannot start with a tab at byte 0 line 1 column 1",
    ),
    (
        "NUL in double quotes",
        "a: \"b\0\"",
        "while scanning a quoted scalar, found unexpected end of stream at byte 3 line 1 column 4",
    ),
    (
        "octets that are overlong",
        "!<%C0%80> a",
        "while parsing a tag, found an invalid UTF-8 codepoint at byte 0 line 1 column 1",
    ),
    (
        "an octet that begins no character",
        "!<%F8> a",
        "while parsing a tag, found an incorrect leading UTF-8 octet at byte 0 line 1 column 1",
    ),
    (
        "octets that are a surrogate",
        "!<%ED%A0%80> a",
        "while parsing a tag, found an invalid UTF-8 codepoint at byte 0 line 1 column 1",
    ),
    (
        "a character without its second octet",
        "!<%C3A> a",
        "while parsing a tag, did not find URI escaped octet at byte 0 line 1 column 1",
    ),
    (
        "a prefix that begins with a quote",
        "%TAG !a! \"\n--- a",
        "invalid global tag character at byte 0 line 1 column 1",
    ),
    (
        "a quoted scalar further left than its block mapping",
        "a: 'b\n- c'",
        "invalid indentation in quoted scalar at byte 3 line 1 column 4",
    ),
    (
        "a TAB as the indentation of a quoted scalar",
        "a: 'b\n\t c'",
        "tab cannot be used as indentation at byte 6 line 2 column 1",
    ),
    (
        "an escape with a letter that is no hexadecimal digit",
        "\"\\x4g\"",
        "while parsing a quoted scalar, did not find expected hexadecimal number at byte 0 line 1 column 1",
    ),
    (
        "a handle with a star",
        "%TAG !t*b x:\n--- a",
        "while parsing a tag directive, did not find expected '!' at byte 0 line 1 column 1",
    ),
    (
        "a tag without suffix",
        "!!",
        "while parsing a tag, did not find expected tag URI at byte 0 line 1 column 1",
    ),
    (
        "an octet that continues no character",
        "!<%C0%280> a",
        "while parsing a tag, found an incorrect trailing UTF-8 octet at byte 0 line 1 column 1",
    ),
    (
        "a prefix that goes on with U+FEFF",
        "%TAG !t!  x\u{feff}\n---",
        "while scanning TAG, did not find expected whitespace or line break at byte 0 line 1 column 1",
    ),
    (
        "a version without `.`",
        "%YAML 1 2\n--- a",
        "while scanning a YAML directive, did not find expected digit or '.' character at byte 0 line 1 column 1",
    ),
    (
        "a version without minor number",
        "%YAML 1.\n--- a",
        "while scanning a YAML directive, did not find expected version number at byte 0 line 1 column 1",
    ),
    (
        "content after `|`",
        "|a",
        "while scanning a block scalar, did not find expected comment or line break at byte 0 line 1 column 1",
    ),
    (
        "`%` alone",
        "%",
        "while scanning a directive, could not find expected directive name at byte 1 line 1 column 2",
    ),
    (
        "a version that goes on with a dash",
        "%YAML 1.1-\n--- a",
        "while scanning a directive, did not find expected comment or line break at byte 0 line 1 column 1",
    ),
    (
        "a name of a directive that goes on with `?`",
        "%a?",
        "while scanning a directive, found unexpected non-alphabetical character at byte 1 line 1 column 2",
    ),
    (
        "a plain scalar that goes on after a TAB",
        "- a|\n\ta",
        "while scanning a plain scalar, found a tab at byte 2 line 1 column 3",
    ),
    (
        "a handle without `!` at its start",
        "- a\n%TAG t! x:\n- b",
        "while scanning a tag, did not find expected '!' at byte 4 line 2 column 1",
    ),
    (
        "a tag that a comma ends outside flow",
        "!,",
        "while scanning a tag, did not find expected whitespace or line break at byte 0 line 1 column 1",
    ),
    (
        "a verbatim tag without `>`",
        "!<x a",
        "while scanning a verbatim tag, did not find the expected '>' at byte 0 line 1 column 1",
    ),
    (
        "`&` alone",
        "&",
        "while scanning an anchor or alias, did not find expected alphabetic or numeric character at byte 0 line 1 column 1",
    ),
    (
        "a line left of a block scalar's indentation",
        "a: |2\n x",
        "wrongly indented line in block scalar at byte 7 line 2 column 2",
    ),
    (
        "a version number of ten digits",
        "%YAML 1234567890.1\n--- a",
        "while scanning a YAML directive, found extremely long version number at byte 0 line 1 column 1",
    ),
];

// Whether the events that are pulled end in a fault.
fn ends_in(alloc: Global, text: &str, fault: &str) -> Result<bool, Fail> {
    let events = pulled(alloc, parser(alloc, text, false), false)?;
    Ok(events.as_str().trim_end().ends_with(fault))
}

// The events of each row's text end in its fault. All rows that fail are told.
fn ends_hold(rt: &(impl Abort + AllocGlobal), rows: &[Row]) -> Result<(), Fail> {
    let mut report = Report::new(rt.alloc());
    for (name, text, want) in rows {
        report.check(name, "the last event", ends_in(rt.alloc(), text, want)?)?;
    }
    assert!(rt; report.is_empty(), "{report}");
    Ok(())
}

#[test]
fn misplaced_tokens_are_told(rt: HostRuntime) -> Result<(), Fail> {
    rows_hold(&rt, &MISPLACED)
}

#[test]
fn malformed_tokens_are_told(rt: HostRuntime) -> Result<(), Fail> {
    rows_hold(&rt, &MALFORMED)
}

#[test]
fn misplaced_tokens_end_the_events(rt: HostRuntime) -> Result<(), Fail> {
    ends_hold(&rt, &MISPLACED)
}

#[test]
fn malformed_tokens_end_the_events(rt: HostRuntime) -> Result<(), Fail> {
    ends_hold(&rt, &MALFORMED)
}

// Keys that come twice: the events are those of a text that is read.
const REPEATED: [Row; 2] = [
    (
        "a key twice in a flow mapping",
        "{\"a\":1,\"a\":2}",
        "String(\"a\"): duplicated key in mapping at byte 11 line 1 column 12",
    ),
    (
        "a key twice in a block mapping",
        "a: 1\na: 2",
        "String(\"a\"): duplicated key in mapping at byte 8 line 2 column 4",
    ),
];

#[test]
fn repeated_keys_are_told(rt: HostRuntime) -> Result<(), Fail> {
    rows_hold(&rt, &REPEATED)
}
