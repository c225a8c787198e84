//! What a writer keeps that has no room for a whole text, and takes each part of it whole or not at all.
use crate::refused_json::write;
use crate::refused_writes::{Settings, is_written, only_document};
use std::alloc::Global;
use std::fmt::{self, Write};
use std::process::Abort;
use std::test::Fail;
use test_rows::Report;
use yaml_emitter::{FmtWriter, Writer};
use yaml_tree::Yaml;

// The functions below have no contract, so that many texts make no long proof.

// Has room for so many bytes. It takes a part whole, or refuses it and stays as it is.
#[derive(Drop)]
struct Room {
    text: String,
    left: usize,
}

impl fmt::Write for Room {
    fn write_str(&mut self, part: &str) -> fmt::Result {
        match self.left.checked_sub(part.len()) {
            Some(left) => self.left = left,
            None => return Err(fmt::Error),
        }
        self.text.push_str(part).map_err(|_| fmt::Error)
    }
}

// What a tree is written as.
#[derive(Clone, Copy)]
enum Form {
    Dump(Settings),
    // Without white space, or in lines that are indented by so many spaces a level.
    Json(Option<usize>),
}

const COMPACT: Form = Form::Dump(Settings {
    compact: true,
    multiline: false,
});

const SPREAD: Form = Form::Dump(Settings {
    compact: false,
    multiline: false,
});

const LITERAL: Form = Form::Dump(Settings {
    compact: true,
    multiline: true,
});

// Whether all of a tree's text is taken.
fn is_taken<W: Writer>(alloc: Global, tree: &Yaml, form: Form, out: &mut W) -> bool {
    match form {
        Form::Dump(settings) => is_written(out, tree, settings),
        Form::Json(width) => write(alloc, tree, width, out).is_ok(),
    }
}

// What is kept of a tree's text where there is so much room, and whether that is all.
fn kept(alloc: Global, tree: &Yaml, form: Form, room: usize) -> (String, bool) {
    let text = String::new(alloc);
    let mut writer = FmtWriter::new(Room { text, left: room });
    let is_whole = is_taken(alloc, tree, form, &mut writer);
    (writer.into_inner().text, is_whole)
}

// The same of these parts.
fn fitting(alloc: Global, parts: &str, room: usize) -> (String, bool) {
    let text = String::new(alloc);
    let mut writer = Room { text, left: room };
    for part in parts.split('^') {
        if writer.write_str(part).is_err() {
            return (writer.text, false);
        }
    }
    (writer.text, true)
}

// Whether a tree is written by these parts: with any room as much is kept of both.
fn is_put_so(alloc: Global, tree: &Yaml, form: Form, parts: &str) -> bool {
    for room in 0..=parts.len() {
        if kept(alloc, tree, form, room) != fitting(alloc, parts, room) {
            return false;
        }
    }
    true
}

// What it shows, the text of a tree, what the tree is written as, and the parts, with `^` between them.
type Row = (&'static str, &'static str, Form, &'static str);

const SCALARS: &str =
    "- 0\n- -5\n- 12345\n- -9223372036854775808\n- 9223372036854775807\n- 1.5e3\n- ~\n- true\n- false\n- plain words\n- \"yes\"\n- \"\\\"a\\\\b\\u0001\\n\\x7F\\u00e9\\t\"\n- []\n- {}\n";

const LINES: &str = "- \"one\\ntwo\"\n- \"one\\n\\n  two\\n\"\n";

const NESTED: &str =
    "? [1, [-2, x]]\n: {a: [y, {b: -17}], c: {d: e}}\n? {k: [v]}\n: - - deep\n    - 10\n  - {}\n\"quoted: key\": \"v\"\n-12: 34\n? []\n: - z\n";

const DEEP: &str = "[[[[[[[[[[[[[[[[[[[[[[[[[[[[[[[[[[1, 2]]]]]]]]]]]]]]]]]]]]]]]]]]]]]]]]]]";

const OBJECT: &str = "{a: [1, [-2, x]], b: [[[y]]], c: {}, d: [], e: {f: {g: 12}}}";

const DUMPS: [Row; 7] = [
    (
        "every scalar",
        SCALARS,
        COMPACT,
        "---\n^-^ ^0^\n^-^ ^-^5^\n^-^ ^1^2^3^4^5^\n^-^ ^-^9^2^2^3^3^7^2^0^3^6^8^5^4^7^7^5^8^0^8^\n^-^ ^9^2^2^3^3^7^2^0^3^6^8^5^4^7^7^5^8^0^7^\n^-^ ^1.5e3^\n^-^ ^~^\n^-^ ^true^\n^-^ ^false^\n^-^ ^plain words^\n^-^ ^\"^yes^\"^\n^-^ ^\"^^\\\"^a^\\\\^b^\\u00^0^1^^\\n^^\\u00^7^f^é^\\t^^\"^\n^-^ ^[]^\n^-^ ^{}",
    ),
    (
        "lines in double quotes",
        LINES,
        COMPACT,
        "---\n^-^ ^\"^one^\\n^two^\"^\n^-^ ^\"^one^\\n^^\\n^  two^\\n^^\"",
    ),
    (
        "literal blocks",
        LINES,
        LITERAL,
        "---\n^-^ ^|-^\n  ^one^\n  ^two^\n^-^ ^|^\n  ^one^\n  ^^\n  ^  two",
    ),
    (
        "a literal block at the root",
        "\"a\\nb\"",
        LITERAL,
        "---\n^|-^\n^a^\n^b",
    ),
    (
        "blocks on the line of their mark",
        NESTED,
        COMPACT,
        "---\n^?^ ^-^ ^1^\n  ^-^ ^-^ ^-^2^\n    ^-^ ^x^\n^:^ ^a^:^\n    ^-^ ^\"^y^\"^\n    ^-^ ^b^:^ ^-^1^7^\n  ^c^:^\n    ^d^:^ ^e^\n^?^ ^k^:^\n    ^-^ ^v^\n^:^ ^-^ ^-^ ^deep^\n    ^-^ ^1^0^\n  ^-^ ^{}^\n^\"^quoted: key^\"^:^ ^v^\n^-^1^2^:^ ^3^4^\n^?^ ^[]^\n^:^ ^-^ ^z",
    ),
    (
        "blocks on lines of their own",
        NESTED,
        SPREAD,
        "---\n^?^\n  ^-^ ^1^\n  ^-^\n    ^-^ ^-^2^\n    ^-^ ^x^\n^:^\n  ^a^:^\n    ^-^ ^\"^y^\"^\n    ^-^\n      ^b^:^ ^-^1^7^\n  ^c^:^\n    ^d^:^ ^e^\n^?^\n  ^k^:^\n    ^-^ ^v^\n^:^\n  ^-^\n    ^-^ ^deep^\n    ^-^ ^1^0^\n  ^-^ ^{}^\n^\"^quoted: key^\"^:^ ^v^\n^-^1^2^:^ ^3^4^\n^?^ ^[]^\n^:^\n  ^-^ ^z",
    ),
    (
        "a line of more than 64 spaces",
        DEEP,
        COMPACT,
        "---\n^-^ ^-^ ^-^ ^-^ ^-^ ^-^ ^-^ ^-^ ^-^ ^-^ ^-^ ^-^ ^-^ ^-^ ^-^ ^-^ ^-^ ^-^ ^-^ ^-^ ^-^ ^-^ ^-^ ^-^ ^-^ ^-^ ^-^ ^-^ ^-^ ^-^ ^-^ ^-^ ^-^ ^-^ ^1^\n                                 ^                                 ^-^ ^2",
    ),
];

const JSON_TEXTS: [Row; 4] = [
    (
        "every scalar",
        SCALARS,
        Form::Json(None),
        "[^0^,^-5^,^12345^,^-9223372036854775808^,^9223372036854775807^,^1.5e3^,^null^,^true^,^false^,^\"^plain words^\"^,^\"^yes^\"^,^\"^^\\\"^a^\\\\^b^\\u00^0^1^^\\n^^\\u00^7^f^é^\\t^^\"^,^[]^,^{}^]",
    ),
    (
        "every scalar, in lines",
        SCALARS,
        Form::Json(Some(2)),
        "[^\n  ^0^,^\n  ^-5^,^\n  ^12345^,^\n  ^-9223372036854775808^,^\n  ^9223372036854775807^,^\n  ^1.5e3^,^\n  ^null^,^\n  ^true^,^\n  ^false^,^\n  ^\"^plain words^\"^,^\n  ^\"^yes^\"^,^\n  ^\"^^\\\"^a^\\\\^b^\\u00^0^1^^\\n^^\\u00^7^f^é^\\t^^\"^,^\n  ^[]^,^\n  ^{}^\n^]",
    ),
    (
        "arrays and objects",
        OBJECT,
        Form::Json(None),
        "{^\"^a^\"^:^[^1^,^[^-2^,^\"^x^\"^]^]^,^\"^b^\"^:^[^[^[^\"^y^\"^]^]^]^,^\"^c^\"^:^{}^,^\"^d^\"^:^[]^,^\"^e^\"^:^{^\"^f^\"^:^{^\"^g^\"^:^12^}^}^}",
    ),
    (
        "lines of more than 64 spaces",
        "{a: [[-1]]}",
        Form::Json(Some(33)),
        "{^\n                                 ^\"^a^\"^: ^[^\n                                                                ^  ^[^\n                                                                ^                                   ^-1^\n                                                                ^  ^]^\n                                 ^]^\n^}",
    ),
];

fn is_row_so(alloc: Global, row: &Row) -> bool {
    let (_, text, form, parts) = row;
    match only_document(alloc, text) {
        Ok(tree) => is_put_so(alloc, &tree, *form, parts),
        Err(_) => false,
    }
}

// A writer keeps just the parts before the first one that it has no room for.
fn parts_hold(rt: &(impl Abort + AllocGlobal), rows: &[Row]) -> Result<(), Fail> {
    let mut report = Report::new(rt.alloc());
    for row in rows {
        report.check(row.0, "other parts", is_row_so(rt.alloc(), row))?;
    }
    assert!(rt; report.is_empty(), "{report}");
    Ok(())
}

#[test]
fn dumps_are_put_by_their_parts(rt: HostRuntime) -> Result<(), Fail> {
    parts_hold(&rt, &DUMPS)
}

#[test]
fn json_texts_are_put_by_their_parts(rt: HostRuntime) -> Result<(), Fail> {
    parts_hold(&rt, &JSON_TEXTS)
}
