//! Trees and the texts that are written for them.
use crate::made::word;
use std::alloc::Global;
use std::process::Abort;
use std::test::Fail;
use test_rows::Report;
use yaml_emitter::{DoubleQuoted, YamlEmitter};
use yaml_loader::YamlLoader;
use yaml_tree::Yaml;

// The functions below have no contract, so that many dumps make no long proof.

// A tree to be dumped.
#[derive(Clone, Copy)]
enum Tree {
    String(&'static str),
    Integer(i64),
    Boolean(bool),
    BadValue,
    Alias(usize),
    // The document of a text.
    Text(&'static str),
}

// The document of a text, or its fault as a string.
fn loaded(alloc: Global, text: &str) -> Result<Yaml, Fail> {
    match YamlLoader::load_from_str(alloc, text) {
        Ok(mut documents) => Ok(documents.pop().unwrap_or(Yaml::BadValue)),
        Err(fault) => Ok(Yaml::String(format!(in alloc; "{fault}")?)),
    }
}

fn made(alloc: Global, tree: Tree) -> Result<Yaml, Fail> {
    match tree {
        Tree::String(text) => word(alloc, text),
        Tree::Integer(number) => Ok(Yaml::Integer(number)),
        Tree::Boolean(flag) => Ok(Yaml::Boolean(flag)),
        Tree::BadValue => Ok(Yaml::BadValue),
        Tree::Alias(anchor) => Ok(Yaml::Alias(anchor)),
        Tree::Text(text) => loaded(alloc, text),
    }
}

// The settings of an emitter.
#[derive(Clone, Copy)]
enum Layout {
    Compact,
    Spread,
    // Compact, with literal blocks.
    Multiline,
}

fn dumped(alloc: Global, tree: Tree, layout: Layout) -> Result<String, Fail> {
    let tree = made(alloc, tree)?;
    let mut out = String::new(alloc);
    let mut emitter = YamlEmitter::new(&mut out);
    emitter.compact(!matches!(layout, Layout::Spread));
    emitter.multiline_strings(matches!(layout, Layout::Multiline));
    match emitter.dump(&tree) {
        Ok(()) => Ok(out),
        Err(_) => Ok(String::from_str(alloc, "refused")?),
    }
}

#[test]
fn a_new_emitter_is_compact(rt: HostRuntime) -> Result<(), Fail> {
    let mut out = String::new(rt.alloc());
    let emitter = YamlEmitter::new(&mut out);
    assert!(rt; emitter.is_compact());
    assert!(rt; !emitter.is_multiline_strings());
    Ok(())
}

// What it shows, a tree, the settings, and the tree's dump.
type Row = (&'static str, Tree, Layout, &'static str);

const DUMPS: [Row; 31] = [
    (
        "an integer of base 8 in quotes",
        Tree::String("0o52"),
        Layout::Compact,
        "---\n\"0o52\"",
    ),
    (
        "infinity without its point in quotes",
        Tree::String("inf"),
        Layout::Compact,
        "---\n\"inf\"",
    ),
    (
        "infinity in full in quotes",
        Tree::String("+Infinity"),
        Layout::Compact,
        "---\n\"+Infinity\"",
    ),
    (
        "a colon and a percent sign",
        Tree::String("x: %"),
        Layout::Compact,
        "---\n\"x: %\"",
    ),
    ("words", Tree::String("a b"), Layout::Compact, "---\na b"),
    (
        "the empty text",
        Tree::String(""),
        Layout::Compact,
        "---\n\"\"",
    ),
    (
        "a blank at the start",
        Tree::String(" a"),
        Layout::Compact,
        "---\n\" a\"",
    ),
    (
        "a blank at the end",
        Tree::String("a "),
        Layout::Compact,
        "---\n\"a \"",
    ),
    (
        "a control character alone",
        Tree::String("a\u{7}b"),
        Layout::Compact,
        "---\na\u{7}b",
    ),
    (
        "escapes",
        Tree::String("\u{1}\u{8}\t\n\u{c}\r\u{7f}\"\\"),
        Layout::Compact,
        "---\n\"\\u0001\\b\\t\\n\\f\\r\\u007f\\\"\\\\\"",
    ),
    ("an integer", Tree::Integer(42), Layout::Compact, "---\n42"),
    (
        "the least integer",
        Tree::Integer(i64::MIN),
        Layout::Compact,
        "---\n-9223372036854775808",
    ),
    (
        "a Boolean",
        Tree::Boolean(true),
        Layout::Compact,
        "---\ntrue",
    ),
    ("a bad value", Tree::BadValue, Layout::Compact, "---\n~"),
    ("an alias", Tree::Alias(1), Layout::Compact, "---\n"),
    (
        "strings that look like other scalars, and strings that do not",
        Tree::Text(
            "[\"yes\", \"true\", \"~\", \"2.6\", \"can't\", \".milk\", a b, 2014-12-31, 你好, ~]",
        ),
        Layout::Compact,
        "---\n- \"yes\"\n- \"true\"\n- \"~\"\n- \"2.6\"\n- \"can't\"\n- \".milk\"\n- a b\n- 2014-12-31\n- 你好\n- ~",
    ),
    (
        "a sequence in a sequence, compact",
        Tree::Text("[[1, 2], []]"),
        Layout::Compact,
        "---\n- - 1\n  - 2\n- []",
    ),
    (
        "a sequence in a sequence, on a line of its own",
        Tree::Text("[[1, 2], []]"),
        Layout::Spread,
        "---\n-\n  - 1\n  - 2\n- []",
    ),
    (
        "a key that is a mapping, compact",
        Tree::Text("{? {key: [1, 2, 3]} : [4, 5, 6]}"),
        Layout::Compact,
        "---\n? key:\n    - 1\n    - 2\n    - 3\n: - 4\n  - 5\n  - 6",
    ),
    (
        "a key that is a mapping, on a line of its own",
        Tree::Text("{? {key: [1, 2, 3]} : [4, 5, 6]}"),
        Layout::Spread,
        "---\n?\n  key:\n    - 1\n    - 2\n    - 3\n:\n  - 4\n  - 5\n  - 6",
    ),
    (
        "a key that is an empty sequence",
        Tree::Text("{? [] : 1}"),
        Layout::Compact,
        "---\n? []\n: 1",
    ),
    (
        "a value of two lines",
        Tree::Text("{foo: \"bar!\\nbar!\", baz: 42}"),
        Layout::Multiline,
        "---\nfoo: |-\n  bar!\n  bar!\nbaz: 42",
    ),
    (
        "an empty line in a string",
        Tree::Text("[\"a\\n\\nb\"]"),
        Layout::Multiline,
        "---\n- |-\n  a\n  \n  b",
    ),
    (
        "a string that ends in two line feeds",
        Tree::Text("[\"a\\n\\n\"]"),
        Layout::Multiline,
        "---\n- \"a\\n\\n\"",
    ),
    (
        "a string that ends in a line feed",
        Tree::Text("[\"a\\n\"]"),
        Layout::Multiline,
        "---\n- |\n  a",
    ),
    (
        "a string of two lines with a blank at the start",
        Tree::Text("[\" a\\nb\"]"),
        Layout::Multiline,
        "---\n- \" a\\nb\"",
    ),
    (
        "a document marker in a string",
        Tree::String("a\n---\nb"),
        Layout::Multiline,
        "---\n\"a\\n---\\nb\"",
    ),
    (
        "a byte order mark in a string",
        Tree::String("a\n\u{feff}"),
        Layout::Multiline,
        "---\n\"a\\n\u{feff}\"",
    ),
    (
        "dashes before a letter in a string",
        Tree::String("a\n---b"),
        Layout::Multiline,
        "---\n|-\na\n---b",
    ),
    (
        "a TAB at the start of a string of two lines",
        Tree::String("\ta\nb"),
        Layout::Multiline,
        "---\n\"\\ta\\nb\"",
    ),
    (
        "collections in collections, and empty ones",
        Tree::Text("{a: {b: {c: hello}, d: {}}, e: [f, [g, [h]], {i: []}]}"),
        Layout::Compact,
        "---\na:\n  b:\n    c: hello\n  d: {}\ne:\n  - f\n  - - g\n    - - h\n  - i: []",
    ),
];

// Each tree has the dump of its row. All rows that fail are told.
fn rows_hold(rt: &(impl Abort + AllocGlobal), rows: &[Row]) -> Result<(), Fail> {
    let mut report = Report::new(rt.alloc());
    for (name, tree, layout, want) in rows {
        let found = dumped(rt.alloc(), *tree, *layout)?;
        report.compare(name, "dumped", found.as_str(), want)?;
    }
    assert!(rt; report.is_empty(), "{report}");
    Ok(())
}

#[test]
fn trees_are_dumped(rt: HostRuntime) -> Result<(), Fail> {
    rows_hold(&rt, &DUMPS)
}

#[test]
fn a_text_is_shown_in_double_quotes(rt: HostRuntime) -> Result<(), Fail> {
    let quoted = DoubleQuoted("é\u{1}\u{8}\t\n\u{c}\r\u{7f}\"\\b");
    let shown = format!(in rt.alloc(); "<{quoted}>")?;
    assert_eq!(rt;
        shown.as_str(),
        "<\"é\\u0001\\b\\t\\n\\f\\r\\u007f\\\"\\\\b\">"
    );
    Ok(())
}
