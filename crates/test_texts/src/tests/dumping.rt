//! Trees and their dumps, which load as the same trees.
use std::alloc::Global;
use std::process::Abort;
use std::test::Fail;
use test_rows::Report;
use yaml_rust2::{Yaml, YamlEmitter, YamlLoader};

/// The last document of a text, or its fault as a string.
pub(crate) fn tree(alloc: Global, text: &str) -> Result<Yaml, Fail> {
    match YamlLoader::load_from_str(alloc, text) {
        Ok(mut documents) => Ok(documents.pop().unwrap_or(Yaml::BadValue)),
        Err(fault) => Ok(Yaml::String(format!(in alloc; "{fault}")?)),
    }
}

/// The dump of a tree.
pub(crate) fn dumped(alloc: Global, tree: &Yaml, layout: Layout) -> Result<String, Fail> {
    let mut text = String::new(alloc);
    let mut emitter = YamlEmitter::new(&mut text);
    emitter.compact(layout.is_compact);
    emitter.multiline_strings(layout.is_multiline);
    match emitter.dump(tree) {
        Ok(()) => Ok(text),
        Err(_) => Ok(String::from_str(alloc, "refused")?),
    }
}

/// Whether a text loads as one tree.
pub(crate) fn is_read_as(alloc: Global, text: &str, tree: &Yaml) -> bool {
    match YamlLoader::load_from_str(alloc, text) {
        Ok(documents) => match documents.as_slice() {
            [document] => *document == *tree,
            _ => false,
        },
        Err(_) => false,
    }
}

// Whether a tree's dump loads as the tree, with LF and with CR LF.
fn loads_back(alloc: Global, tree: &Yaml, layout: Layout) -> Result<bool, Fail> {
    let text = dumped(alloc, tree, layout)?;
    let returns = text.replace(alloc, "\n", "\r\n")?;
    Ok(is_read_as(alloc, text.as_str(), tree) && is_read_as(alloc, returns.as_str(), tree))
}

/// The settings of an emitter.
#[derive(Clone, Copy)]
pub(crate) struct Layout {
    is_compact: bool,
    is_multiline: bool,
}

pub(crate) const COMPACT: Layout = Layout {
    is_compact: true,
    is_multiline: false,
};

const SPREAD: Layout = Layout {
    is_compact: false,
    is_multiline: false,
};

const MULTILINE: Layout = Layout {
    is_compact: true,
    is_multiline: true,
};

const SPREAD_MULTILINE: Layout = Layout {
    is_compact: false,
    is_multiline: true,
};

const LAYOUTS: [Layout; 4] = [COMPACT, SPREAD, MULTILINE, SPREAD_MULTILINE];

/// Whether that holds in all four settings.
pub(crate) fn loads_back_in_all(alloc: Global, tree: &Yaml) -> Result<bool, Fail> {
    for layout in &LAYOUTS {
        if !loads_back(alloc, tree, *layout)? {
            return Ok(false);
        }
    }
    Ok(true)
}

// What it shows, a text of a tree, the settings, and the tree's dump.
type Dump = (&'static str, &'static str, Layout, &'static str);

const DUMPING: [Dump; 20] = [
    (
        "a string of two lines becomes a literal block",
        "{foo: \"bar!\\nbar!\", baz: 42}",
        MULTILINE,
        "---\nfoo: |-\n  bar!\n  bar!\nbaz: 42",
    ),
    (
        "a line like a document marker stays in quotes",
        "\"a\\n---\\nb\"",
        MULTILINE,
        "---\n\"a\\n---\\nb\"",
    ),
    (
        "a string that looks like an octal number",
        "\"0o52\"",
        COMPACT,
        "---\n\"0o52\"",
    ),
    ("an integer", "42", COMPACT, "---\n42"),
    (
        "a sequence in a sequence, compact",
        "[[1, 2], []]",
        COMPACT,
        "---\n- - 1\n  - 2\n- []",
    ),
    (
        "a sequence in a sequence, on a line of its own",
        "[[1, 2], []]",
        SPREAD,
        "---\n-\n  - 1\n  - 2\n- []",
    ),
    (
        "a key that is a mapping, compact",
        "{? {key: [1, 2, 3]} : [4, 5, 6]}",
        COMPACT,
        "---\n? key:\n    - 1\n    - 2\n    - 3\n: - 4\n  - 5\n  - 6",
    ),
    (
        "a key that is a mapping, on a line of its own",
        "{? {key: [1, 2, 3]} : [4, 5, 6]}",
        SPREAD,
        "---\n?\n  key:\n    - 1\n    - 2\n    - 3\n:\n  - 4\n  - 5\n  - 6",
    ),
    (
        "a key that is an empty sequence",
        "{? [] : 1}",
        COMPACT,
        "---\n? []\n: 1",
    ),
    (
        "an empty line in a literal block",
        "[\"a\\n\\nb\"]",
        MULTILINE,
        "---\n- |-\n  a\n  \n  b",
    ),
    (
        "a string that ends in two breaks stays in quotes",
        "[\"a\\n\\n\"]",
        MULTILINE,
        "---\n- \"a\\n\\n\"",
    ),
    (
        "U+FEFF stays in quotes",
        "\"a\\n\\uFEFF\"",
        MULTILINE,
        "---\n\"a\\n\u{FEFF}\"",
    ),
    (
        "a root of several lines is not indented",
        "\"a\\n\\nb\\n\"",
        MULTILINE,
        "---\n|\na\n\nb",
    ),
    (
        "a key of two lines stays in quotes",
        "{\"a\\nb\": 1}",
        MULTILINE,
        "---\n\"a\\nb\": 1",
    ),
    (
        "a string that looks like infinity",
        "inf",
        COMPACT,
        "---\n\"inf\"",
    ),
    (
        "a colon and an indicator in a string",
        "\"x: %\"",
        COMPACT,
        "---\n\"x: %\"",
    ),
    ("null", "~", SPREAD_MULTILINE, "---\n~"),
    ("an empty mapping", "{}", SPREAD, "---\n{}"),
    (
        "strings that look like other scalars, and strings that do not",
        "[\"yes\", \"true\", \"~\", \"2.6\", \"can't\", \".milk\", a b, 2014-12-31, \u{4f60}\u{597d}, ~]",
        COMPACT,
        "---\n- \"yes\"\n- \"true\"\n- \"~\"\n- \"2.6\"\n- \"can't\"\n- \".milk\"\n- a b\n- 2014-12-31\n- \u{4f60}\u{597d}\n- ~",
    ),
    (
        "collections in collections, and empty ones",
        "---\na:\n  b:\n    c: hello\n  d: {}\ne:\n  - f\n  - - g\n    - - h\n  - i: []",
        COMPACT,
        "---\na:\n  b:\n    c: hello\n  d: {}\ne:\n  - f\n  - - g\n    - - h\n  - i: []",
    ),
];

// Notes where a row's tree does not have its dump, or the dump does not load as the tree.
fn note(report: &mut Report, alloc: Global, row: &Dump) -> Result<(), Fail> {
    let (name, text, layout, want) = row;
    let tree = tree(alloc, text)?;
    let found = dumped(alloc, &tree, *layout)?;
    report.compare(name, "dumped", found.as_str(), want)?;
    report.check(name, "loaded back", loads_back(alloc, &tree, *layout)?)?;
    Ok(())
}

// Each tree has the dump of its row, which loads as the tree. All rows that fail are told.
fn dumps_hold(rt: &(impl Abort + AllocGlobal), rows: &[Dump]) -> Result<(), Fail> {
    let mut report = Report::new(rt.alloc());
    for row in rows {
        note(&mut report, rt.alloc(), row)?;
    }
    assert!(rt; report.is_empty(), "{report}");
    Ok(())
}

#[test]
fn trees_are_dumped(rt: HostRuntime) -> Result<(), Fail> {
    dumps_hold(&rt, &DUMPING)
}

#[test]
fn nodes_that_no_text_gives_are_dumped(rt: HostRuntime) -> Result<(), Fail> {
    let bad = dumped(rt.alloc(), &Yaml::BadValue, COMPACT)?;
    assert_eq!(rt; bad.as_str(), "---\n~");
    let alias = dumped(rt.alloc(), &Yaml::Alias(1), COMPACT)?;
    assert_eq!(rt; alias.as_str(), "---\n");
    Ok(())
}

#[test]
fn a_refusal_is_printed(rt: HostRuntime) -> Result<(), Fail> {
    let refused = yaml_rust2::EmitError::from(std::fmt::Error);
    let printed = format!(in rt.alloc(); "{refused}")?;
    assert_eq!(rt;
        printed.as_str(),
        "an error occurred when formatting an argument"
    );
    Ok(())
}
