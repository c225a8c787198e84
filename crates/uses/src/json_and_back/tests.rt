use super::{Lost, json_and_back, json_of};
use std::alloc::Global;
use std::test::Fail;
use test_rows::Report;
use yaml_json::{write_json, write_json_indented};
use yaml_rust2::yaml::Array;
use yaml_rust2::{Yaml, YamlLoader};

// The one document of a text.
fn tree(alloc: Global, text: &str) -> Result<Yaml, Fail> {
    let mut documents = YamlLoader::load_from_str(alloc, text)?;
    Ok(documents.pop().unwrap_or(Yaml::BadValue))
}

// What it shows, a document, its JSON text, and that text indented by two spaces, where it is another.
const ROWS: [(&str, &str, &str, Option<&str>); 8] = [
    ("null", "~", "null", None),
    (
        "numbers keep their spelling, integers but for base and sign of zero",
        "[0x1F, -0, -5, 1.50, 1e5]",
        "[31,0,-5,1.50,1e5]",
        Some("[\n  31,\n  0,\n  -5,\n  1.50,\n  1e5\n]"),
    ),
    (
        "an integer that is too large",
        "9223372036854775808",
        "9223372036854775808",
        None,
    ),
    ("an empty array", "[]", "[]", None),
    ("an empty hash", "{}", "{}", None),
    (
        "collections in collections, and an empty key",
        "a: {b: [x], c: []}\n'': true",
        "{\"a\":{\"b\":[\"x\"],\"c\":[]},\"\":true}",
        Some(
            "{\n  \"a\": {\n    \"b\": [\n      \"x\"\n    ],\n    \"c\": []\n  },\n  \"\": true\n}",
        ),
    ),
    (
        "escapes",
        "\"\\\"\\\\/\\b\\f\\n\\r\\t\\0\\x1f\\x7f\"",
        "\"\\\"\\\\/\\b\\f\\n\\r\\t\\u0000\\u001f\\u007f\"",
        None,
    ),
    (
        "characters that are not ASCII",
        "é\u{2028}\u{1F600}",
        "\"é\u{2028}\u{1F600}\"",
        None,
    ),
];

#[test]
fn trees_come_back(rt: HostRuntime) -> Result<(), Fail> {
    let alloc = rt.alloc();
    let mut report = Report::new(alloc);
    for (name, text, compact, indented) in ROWS {
        let tree = tree(alloc, text)?;
        report.compare(name, "compact", json_of(alloc, &tree)?.as_str(), compact)?;
        let mut lines = String::new(alloc);
        write_json_indented(alloc, &tree, 2, &mut lines)?;
        report.compare(
            name,
            "indented",
            lines.as_str(),
            indented.unwrap_or(compact),
        )?;
        let holds = match json_and_back(alloc, &tree)?.as_slice() {
            [document] => *document == tree,
            _ => false,
        };
        report.check(name, "another tree came back", holds)?;
    }
    assert!(rt; report.is_empty(), "{report}");
    Ok(())
}

// What it shows, and what stands at each level before the node that is deeper, and after it.
const LEVELS: [(&str, &str, &str); 5] = [
    ("arrays", "[", "]"),
    ("arrays with an item after", "[", ",1]"),
    ("arrays with an item before", "[1,", "]"),
    ("hashes", "{\"a\":", "}"),
    ("hashes with a pair after", "{\"a\":", ",\"b\":1}"),
];

// A row with so many levels around a null: its text, and the tree that its lines load as.
fn note_levels(
    alloc: Global,
    report: &mut Report,
    (name, before, after): (&str, &str, &str),
    levels: usize,
) -> Result<(), Fail> {
    let mut text = before.repeat(alloc, levels)?;
    text.push_str("null")?;
    text.push_str(after.repeat(alloc, levels)?.as_str())?;
    let document = tree(alloc, text.as_str())?;
    let json = json_of(alloc, &document)?;
    report.compare(name, "compact", json.as_str(), text.as_str())?;
    let mut lines = String::new(alloc);
    write_json_indented(alloc, &document, 1, &mut lines)?;
    let holds = tree(alloc, lines.as_str())? == document;
    report.check(name, "indented, another tree came back", holds)?;
    Ok(())
}

// Up to 128 levels are written by a recursion, more by loops.
#[test]
fn many_levels_are_written(rt: HostRuntime) -> Result<(), Fail> {
    let alloc = rt.alloc();
    let mut report = Report::new(alloc);
    for row in LEVELS {
        note_levels(alloc, &mut report, row, 17)?;
        note_levels(alloc, &mut report, row, 128)?;
        note_levels(alloc, &mut report, row, 129)?;
        note_levels(alloc, &mut report, row, 200)?;
    }
    assert!(rt; report.is_empty(), "{report}");
    Ok(())
}

// What it shows, a document, and what is said of the first node that has no JSON text.
const FAULTS: [(&str, &str, &str); 8] = [
    (
        "infinity in an array",
        "[1, .inf]",
        "$[1]: the number cannot be written in JSON",
    ),
    (
        "a number that begins with its point",
        "a: {\"b\\n\": [.5, ~]}",
        "$[\"a\"][\"b\\n\"][0]: the number cannot be written in JSON",
    ),
    (
        "a number with a plus sign",
        "+1.5",
        "$: the number cannot be written in JSON",
    ),
    (
        "a key that is null",
        "[{a: .5, ~: x}]",
        "$[0]: a key is no string",
    ),
    (
        "a key that is an array",
        "{[a]: x}",
        "$: a key is no string",
    ),
    ("a bad value", "!!int x", "$: a bad value has no JSON text"),
    (
        "behind levels that are done",
        "a: [[1, {b: 2}], {c: [3]}]\nd: [0, {e: [~, .5]}]",
        "$[\"d\"][1][\"e\"][1]: the number cannot be written in JSON",
    ),
    (
        "below eighteen levels",
        "[0, [1, [2, [3, [4, [5, [6, [7, [8, [9, [10, [11, [12, [13, [14, [15, [16, [{a: .5}, 17]]]]]]]]]]]]]]]]]]",
        "$[1][1][1][1][1][1][1][1][1][1][1][1][1][1][1][1][1][0][\"a\"]: the number cannot be written in JSON",
    ),
];

// What is said of a tree without a JSON text.
fn refusal(alloc: Global, tree: &Yaml) -> Result<String, Fail> {
    match json_of(alloc, tree) {
        Err(Lost::NoJson(node)) => Ok(format!(in alloc; "{node}")?),
        _ => Ok(String::from_str(alloc, "written")?),
    }
}

#[test]
fn nodes_without_json_are_named(rt: HostRuntime) -> Result<(), Fail> {
    let alloc = rt.alloc();
    let mut report = Report::new(alloc);
    for (name, text, want) in FAULTS {
        let tree = tree(alloc, text)?;
        report.compare(name, "written", refusal(alloc, &tree)?.as_str(), want)?;
        let mut out = String::from_str(alloc, "before")?;
        let is_refused = write_json(alloc, &tree, &mut out).is_err();
        report.check(name, "not refused", is_refused)?;
        report.compare(name, "the writer", out.as_str(), "before")?;
    }
    assert!(rt; report.is_empty(), "{report}");
    let mut items = Array::new(alloc);
    items.push(Yaml::Alias(1))?;
    let mut out = String::new(alloc);
    match write_json(alloc, &Yaml::Array(items), &mut out) {
        Err(error) => {
            assert_eq!(rt;
                format!(in alloc; "{error}")?.as_str(),
                "$[0]: an alias has no JSON text"
            )
        }
        Ok(()) => return Err(Fail::from("written")),
    }
    Ok(())
}
