//! Tags, anchors and aliases (YAML 1.2, sections 6.9 and 7.1).
use super::reading::{Row, loaded_with_tags, note_events, rows_hold};
use std::process::Abort;
use std::test::Fail;
use test_rows::Report;

// Three documents with a handle that the first one declares.
const THREE_DOCUMENTS: &str =
    "%TAG !prefix! tag:example.com,2011:\n--- !prefix!A\na: b\n--- !prefix!B\nc: d\n--- !prefix!C\ne: f";

// What it shows, a text, and the trees that it loads as.
const PROPERTIES: [Row; 9] = [
    ("an anchor without content", "&a", "[Null]"),
    (
        "an alias for a mapping",
        "a1: &DEFAULT\n    b1: 4\n    b2: d\na2: *DEFAULT\n",
        "[Hash({String(\"a1\"): Hash({String(\"b1\"): Integer(4), String(\"b2\"): String(\"d\")}), String(\"a2\"): Hash({String(\"b1\"): Integer(4), String(\"b2\"): String(\"d\")})})]",
    ),
    (
        "an alias inside its own node is a bad value",
        "&a [*a]",
        "[Array([BadValue])]",
    ),
    (
        "an anchor that is given twice means the later node",
        "- &a 1\n- &a 2\n- *a",
        "[Array([Integer(1), Integer(2), Integer(2)])]",
    ),
    (
        "two declared handles",
        "%TAG !a! x:\n%TAG !b! y:\n--- [!a!p 1, !b!q 2]",
        "[Array([String(\"1\"), String(\"2\")])]",
    ),
    ("a tag before an anchor", "!!int &x 5", "[Integer(5)]"),
    (
        "a verbatim tag with escaped octets",
        "!<tag:x%C3%A9> a",
        "[String(\"a\")]",
    ),
    (
        "tags of the core schema, with texts that fit and one that does not",
        "[!!int 0x2A, !!float 12, !!str 0]",
        "[Array([BadValue, Real(\"12\"), String(\"0\")])]",
    ),
    (
        "each tag of the core schema, with texts that fit and texts that do not",
        "[!!int 100, !!null ~, !!bool true, !!int string, !!float string, !!bool null, !!null val, !!float .INF]",
        "[Array([Integer(100), Null, Boolean(true), BadValue, BadValue, BadValue, BadValue, Real(\".INF\")])]",
    ),
];

#[test]
fn properties_are_read(rt: HostRuntime) -> Result<(), Fail> {
    rows_hold(&rt, &PROPERTIES)
}

// The same where declared handles are kept.
const KEPT: [Row; 4] = [
    (
        "a handle that is kept for three documents",
        THREE_DOCUMENTS,
        "[Hash({String(\"a\"): String(\"b\")}), Hash({String(\"c\"): String(\"d\")}), Hash({String(\"e\"): String(\"f\")})]",
    ),
    (
        "a handle that is kept beside a version",
        "%YAML 1.1\n%TAG !t! tag:test,2024:\n--- !t!1 &1\nfoo: \"bar\"\n--- !t!2 &2\nbaz: \"qux\"\n",
        "[Hash({String(\"foo\"): String(\"bar\")}), Hash({String(\"baz\"): String(\"qux\")})]",
    ),
    (
        "a kept handle is declared anew",
        "%TAG !a! x:\n--- !a!int 5\n...\n%TAG !a! tag:yaml.org,2002:\n--- !a!int 5\n",
        "[String(\"5\"), Integer(5)]",
    ),
    (
        "a kept handle stays beside a later one",
        "%TAG !a! tag:yaml.org,2002:\n--- !a!int 5\n...\n%TAG !b! x:\n--- [!a!int 5, !b!int 5]\n",
        "[Integer(5), Array([Integer(5), String(\"5\")])]",
    ),
];

// Each text loads as its row says where declared handles are kept. All rows that fail are told.
fn kept_hold(rt: &(impl Abort + AllocGlobal), rows: &[Row]) -> Result<(), Fail> {
    let mut report = Report::new(rt.alloc());
    for (name, text, want) in rows {
        let found = loaded_with_tags(rt.alloc(), text)?;
        report.compare(name, "loaded", found.as_str(), want)?;
    }
    assert!(rt; report.is_empty(), "{report}");
    Ok(())
}

#[test]
fn declared_handles_may_be_kept(rt: HostRuntime) -> Result<(), Fail> {
    kept_hold(&rt, &KEPT)
}

// What it shows, whether declared handles are kept, and the events of the three documents, with index, line and column.
type Events = (&'static str, bool, &'static str);

const HANDLE_EVENTS: [Events; 2] = [
    (
        "a handle of the first document alone",
        false,
        "StreamStart 0 1 0\nDocumentStart 36 2 0\nMappingStart(0, Some(Tag { handle: \"tag:example.com,2011:\", suffix: \"A\" })) 51 3 1\nScalar(\"a\", Plain, 0, None) 50 3 0\nScalar(\"b\", Plain, 0, None) 53 3 3\nMappingEnd 55 4 0\nDocumentEnd 55 4 0\nDocumentStart 55 4 0\nthe handle wasn't declared at byte 59 line 4 column 5\n",
    ),
    (
        "a handle that is kept",
        true,
        "StreamStart 0 1 0\nDocumentStart 36 2 0\nMappingStart(0, Some(Tag { handle: \"tag:example.com,2011:\", suffix: \"A\" })) 51 3 1\nScalar(\"a\", Plain, 0, None) 50 3 0\nScalar(\"b\", Plain, 0, None) 53 3 3\nMappingEnd 55 4 0\nDocumentEnd 55 4 0\nDocumentStart 55 4 0\nMappingStart(0, Some(Tag { handle: \"tag:example.com,2011:\", suffix: \"B\" })) 70 5 1\nScalar(\"c\", Plain, 0, None) 69 5 0\nScalar(\"d\", Plain, 0, None) 72 5 3\nMappingEnd 74 6 0\nDocumentEnd 74 6 0\nDocumentStart 74 6 0\nMappingStart(0, Some(Tag { handle: \"tag:example.com,2011:\", suffix: \"C\" })) 89 7 1\nScalar(\"e\", Plain, 0, None) 88 7 0\nScalar(\"f\", Plain, 0, None) 91 7 3\nMappingEnd 92 8 0\nDocumentEnd 92 8 0\nStreamEnd 92 8 0\n",
    ),
];

#[test]
fn events_have_kept_handles(rt: HostRuntime) -> Result<(), Fail> {
    let mut report = Report::new(rt.alloc());
    for (name, keep_tags, want) in &HANDLE_EVENTS {
        note_events(
            &mut report,
            rt.alloc(),
            name,
            THREE_DOCUMENTS,
            *keep_tags,
            want,
        )?;
    }
    assert!(rt; report.is_empty(), "{report}");
    Ok(())
}
