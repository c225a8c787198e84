//! Documents, their markers and directives (YAML 1.2, chapter 9 and section 6.8).
use super::reading::{Row, rows_hold};
use std::test::Fail;

// What it shows, a text, and the trees that it loads as.
const DOCUMENTS: [Row; 8] = [
    ("an empty text", "", "[]"),
    ("a document without content", "---", "[Null]"),
    (
        "a document with a comment alone",
        "--- #here goes a comment",
        "[Null]",
    ),
    (
        "three documents",
        "\n'a scalar'\n---\n'a scalar'\n---\n'a scalar'\n",
        "[String(\"a scalar\"), String(\"a scalar\"), String(\"a scalar\")]",
    ),
    (
        "a block scalar ends at the next `---`",
        "--- |\na\n---\nb\n",
        "[String(\"a\\n\"), String(\"b\")]",
    ),
    (
        "documents on the lines of their `---`",
        "--- 1\n--- 2",
        "[Integer(1), Integer(2)]",
    ),
    (
        "a text ends at its first NUL",
        "a: b\0c: d",
        "[Hash({String(\"a\"): String(\"b\")})]",
    ),
    (
        "an unknown directive is passed over",
        "%FOO bar\n--- a",
        "[String(\"a\")]",
    ),
];

#[test]
fn documents_are_read(rt: HostRuntime) -> Result<(), Fail> {
    rows_hold(&rt, &DOCUMENTS)
}
