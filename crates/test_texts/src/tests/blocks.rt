//! Block collections (YAML 1.2, section 8.2).
use super::reading::{Row, rows_hold};
use std::test::Fail;

// What it shows, a text, and the trees that it loads as.
const BLOCKS: [Row; 11] = [
    (
        "a sequence below its key, with a comment and an empty line",
        "---\na:\n# note\n     - 1\n\n     - 2\n",
        "[Hash({String(\"a\"): Array([Integer(1), Integer(2)])})]",
    ),
    (
        "a sequence at the column of its key",
        "key:\n- item 1\n- item 2\n",
        "[Hash({String(\"key\"): Array([String(\"item 1\"), String(\"item 2\")])})]",
    ),
    (
        "lines that end in CR LF",
        "---\r\n- tok1\r\n- tok2",
        "[Array([String(\"tok1\"), String(\"tok2\")])]",
    ),
    ("items without content", "-\n-", "[Array([Null, Null])]"),
    (
        "a key without value, after `?`",
        "? a",
        "[Hash({String(\"a\"): Null})]",
    ),
    (
        "a value without key",
        ": b",
        "[Hash({Null: String(\"b\")})]",
    ),
    (
        "a mapping in an item, whose first value is missing",
        "s:\n  - server:\n    about: x",
        "[Hash({String(\"s\"): Array([Hash({String(\"server\"): Null, String(\"about\"): String(\"x\")})])})]",
    ),
    (
        "a comment after a TAB",
        "a:\n  b: c\n\t# x\n",
        "[Hash({String(\"a\"): Hash({String(\"b\"): String(\"c\")})})]",
    ),
    (
        "keys and values that are collections, at any columns",
        "---\n# top\n\n   ? - 1\n     - 2\n# mid\n   :       - x\n           - |\n                 p\n\n                 q\n   k:\n# c\n     z: {}\n",
        "[Hash({Array([Integer(1), Integer(2)]): Array([String(\"x\"), String(\"p\\n\\nq\\n\")]), String(\"k\"): Hash({String(\"z\"): Hash({})})})]",
    ),
    (
        "keys and values that are collections, in lines that end in CR LF",
        "---\r\n# top\r\n\r\n   ? - 1\r\n     - 2\r\n# mid\r\n   :       - x\r\n           - |\r\n                 p\r\n\r\n                 q\r\n   k:\r\n# c\r\n     z: {}\r\n",
        "[Hash({Array([Integer(1), Integer(2)]): Array([String(\"x\"), String(\"p\\n\\nq\\n\")]), String(\"k\"): Hash({String(\"z\"): Hash({})})})]",
    ),
    (
        "collections in collections, and empty ones",
        "---\na:\n  b:\n    c: hello\n  d: {}\ne:\n  - f\n  - - g\n    - - h\n  - i: []",
        "[Hash({String(\"a\"): Hash({String(\"b\"): Hash({String(\"c\"): String(\"hello\")}), String(\"d\"): Hash({})}), String(\"e\"): Array([String(\"f\"), Array([String(\"g\"), Array([String(\"h\")])]), Hash({String(\"i\"): Array([])})])})]",
    ),
];

#[test]
fn blocks_are_read(rt: HostRuntime) -> Result<(), Fail> {
    rows_hold(&rt, &BLOCKS)
}
