//! Layouts with anchors and aliases, comments, arrays at their key's column, every style of scalars, and several documents.
use super::reading::{Row, rows_hold};
use std::test::Fail;

// What it shows, a text, and the trees that it loads as.
const LAYOUTS: [Row; 5] = [
    (
        "an anchor, quotes, a folded block and JSON",
        "---\na: &x\n  k: 'it''s'\nb: *x\nc: >-\n  p\n  q\n\n  r\nd: [1, {\"e\": 2}]",
        "[Hash({String(\"a\"): Hash({String(\"k\"): String(\"it's\")}), String(\"b\"): Hash({String(\"k\"): String(\"it's\")}), String(\"c\"): String(\"p q\\nr\"), String(\"d\"): Array([Integer(1), Hash({String(\"e\"): Integer(2)})])})]",
    ),
    (
        "a key that is a sequence",
        "---\n? [1, 2]\n: x",
        "[Hash({Array([Integer(1), Integer(2)]): String(\"x\")})]",
    ),
    (
        "comments, and a sequence at the column of its key",
        "# top\nk: # why\n- 'a' # b\n- x\nm: 1",
        "[Hash({String(\"k\"): Array([String(\"a\"), String(\"x\")]), String(\"m\"): Integer(1)})]",
    ),
    (
        "an anchor that is given twice",
        "---\n- &n 5\n- *n\n- &n 6\n- *n",
        "[Array([Integer(5), Integer(5), Integer(6), Integer(6)])]",
    ),
    (
        "three documents with comments between",
        "a: 1\n\n---\n- b\n# c\n---\n5",
        "[Hash({String(\"a\"): Integer(1)}), Array([String(\"b\")]), Integer(5)]",
    ),
];

#[test]
fn layouts_are_read(rt: HostRuntime) -> Result<(), Fail> {
    rows_hold(&rt, &LAYOUTS)
}
