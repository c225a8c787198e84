//! Flow collections (YAML 1.2, section 7.4).
use super::reading::{Row, rows_hold};
use std::test::Fail;

// What it shows, a text, and the trees that it loads as.
const FLOW: [Row; 12] = [
    (
        "a sequence of scalars",
        "[1e400, \"a b\", [], null]",
        "[Array([Real(\"1e400\"), String(\"a b\"), Array([]), Null])]",
    ),
    (
        "a mapping without spaces",
        "{\"a\":1,\"b\":[true,null]}",
        "[Hash({String(\"a\"): Integer(1), String(\"b\"): Array([Boolean(true), Null])})]",
    ),
    (
        "a key with its `:` on the next line",
        "{\"k\"\n:1,\"b\":[true,null,1e400,-0]}",
        "[Hash({String(\"k\"): Integer(1), String(\"b\"): Array([Boolean(true), Null, Real(\"1e400\"), Integer(0)])})]",
    ),
    (
        "TABs as indentation",
        "{\n\t\"a\": [\n\t\t1\n\t]\n}",
        "[Hash({String(\"a\"): Array([Integer(1)])})]",
    ),
    (
        "a sequence with spaces",
        "[1, 2]",
        "[Array([Integer(1), Integer(2)])]",
    ),
    (
        "a pair in a sequence, whose value is a sequence",
        "[a: [b, c]]",
        "[Array([Hash({String(\"a\"): Array([String(\"b\"), String(\"c\")])})])]",
    ),
    (
        "a pair in a sequence with `?` and without key",
        "[? : x]",
        "[Array([Hash({Null: String(\"x\")})])]",
    ),
    (
        "a pair in a sequence with `?` alone",
        "[? ]",
        "[Array([Hash({Null: Null})])]",
    ),
    (
        "pairs, nested and beside a mapping",
        "[a: b, c: [d: e], {f: g}]",
        "[Array([Hash({String(\"a\"): String(\"b\")}), Hash({String(\"c\"): Array([Hash({String(\"d\"): String(\"e\")})])}), Hash({String(\"f\"): String(\"g\")})])]",
    ),
    (
        "a plain scalar that begins with `:`",
        "{a: :b}",
        "[Hash({String(\"a\"): String(\":b\")})]",
    ),
    (
        "`?` and `:` in a mapping, and a last comma",
        "{\n  ? foo :,\n  : bar,\n}",
        "[Hash({String(\"foo\"): Null, Null: String(\"bar\")})]",
    ),
    (
        "a mapping in a mapping",
        "{a: 1, b: {c: 2}}",
        "[Hash({String(\"a\"): Integer(1), String(\"b\"): Hash({String(\"c\"): Integer(2)})})]",
    ),
];

#[test]
fn flow_collections_are_read(rt: HostRuntime) -> Result<(), Fail> {
    rows_hold(&rt, &FLOW)
}
