//! The typing of texts.
use std::alloc::Global;
use std::process::Abort;
use std::test::Fail;
use test_rows::Report;
use yaml_tree::Yaml;

// These have no contract, so that what is said of a text's type makes no long proof.

fn read(alloc: Global, text: &str) -> Result<Yaml, Fail> {
    Ok(Yaml::from_str(alloc, text)?)
}

fn typed(alloc: Global, text: &str) -> Result<String, Fail> {
    let node = read(alloc, text)?;
    Ok(format!(in alloc; "{node:?}")?)
}

// What it shows, a text, and its type.
type Row = (&'static str, &'static str, &'static str);

const TYPED: [Row; 51] = [
    ("a real with an exponent", "1e400", "Real(\"1e400\")"),
    (
        "a real without digits before its point",
        ".5",
        "Real(\".5\")",
    ),
    ("a prefix of base 16 without digits", "0x", "String(\"0x\")"),
    ("a sign without digits", "+", "String(\"+\")"),
    ("a sign before a prefix", "-0x1", "String(\"-0x1\")"),
    (
        "a word that is null in another case",
        "Null",
        "String(\"Null\")",
    ),
    ("base 16", "0x2A", "Integer(42)"),
    ("base 8", "0o52", "Integer(42)"),
    ("base 10", "42", "Integer(42)"),
    ("a sign after the prefix of base 8", "0o-7", "Integer(-7)"),
    ("two plus signs", "++5", "Integer(5)"),
    ("two signs", "+-5", "Integer(-5)"),
    (
        "the least integer",
        "-9223372036854775808",
        "Integer(-9223372036854775808)",
    ),
    (
        "the least integer in base 16",
        "0x-8000000000000000",
        "Integer(-9223372036854775808)",
    ),
    (
        "an integer that is too large is a real",
        "9223372036854775808",
        "Real(\"9223372036854775808\")",
    ),
    ("a point and an exponent", "1.e5", "Real(\"1.e5\")"),
    ("a sign and a point", "+.5", "Real(\"+.5\")"),
    ("a point without digits after it", "5.", "Real(\"5.\")"),
    ("minus infinity", "-.inf", "Real(\"-.inf\")"),
    ("not a number", ".NaN", "Real(\".NaN\")"),
    ("the empty text", "", "Null"),
    ("a tilde", "~", "Null"),
    ("true with a capital", "True", "Boolean(true)"),
    ("false in capitals", "FALSE", "Boolean(false)"),
    (
        "base 16 that is too large",
        "0x8000000000000000",
        "String(\"0x8000000000000000\")",
    ),
    (
        "base 8 with a digit that it lacks",
        "0o8",
        "String(\"0o8\")",
    ),
    ("a plus sign before a prefix", "+0x10", "String(\"+0x10\")"),
    ("two minus signs", "--5", "String(\"--5\")"),
    ("an exponent without digits", "1e", "String(\"1e\")"),
    ("not a number with a sign", "+.nan", "String(\"+.nan\")"),
    ("a point alone", ".", "String(\".\")"),
    ("digits with an underscore", "1_000", "String(\"1_000\")"),
    ("a letter that is not ASCII", "\u{e9}", "String(\"\u{e9}\")"),
    ("not a number without its point", "nan", "String(\"nan\")"),
    ("nan with a plus", "+nan", "String(\"+nan\")"),
    ("nan with a minus", "-nan", "String(\"-nan\")"),
    ("NAN in capitals", "NAN", "String(\"NAN\")"),
    ("NAN in capitals with a plus", "+NAN", "String(\"+NAN\")"),
    ("NAN in capitals with a minus", "-NAN", "String(\"-NAN\")"),
    ("NaN in mixed case", "NaN", "String(\"NaN\")"),
    ("NaN in mixed case with a plus", "+NaN", "String(\"+NaN\")"),
    ("NaN in mixed case with a minus", "-NaN", "String(\"-NaN\")"),
    ("infinity without its point", "inf", "String(\"inf\")"),
    (
        "infinity without its point, with a plus",
        "+inf",
        "String(\"+inf\")",
    ),
    (
        "infinity without its point, with a minus",
        "-inf",
        "String(\"-inf\")",
    ),
    ("infinity in full", "infinity", "String(\"infinity\")"),
    (
        "infinity in full with a plus",
        "+infinity",
        "String(\"+infinity\")",
    ),
    (
        "infinity in full with a minus",
        "-infinity",
        "String(\"-infinity\")",
    ),
    (
        "infinity in full with a capital",
        "Infinity",
        "String(\"Infinity\")",
    ),
    (
        "infinity in full with a capital and a plus",
        "+Infinity",
        "String(\"+Infinity\")",
    ),
    (
        "infinity in full with a capital and a minus",
        "-Infinity",
        "String(\"-Infinity\")",
    ),
];

// Each text has the type of its row. All rows that fail are told.
fn rows_hold(rt: &(impl Abort + AllocGlobal), rows: &[Row]) -> Result<(), Fail> {
    let mut report = Report::new(rt.alloc());
    for (name, text, want) in rows {
        let found = typed(rt.alloc(), text)?;
        report.compare(name, text, found.as_str(), want)?;
    }
    assert!(rt; report.is_empty(), "{report}");
    Ok(())
}

#[test]
fn texts_are_typed(rt: HostRuntime) -> Result<(), Fail> {
    rows_hold(&rt, &TYPED)
}
