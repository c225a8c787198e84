//! Texts and their tokens.
use std::alloc::Global;
use std::process::Abort;
use std::test::Fail;
use test_rows::Report;
use yaml_scanner::Scanner;
use yaml_tokens::Token;

fn tokens(alloc: Global, text: &str) -> Result<String, Fail> {
    let mut names = String::new(alloc);
    for token in Scanner::new(alloc, text.chars()) {
        names.push_str(format!(in alloc; "{:?} ", token.1)?.as_str())?;
    }
    Ok(names)
}

// What it shows, a text, and its tokens.
type Row = (&'static str, &'static str, &'static str);

const TOKENS: [Row; 3] = [
    (
        "a plain scalar that begins with a colon",
        "{a: :b}",
        "StreamStart(Utf8) FlowMappingStart Key Scalar(Plain, \"a\") Value Scalar(Plain, \":b\") FlowMappingEnd StreamEnd ",
    ),
    (
        "a key without value, and a value without key",
        "{\n  ? foo :,\n  : bar,\n}",
        "StreamStart(Utf8) FlowMappingStart Key Scalar(Plain, \"foo\") Value FlowEntry Value Scalar(Plain, \"bar\") FlowEntry FlowMappingEnd StreamEnd ",
    ),
    (
        "each style of scalar",
        "- 'a'\n- \"b\"\n- |-\n c\n- >-\n d\n",
        "StreamStart(Utf8) BlockSequenceStart BlockEntry Scalar(SingleQuoted, \"a\") BlockEntry Scalar(DoubleQuoted, \"b\") BlockEntry Scalar(Literal, \"c\") BlockEntry Scalar(Folded, \"d\") BlockEnd StreamEnd ",
    ),
];

// Each text has the tokens of its row. All rows that fail are told.
fn rows_hold(rt: &(impl Abort + AllocGlobal), rows: &[Row]) -> Result<(), Fail> {
    let mut report = Report::new(rt.alloc());
    for (name, text, want) in rows {
        let found = tokens(rt.alloc(), text)?;
        report.compare(name, "scanned", found.as_str(), want)?;
    }
    assert!(rt; report.is_empty(), "{report}");
    Ok(())
}

#[test]
fn tokens_come_in_order(rt: HostRuntime) -> Result<(), Fail> {
    rows_hold(&rt, &TOKENS)
}

// Every kind of token.
const ALL_TOKENS: &str =
    "%YAML 1.2\n%TAG !t! x:\n--- &a !t!b [*a, {? c : 'd'}, e: f]\n...\n---\n- |\n g\n- h: !<i> j\n";

// Whether a token and its kind are equal to their copies.
fn is_copied(alloc: Global, token: &Token) -> Result<bool, Fail> {
    let is_kind = token.1.clone(alloc)? == token.1;
    Ok(is_kind && token.clone(alloc)? == *token)
}

#[test]
fn tokens_are_copied(rt: HostRuntime) -> Result<(), Fail> {
    let mut count = 0u8;
    for token in Scanner::new(rt.alloc(), ALL_TOKENS.chars()) {
        assert!(rt; is_copied(rt.alloc(), &token)?);
        count = count.saturating_add(1);
    }
    assert_eq!(rt; count, 38);
    Ok(())
}
