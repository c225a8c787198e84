//! What counts towards the size of a load within limits, and which texts are within the usual limits.
use std::alloc::Global;
use std::process::Abort;
use std::test::Fail;
use test_rows::Report;
use yaml_loader::limits::{Limits, LimitsError, load_with_limits};

// What a load of the text within this size comes to.
fn outcome(alloc: Global, text: &str, size: usize) -> Result<String, Fail> {
    match load_with_limits(alloc, text, Limits { levels: 256, size }) {
        Ok(_) => Ok(String::from_str(alloc, "loaded")?),
        Err(error) => Ok(format!(in alloc; "{error}")?),
    }
}

// What it shows, a text, its size, and where a load of less stops.
type Size = (&'static str, &'static str, usize, &'static str);

const SIZES: [Size; 9] = [
    (
        "a tag with a prefix of 18 bytes",
        "!!int 1",
        18 + 3 + 2,
        "too large at line 1 column 7",
    ),
    (
        "a tag without a prefix",
        "!a x",
        1 + 1 + 2,
        "too large at line 1 column 4",
    ),
    (
        "a verbatim tag",
        "!<ab> x",
        2 + 2,
        "too large at line 1 column 7",
    ),
    (
        "a tag that is no ASCII",
        "!a%C3%A9 x",
        1 + 3 + 2,
        "too large at line 1 column 10",
    ),
    (
        "a tag under a declared handle",
        "%TAG !e! tag:xy\n--- !e!a b\n",
        6 + 1 + 2,
        "too large at line 2 column 10",
    ),
    (
        "the tag of a sequence",
        "[a, !!seq []]",
        1 + 2 + 21 + 1,
        "too large at line 1 column 11",
    ),
    (
        "the tag of a mapping",
        "[a, !!map {}]",
        1 + 2 + 21 + 1,
        "too large at line 1 column 11",
    ),
    (
        "a tag with an anchor, whose aliases have none",
        "%TAG !e! tag:xy\n--- [&a !e!a b, *a, *a]\n",
        1 + 7 + 2 + 2 + 2 + 2,
        "too large at line 2 column 21",
    ),
    (
        "the tag of a sequence with an anchor",
        "- &a !!seq [b]\n- *a\n",
        1 + 21 + 3 + 3 + 3,
        "too large at line 2 column 3",
    ),
];

// Each text loads within its size, and not within less. All rows that fail are told.
fn sizes_hold(rt: &(impl Abort + AllocGlobal), rows: &[Size]) -> Result<(), Fail> {
    let mut report = Report::new(rt.alloc());
    for (name, text, size, want) in rows {
        let within = outcome(rt.alloc(), text, *size)?;
        report.compare(name, "within its size", within.as_str(), "loaded")?;
        let without = outcome(rt.alloc(), text, size.saturating_sub(1))?;
        report.compare(name, "within less", without.as_str(), want)?;
    }
    assert!(rt; report.is_empty(), "{report}");
    Ok(())
}

#[test]
fn tags_count(rt: HostRuntime) -> Result<(), Fail> {
    sizes_hold(&rt, &SIZES)
}

fn repeat(text: &mut String, piece: &str, times: u32) -> Result<(), Fail> {
    for _ in 0..times {
        text.push_str(piece)?;
    }
    Ok(())
}

// A declared prefix of ten thousand bytes and more, and a thousand nodes with a tag of it.
fn long_prefix(alloc: Global) -> Result<String, Fail> {
    let mut text = String::from_str(alloc, "%TAG !e! tag:")?;
    repeat(&mut text, "x", 10_000)?;
    text.push_str("\n---\n")?;
    repeat(&mut text, "- !e!a b\n", 1000)?;
    Ok(text)
}

// The text has 19,018 bytes, and so a size of 157,054. Each node makes 10,007: fifteen are within it.
#[test]
fn copies_of_a_long_prefix_are_too_large(rt: HostRuntime) -> Result<(), Fail> {
    let text = long_prefix(rt.alloc())?;
    let text = text.as_str();
    match load_with_limits(rt.alloc(), text, Limits::for_text(text)) {
        Ok(_) => Err(Fail::from("loaded")),
        Err(error) => {
            let told = format!(in rt.alloc(); "{error}")?;
            assert_eq!(rt; told.as_str(), "too large at line 18 column 8");
            Ok(())
        }
    }
}

// What it shows, a beginning, what is repeated, how often, and an end, how often.
type Repeated = (
    &'static str,
    &'static str,
    &'static str,
    u32,
    &'static str,
    u32,
);

const WITHOUT_ANCHORS: [Repeated; 18] = [
    ("pairs of nulls", "[", ":,", 2000, "]", 1),
    ("question marks", "[", "?,", 2000, "]", 1),
    ("keys that are nulls", "[", "? ,", 2000, "]", 1),
    ("pairs of nulls in sequences", "[", "[:],", 2000, "]", 1),
    ("pairs in pairs", "", "[:", 120, "]", 120),
    ("keys in keys, in flow", "", "[? ", 120, "]", 120),
    ("mappings in mappings, in flow", "", "{:", 250, "}", 250),
    ("sequences in a sequence", "[", "[],", 2000, "]", 1),
    ("letters", "[", "a,", 2000, "]", 1),
    ("entries that are nulls", "", "-\n", 2000, "", 0),
    ("sequences in sequences", "", "- ", 250, "", 0),
    ("keys in keys", "", "? ", 250, "", 0),
    ("values in values", "", ": ", 250, "", 0),
    ("documents", "", "---\n", 2000, "", 0),
    ("line separators", "\"", "\\L", 2000, "\"", 1),
    ("paragraph separators", "\"", "\\P", 2000, "\"", 1),
    ("tags of three letters", "[", "!!int 1,", 2000, "]", 1),
    ("tags without a prefix", "[", "!a,", 2000, "]", 1),
];

fn repeated(alloc: Global, row: &Repeated) -> Result<String, Fail> {
    let (_, begin, piece, times, end, ends) = row;
    let mut text = String::from_str(alloc, begin)?;
    repeat(&mut text, piece, *times)?;
    repeat(&mut text, end, *ends)?;
    Ok(text)
}

// Each text loads within the usual size without what that allows for anchors and aliases. All rows that fail are told.
fn texts_are_within(rt: &(impl Abort + AllocGlobal), rows: &[Repeated]) -> Result<(), Fail> {
    let mut report = Report::new(rt.alloc());
    for row in rows {
        let text = repeated(rt.alloc(), row)?;
        let Limits { size, .. } = Limits::for_text(text.as_str());
        let found = outcome(rt.alloc(), text.as_str(), size.saturating_sub(100_000))?;
        report.compare(row.0, "loaded", found.as_str(), "loaded")?;
    }
    assert!(rt; report.is_empty(), "{report}");
    Ok(())
}

#[test]
fn texts_without_anchors_are_within_the_usual_size(rt: HostRuntime) -> Result<(), Fail> {
    texts_are_within(&rt, &WITHOUT_ANCHORS)
}

// With room for 3,000 tokens. A pair of nulls has four tokens in two characters; the fifth of `a: 1, ` is its key's.
const WAITING: [(Repeated, &'static str); 2] = [
    (
        ("pairs in a sequence", "[", ":,", 2000, "]", 1),
        "too large at line 1 column 1502",
    ),
    (
        ("pairs in a mapping", "{{", "a: 1, ", 2000, "}: x}", 1),
        "too large at line 1 column 3601",
    ),
];

#[test]
fn tokens_that_wait_are_too_many(rt: HostRuntime) -> Result<(), Fail> {
    let mut report = Report::new(rt.alloc());
    for (row, want) in &WAITING {
        let text = repeated(rt.alloc(), row)?;
        let found = outcome(rt.alloc(), text.as_str(), 2000)?;
        report.compare(row.0, "within a size of 2,000", found.as_str(), want)?;
    }
    assert!(rt; report.is_empty(), "{report}");
    Ok(())
}
