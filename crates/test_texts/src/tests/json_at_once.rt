//! Texts that are JSON, or nearly, whole and cut at each place: a load of a text, which may read JSON at once, gives what a load of its
//! characters gives.
use super::reading::{loaded, loaded_from_iter};
use std::alloc::Global;
use std::test::Fail;
use test_rows::Report;

const TEXTS: [&str; 72] = [
    "{\"a\": [1, -2, 3.50, -0, 0, 1e5, 2E-3, 0.0e+0], \"b\": {\"c\": null, \"d\": [true, false]}}",
    "[]",
    "{}",
    " \t\r\n[ \t]",
    "\t{\n\t\"a\"\n\t:\n\t1\n\t,\n\t\"b\":2\n\t}\n\t",
    "[[], {}, [[]], [{}], {\"a\": {}, \"b\": []}]",
    "[9223372036854775807, 9223372036854775808, -9223372036854775808, -9223372036854775809]",
    "[123456789012345678, 1234567890123456789, 12345678901234567890]",
    "[\"\", \"plain\", \"sixteen letters!\", \"more than sixteen letters, of which none is escaped\"]",
    "[\"\\\"\\\\\\/\\b\\f\\n\\r\\t\\u0041\\u00e9\\u20AC\\uFFFD\", \"before \\n between \\t after\"]",
    "[\"\u{e9}\u{20ac}\u{1F600}\", \"\u{7f}\u{85}\u{2028}\u{feff}\"]",
    "{\"\u{e9}\": \"\u{20ac}\", \"key with \\\"quotes\\\"\": 1}",
    "[1]\r\n\r\n",
    "[1,\r2\r]\r",
    // What is JSON, and not of the class.
    "[1,\t2]",
    "{\"a\":\t1}",
    "[\n \t1, \n\t 2]",
    "[\"\\ud83d\\ude00\"]",
    "[\"\\ud83d\"]",
    "{\"a\": 1, \"b\": 2, \"a\": 3}",
    "{\"a\": 1, \"\\u0061\": 2}",
    // What is no JSON.
    "[1, 2,]",
    "{\"a\": 1,}",
    "[,]",
    "[1 2]",
    "[1,, 2]",
    "{\"a\" 1}",
    "{\"a\": }",
    "{\"a\"}",
    "{a: 1}",
    "{1: 2}",
    "{\"a\":1 \"b\":2}",
    "[1}",
    "{\"a\": 1]",
    "[01, -, -01, 1., .5, 1e, 1e+, +1]",
    "[tru, nul, falsey, True, NULL, ~]",
    "[1] [2]",
    "[1]]",
    "[1] # a comment",
    "[1]: 2",
    "{\"a\": 1}: 2",
    "[\"a\\x41\\e\\0\\_\"]",
    "[\"\\u0000\", \"\\u12\"]",
    "[\"two\n lines\"]",
    "[\"a\tb\"]",
    "[\"\u{1f}\", \"\u{0}\"]",
    "\u{feff}[1]",
    "[1]\n---\n[2]",
    "[1] # a ]",
    "[[1,], 2]",
    "[\"abc\", \"def\", ghi]",
    "[\"a\", true, nullx]",
    "{\"a\": 1, \"b\": x}",
    "{\"a\": 1, b: 2}",
    "[{\"a\": 1},\t{\"b\": 2}]",
    "[{\"a\": 1}, # a comment\n {\"b\": 2}]",
    "[1]\n---\n[1]\n",
    "[1]\n...\n",
    "[1]\n%YAML 1.2",
    "[\"\\ud7ff\", \"\\uD800\", \"\\uE000\"]",
    "[\"\\udFFF\\uDc00\"]",
    "[\"\\u04Dg\", \"\\u0g\"]",
    "[@",
    "{]",
    "[1]\u{0}",
    "[1]\u{0} and more",
    "[1, 2]\u{0}]",
    "[1]\n\t\n \t",
    "[1] \t",
    "[\r\n\t1\r\t]",
    "[2024-01-02, 12:30, 1.2.3, -1-]",
    "{\"a\": {\"b\": 1, \"c\": {\"d\": 2, \"d\": 3}}}",
];

// Notes where both loads of the text differ.
fn compare(report: &mut Report, alloc: Global, text: &str) -> Result<(), Fail> {
    let at_once = loaded(alloc, text)?;
    let by_events = loaded_from_iter(alloc, text)?;
    report.compare(text, "at once", at_once.as_str(), by_events.as_str())?;
    Ok(())
}

// The same of the text as it stands, and with a bracket at its end, which may close what is open.
fn compare_ended(report: &mut Report, alloc: Global, text: &str) -> Result<(), Fail> {
    compare(report, alloc, text)?;
    for end in ["]", "}"] {
        let mut ended = String::new(alloc);
        ended.push_str(text)?;
        ended.push_str(end)?;
        compare(report, alloc, ended.as_str())?;
    }
    Ok(())
}

#[test]
fn each_beginning_is_read_alike(rt: HostRuntime) -> Result<(), Fail> {
    let mut report = Report::new(rt.alloc());
    for text in &TEXTS {
        for end in 0..text.len() {
            if let Some((front, _)) = text.split_at_checked(end) {
                compare_ended(&mut report, rt.alloc(), front)?;
            }
        }
        compare(&mut report, rt.alloc(), text)?;
    }
    assert!(rt; report.is_empty(), "{report}");
    Ok(())
}

// A text behind so many blanks of one kind.
fn indented(alloc: Global, blank: char, count: usize, text: &str) -> Result<String, Fail> {
    let mut indented = String::new(alloc);
    for _ in 0..count {
        indented.push(blank)?;
    }
    indented.push_str(text)?;
    Ok(indented)
}

#[test]
fn texts_behind_blanks_are_read_alike(rt: HostRuntime) -> Result<(), Fail> {
    let mut report = Report::new(rt.alloc());
    for blank in [' ', '\t', '\n', '\r'] {
        for count in [1, 63, 64, 65, 66, 130] {
            for text in ["[1]", "{\"a\": 1}", "[x]", "a", "[\n\t1]"] {
                let text = indented(rt.alloc(), blank, count, text)?;
                compare(&mut report, rt.alloc(), text.as_str())?;
            }
        }
    }
    assert!(rt; report.is_empty(), "{report}");
    Ok(())
}

// Arrays or objects, one in another.
fn nested(alloc: Global, levels: usize, open: &str, close: &str) -> Result<String, Fail> {
    let mut text = String::new(alloc);
    for _ in 0..levels {
        text.push_str(open)?;
    }
    text.push('1')?;
    for _ in 0..levels {
        text.push_str(close)?;
    }
    Ok(text)
}

#[test]
fn deep_texts_are_read_alike(rt: HostRuntime) -> Result<(), Fail> {
    let mut report = Report::new(rt.alloc());
    for levels in [1, 2, 254, 255, 256, 257] {
        let arrays = nested(rt.alloc(), levels, "[", "]")?;
        compare(&mut report, rt.alloc(), arrays.as_str())?;
        let objects = nested(rt.alloc(), levels, "{\"a\":", "}")?;
        compare(&mut report, rt.alloc(), objects.as_str())?;
    }
    assert!(rt; report.is_empty(), "{report}");
    Ok(())
}
