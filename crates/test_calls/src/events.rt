//! Events and their places.
use std::alloc::Global;
use std::process::Abort;
use std::str::Chars;
use std::test::Fail;
use test_rows::Report;
use yaml_chars::Marker;
use yaml_parser::{Event, Parser, Tag};

// A scalar or an alias with its place, a line of it; no words for another event.
fn words(alloc: Global, event: &Event, mark: Marker) -> Result<String, Fail> {
    match event {
        Event::Scalar(_, _, _, _) | Event::Alias(_) => Ok(format!(in alloc;
            "{event:?} {} {} {}\n",
            mark.index(),
            mark.line(),
            mark.col()
        )?),
        _ => Ok(String::new(alloc)),
    }
}

// The words of the next event or the fault, and whether it is the last.
fn scalar_words(alloc: Global, parser: &mut Parser<Chars<'_>>) -> Result<(bool, String), Fail> {
    match parser.next_token() {
        Ok((event, mark)) => Ok((event == Event::StreamEnd, words(alloc, &event, mark)?)),
        Err(fault) => Ok((true, format!(in alloc; "{fault}\n")?)),
    }
}

// The events of scalars and aliases, with their places, a line each; and the fault where one comes.
fn scalars(alloc: Global, text: &str) -> Result<String, Fail> {
    let mut parser = Parser::new_from_str(alloc, text);
    let mut lines = String::new(alloc);
    for _ in 0..100 {
        let (ends, words) = scalar_words(alloc, &mut parser)?;
        lines.push_str(words.as_str())?;
        if ends {
            break;
        }
    }
    Ok(lines)
}

// What it shows, a text, and its scalars and aliases, each with index, line and column.
type Row = (&'static str, &'static str, &'static str);

const PLACES: [Row; 8] = [
    (
        "a character that is not ASCII counts once",
        "[\"\u{e9}\", 1]",
        "Scalar(\"\u{e9}\", DoubleQuoted, 0, None) 1 1 1\nScalar(\"1\", Plain, 0, None) 6 1 6\n",
    ),
    (
        "characters that are not ASCII, more than the window holds",
        "a: |\n  \u{e9}\u{e9}\u{e9}\u{e9}\u{e9}\u{e9}\u{e9}\u{e9}\u{e9}\u{e9}\u{e9}\u{e9}\u{e9}\u{e9}\u{e9}\u{e9}\u{e9}\u{e9}\u{e9}\u{e9}\nb: 1",
        "Scalar(\"a\", Plain, 0, None) 0 1 0\nScalar(\"\u{e9}\u{e9}\u{e9}\u{e9}\u{e9}\u{e9}\u{e9}\u{e9}\u{e9}\u{e9}\u{e9}\u{e9}\u{e9}\u{e9}\u{e9}\u{e9}\u{e9}\u{e9}\u{e9}\u{e9}\\n\", Literal, 0, None) 7 2 2\nScalar(\"b\", Plain, 0, None) 28 3 0\nScalar(\"1\", Plain, 0, None) 31 3 3\n",
    ),
    (
        "anchors and an alias",
        "- &a 1\n- &a 2\n- *a",
        "Scalar(\"1\", Plain, 1, None) 5 1 5\nScalar(\"2\", Plain, 2, None) 12 2 5\nAlias(2) 16 3 2\n",
    ),
    (
        "a document without content",
        "---",
        "Scalar(\"\", Plain, 0, None) 3 2 0\n",
    ),
    (
        "an anchor without content",
        "&a",
        "Scalar(\"\", Plain, 1, None) 2 2 0\n",
    ),
    (
        "a verbatim tag",
        "!<tag:x%C3%A9> a",
        "Scalar(\"a\", Plain, 0, Some(Tag { handle: \"\", suffix: \"tag:x\u{e9}\" })) 15 1 15\n",
    ),
    (
        "a tag before an anchor",
        "!!int &x 5",
        "Scalar(\"5\", Plain, 1, Some(Tag { handle: \"tag:yaml.org,2002:\", suffix: \"int\" })) 9 1 9\n",
    ),
    (
        "declared handles",
        "%TAG !a! x:\n%TAG !b! y:\n--- [!a!p 1, !b!q 2]",
        "Scalar(\"1\", Plain, 0, Some(Tag { handle: \"x:\", suffix: \"p\" })) 34 3 10\nScalar(\"2\", Plain, 0, Some(Tag { handle: \"y:\", suffix: \"q\" })) 42 3 18\n",
    ),
];

// Each text has the scalars and aliases of its row. All rows that fail are told.
fn rows_hold(rt: &(impl Abort + AllocGlobal), rows: &[Row]) -> Result<(), Fail> {
    let mut report = Report::new(rt.alloc());
    for (name, text, want) in rows {
        let found = scalars(rt.alloc(), text)?;
        report.compare(name, "pulled", found.as_str(), want)?;
    }
    assert!(rt; report.is_empty(), "{report}");
    Ok(())
}

#[test]
fn places_count_characters(rt: HostRuntime) -> Result<(), Fail> {
    rows_hold(&rt, &PLACES)
}

// Every kind of event.
const ALL_EVENTS: &str =
    "%YAML 1.2\n%TAG !t! x:\n--- &a !t!b [*a, {? c : 'd'}, e: f]\n...\n---\n- |\n g\n- h: !<i> j\n";

fn is_tag_copied(alloc: Global, tag: &Tag) -> Result<bool, Fail> {
    Ok(tag.clone(alloc)? == *tag)
}

// Whether an event and its tag are equal to their copies.
fn is_copied(alloc: Global, event: &Event) -> Result<bool, Fail> {
    if let Event::Scalar(_, _, _, Some(tag)) | Event::SequenceStart(_, Some(tag)) = event {
        if !is_tag_copied(alloc, tag)? {
            return Ok(false);
        }
    }
    Ok(event.clone(alloc)? == *event)
}

// Whether the next event is equal to its copy, and whether it is the last.
fn next_is_copied(alloc: Global, parser: &mut Parser<Chars<'_>>) -> Result<(bool, bool), Fail> {
    let (event, _) = parser.next_token()?;
    Ok((is_copied(alloc, &event)?, event == Event::StreamEnd))
}

#[test]
fn events_are_copied(rt: HostRuntime) -> Result<(), Fail> {
    let mut parser = Parser::new_from_str(rt.alloc(), ALL_EVENTS);
    for _ in 0..100 {
        let (is_equal, is_last) = next_is_copied(rt.alloc(), &mut parser)?;
        assert!(rt; is_equal);
        if is_last {
            return Ok(());
        }
    }
    Err(Fail::from("no end"))
}

// Each document uses the handle that the first one declares, and an anchor of its own.
const TWO_DOCUMENTS: &str = "%TAG !t! x:\n--- [&a !t!p 1, *a]\n--- [&a !t!p 2, *a]\n";

// The line of the next event or fault, and whether it is the last; the stream's end has no line.
fn line_words(alloc: Global, parser: &mut Parser<Chars<'_>>) -> Result<(bool, String), Fail> {
    match parser.next_token() {
        Ok((Event::StreamEnd, _)) => Ok((true, String::new(alloc))),
        Ok((event, _)) => Ok((false, format!(in alloc; "{event:?}\n")?)),
        Err(fault) => Ok((true, format!(in alloc; "{fault}\n")?)),
    }
}

// The lines of the events that are left, or the fault.
fn rest_words(alloc: Global, parser: &mut Parser<Chars<'_>>) -> Result<String, Fail> {
    let mut lines = String::new(alloc);
    for _ in 0..20 {
        let (ends, words) = line_words(alloc, parser)?;
        lines.push_str(words.as_str())?;
        if ends {
            break;
        }
    }
    Ok(lines)
}

// The events of a text, or those before its fault and the fault.
fn all_words(alloc: Global, text: &str) -> Result<String, Fail> {
    rest_words(alloc, &mut Parser::new_from_str(alloc, text))
}

// What stands before a refused token: nothing for a node that is awaited, and what is missing before the end or the next entry.
const REFUSED: [Row; 5] = [
    (
        "an item of a block sequence is awaited",
        "- ]",
        "StreamStart\nDocumentStart\nSequenceStart(0, None)\nwhile parsing a node, did not find expected node content at byte 2 line 1 column 3\n",
    ),
    (
        "a value without key is awaited in a flow mapping",
        "{:]",
        "StreamStart\nDocumentStart\nMappingStart(0, None)\nScalar(\"\", Plain, 0, None)\nwhile parsing a node, did not find expected node content at byte 2 line 1 column 3\n",
    ),
    (
        "a value is missing in a flow mapping",
        "{? a]",
        "StreamStart\nDocumentStart\nMappingStart(0, None)\nScalar(\"a\", Plain, 0, None)\nScalar(\"\", Plain, 0, None)\nwhile parsing a flow mapping, did not find expected ',' or '}' at byte 4 line 1 column 5\n",
    ),
    (
        "a sequence without indentation ends, and its value is missing",
        "?\n- a\n]",
        "StreamStart\nDocumentStart\nMappingStart(0, None)\nSequenceStart(0, None)\nScalar(\"a\", Plain, 0, None)\nSequenceEnd\nScalar(\"\", Plain, 0, None)\nwhile parsing a block mapping, did not find expected key at byte 6 line 3 column 1\n",
    ),
    (
        "properties alone are a node",
        "[&a }",
        "StreamStart\nDocumentStart\nSequenceStart(0, None)\nScalar(\"\", Plain, 1, None)\nwhile parsing a flow sequence, expected ',' or ']' at byte 4 line 1 column 5\n",
    ),
];

// Each text has the events and the fault of its row. All rows that fail are told.
fn events_hold(rt: &(impl Abort + AllocGlobal), rows: &[Row]) -> Result<(), Fail> {
    let mut report = Report::new(rt.alloc());
    for (name, text, want) in rows {
        let found = all_words(rt.alloc(), text)?;
        report.compare(name, "pulled", found.as_str(), want)?;
    }
    assert!(rt; report.is_empty(), "{report}");
    Ok(())
}

#[test]
fn events_before_a_refused_token(rt: HostRuntime) -> Result<(), Fail> {
    events_hold(&rt, &REFUSED)
}

// The events after the third, with which the setting is made another one; or the fault.
fn with_late_setting(alloc: Global, keep_tags: bool) -> Result<String, Fail> {
    let mut parser = Parser::new_from_str(alloc, TWO_DOCUMENTS).keep_tags(!keep_tags);
    for _ in 0..3 {
        parser.next_token()?;
    }
    rest_words(alloc, &mut parser.keep_tags(keep_tags))
}

#[test]
fn late_settings_count_from_the_next_document(rt: HostRuntime) -> Result<(), Fail> {
    let first =
        "Scalar(\"1\", Plain, 1, Some(Tag { handle: \"x:\", suffix: \"p\" }))\nAlias(1)\nSequenceEnd\nDocumentEnd\nDocumentStart\nSequenceStart(0, None)\n";
    let kept =
        "Scalar(\"2\", Plain, 2, Some(Tag { handle: \"x:\", suffix: \"p\" }))\nAlias(2)\nSequenceEnd\nDocumentEnd\n";
    let forgotten = "the handle wasn't declared at byte 37 line 3 column 6\n";
    let alloc = rt.alloc();
    assert_eq!(rt;
        with_late_setting(alloc, true)?.as_str(),
        format!(in alloc; "{first}{kept}")?.as_str()
    );
    assert_eq!(rt;
        with_late_setting(alloc, false)?.as_str(),
        format!(in alloc; "{first}{forgotten}")?.as_str()
    );
    Ok(())
}
