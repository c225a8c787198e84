//! Refused texts: the tokens and the events that come one by one before the fault.
use super::reading::note_events;
use std::alloc::Global;
use std::process::Abort;
use std::str::Chars;
use std::test::Fail;
use test_rows::Report;
use yaml_rust2::scanner::Scanner;

// What it shows, a text, its tokens and its events: each with index, line and column, and the fault last where one comes.
type Row = (&'static str, &'static str, &'static str, &'static str);

const ROWS: [Row; 16] = [
    (
        "`@` as the value of a key",
        "a: 1\nb: @",
        "StreamStart(Utf8) 0 1 0\nBlockMappingStart 1 1 1\nKey 0 1 0\nScalar(Plain, \"a\") 0 1 0\nValue 1 1 1\nScalar(Plain, \"1\") 3 1 3\nKey 5 2 0\nScalar(Plain, \"b\") 5 2 0\nValue 6 2 1\nunexpected character: `@' at byte 8 line 2 column 4\n",
        "StreamStart 0 1 0\nDocumentStart 1 1 1\nMappingStart(0, None) 1 1 1\nScalar(\"a\", Plain, 0, None) 0 1 0\nScalar(\"1\", Plain, 0, None) 3 1 3\nScalar(\"b\", Plain, 0, None) 5 2 0\nunexpected character: `@' at byte 8 line 2 column 4\n",
    ),
    (
        "a bracket that ends nothing, and `@` on the next line",
        "]\n@",
        "StreamStart(Utf8) 0 1 0\nFlowSequenceEnd 0 1 0\nunexpected character: `@' at byte 2 line 2 column 1\n",
        "StreamStart 0 1 0\nDocumentStart 0 1 0\nwhile parsing a node, did not find expected node content at byte 0 line 1 column 1\n",
    ),
    (
        "a bracket that ends nothing, and `@` right after it",
        "[a]]@",
        "StreamStart(Utf8) 0 1 0\nFlowSequenceStart 0 1 0\nScalar(Plain, \"a\") 1 1 1\nFlowSequenceEnd 2 1 2\nFlowSequenceEnd 3 1 3\nunexpected character: `@' at byte 4 line 1 column 5\n",
        "StreamStart 0 1 0\nDocumentStart 0 1 0\nSequenceStart(0, None) 0 1 0\nScalar(\"a\", Plain, 0, None) 1 1 1\nSequenceEnd 2 1 2\nDocumentEnd 3 1 3\ndid not find expected <document start> at byte 3 line 1 column 4\n",
    ),
    (
        "`@` in a sequence that may be a key",
        "[,, @]",
        "StreamStart(Utf8) 0 1 0\nunexpected character: `@' at byte 4 line 1 column 5\n",
        "StreamStart 0 1 0\nunexpected character: `@' at byte 4 line 1 column 5\n",
    ),
    (
        "`@` on the second line of a sequence that began where a key may stand",
        "a: 1\n[\n @",
        "StreamStart(Utf8) 0 1 0\nBlockMappingStart 1 1 1\nKey 0 1 0\nScalar(Plain, \"a\") 0 1 0\nValue 1 1 1\nScalar(Plain, \"1\") 3 1 3\nunexpected character: `@' at byte 8 line 3 column 2\n",
        "StreamStart 0 1 0\nDocumentStart 1 1 1\nMappingStart(0, None) 1 1 1\nScalar(\"a\", Plain, 0, None) 0 1 0\nScalar(\"1\", Plain, 0, None) 3 1 3\nunexpected character: `@' at byte 8 line 3 column 2\n",
    ),
    (
        "a bracket as an item",
        "- ]",
        "StreamStart(Utf8) 0 1 0\nBlockSequenceStart 0 1 0\nBlockEntry 2 1 2\nFlowSequenceEnd 2 1 2\nBlockEnd 3 2 0\nStreamEnd 3 2 0\n",
        "StreamStart 0 1 0\nDocumentStart 0 1 0\nSequenceStart(0, None) 0 1 0\nwhile parsing a node, did not find expected node content at byte 2 line 1 column 3\n",
    ),
    (
        "a second `:` in one entry",
        "{a: b: c}",
        "StreamStart(Utf8) 0 1 0\nFlowMappingStart 0 1 0\nKey 1 1 1\nScalar(Plain, \"a\") 1 1 1\nValue 2 1 2\nScalar(Plain, \"b\") 4 1 4\nValue 5 1 5\nScalar(Plain, \"c\") 7 1 7\nFlowMappingEnd 8 1 8\nStreamEnd 9 2 0\n",
        "StreamStart 0 1 0\nDocumentStart 0 1 0\nMappingStart(0, None) 0 1 0\nScalar(\"a\", Plain, 0, None) 1 1 1\nScalar(\"b\", Plain, 0, None) 4 1 4\nwhile parsing a flow mapping, did not find expected ',' or '}' at byte 5 line 1 column 6\n",
    ),
    (
        "a dash where a value is awaited, before a scalar with `@`",
        "? a\n- b @",
        "StreamStart(Utf8) 0 1 0\nBlockMappingStart 0 1 0\nKey 0 1 0\nScalar(Plain, \"a\") 2 1 2\nBlockEntry 6 2 2\nScalar(Plain, \"b @\") 6 2 2\nBlockEnd 9 3 0\nStreamEnd 9 3 0\n",
        "StreamStart 0 1 0\nDocumentStart 0 1 0\nMappingStart(0, None) 0 1 0\nScalar(\"a\", Plain, 0, None) 2 1 2\nScalar(\"\", Plain, 0, None) 6 2 2\nwhile parsing a block mapping, did not find expected key at byte 6 line 2 column 3\n",
    ),
    (
        "a dash where a value is awaited, and `@` on the next line",
        "? a\n- b\n@",
        "StreamStart(Utf8) 0 1 0\nBlockMappingStart 0 1 0\nKey 0 1 0\nScalar(Plain, \"a\") 2 1 2\nBlockEntry 6 2 2\nScalar(Plain, \"b\") 6 2 2\nunexpected character: `@' at byte 8 line 3 column 1\n",
        "StreamStart 0 1 0\nDocumentStart 0 1 0\nMappingStart(0, None) 0 1 0\nScalar(\"a\", Plain, 0, None) 2 1 2\nScalar(\"\", Plain, 0, None) 6 2 2\nwhile parsing a block mapping, did not find expected key at byte 6 line 2 column 3\n",
    ),
    (
        "a bad escape in a scalar that may be a key",
        "a: 1\n\"b\\q\": 2",
        "StreamStart(Utf8) 0 1 0\nBlockMappingStart 1 1 1\nKey 0 1 0\nScalar(Plain, \"a\") 0 1 0\nValue 1 1 1\nScalar(Plain, \"1\") 3 1 3\nwhile parsing a quoted scalar, found unknown escape character at byte 5 line 2 column 1\n",
        "StreamStart 0 1 0\nDocumentStart 1 1 1\nMappingStart(0, None) 1 1 1\nScalar(\"a\", Plain, 0, None) 0 1 0\nScalar(\"1\", Plain, 0, None) 3 1 3\nwhile parsing a quoted scalar, found unknown escape character at byte 5 line 2 column 1\n",
    ),
    (
        "a bad escape after an anchor that may begin a key",
        "- &x \"\\q\"",
        "StreamStart(Utf8) 0 1 0\nBlockSequenceStart 0 1 0\nBlockEntry 2 1 2\nwhile parsing a quoted scalar, found unknown escape character at byte 5 line 1 column 6\n",
        "StreamStart 0 1 0\nDocumentStart 0 1 0\nSequenceStart(0, None) 0 1 0\nwhile parsing a quoted scalar, found unknown escape character at byte 5 line 1 column 6\n",
    ),
    (
        "a bad escape after an anchor where no key may stand",
        "a: &x \"\\q\"",
        "StreamStart(Utf8) 0 1 0\nBlockMappingStart 1 1 1\nKey 0 1 0\nScalar(Plain, \"a\") 0 1 0\nValue 1 1 1\nAnchor(\"x\") 3 1 3\nwhile parsing a quoted scalar, found unknown escape character at byte 6 line 1 column 7\n",
        "StreamStart 0 1 0\nDocumentStart 1 1 1\nMappingStart(0, None) 1 1 1\nScalar(\"a\", Plain, 0, None) 0 1 0\nwhile parsing a quoted scalar, found unknown escape character at byte 6 line 1 column 7\n",
    ),
    (
        "a bad escape on the line after a scalar that might have been a key",
        "'a'\n\"\\q\"",
        "StreamStart(Utf8) 0 1 0\nScalar(SingleQuoted, \"a\") 0 1 0\nwhile parsing a quoted scalar, found unknown escape character at byte 4 line 2 column 1\n",
        "StreamStart 0 1 0\nDocumentStart 0 1 0\nScalar(\"a\", SingleQuoted, 0, None) 0 1 0\nwhile parsing a quoted scalar, found unknown escape character at byte 4 line 2 column 1\n",
    ),
    (
        "a bad escape after a sequence that may be a key",
        "- [a] \"\\q\"",
        "StreamStart(Utf8) 0 1 0\nBlockSequenceStart 0 1 0\nBlockEntry 2 1 2\nwhile parsing a quoted scalar, found unknown escape character at byte 6 line 1 column 7\n",
        "StreamStart 0 1 0\nDocumentStart 0 1 0\nSequenceStart(0, None) 0 1 0\nwhile parsing a quoted scalar, found unknown escape character at byte 6 line 1 column 7\n",
    ),
    (
        "a bad escape after a mapping that may be a key",
        "k: v\n{a: b} \"\\q\"",
        "StreamStart(Utf8) 0 1 0\nBlockMappingStart 1 1 1\nKey 0 1 0\nScalar(Plain, \"k\") 0 1 0\nValue 1 1 1\nScalar(Plain, \"v\") 3 1 3\nwhile parsing a quoted scalar, found unknown escape character at byte 12 line 2 column 8\n",
        "StreamStart 0 1 0\nDocumentStart 1 1 1\nMappingStart(0, None) 1 1 1\nScalar(\"k\", Plain, 0, None) 0 1 0\nScalar(\"v\", Plain, 0, None) 3 1 3\nwhile parsing a quoted scalar, found unknown escape character at byte 12 line 2 column 8\n",
    ),
    (
        "a bad escape after a sequence where no key may stand",
        "a: [b] \"\\q\"",
        "StreamStart(Utf8) 0 1 0\nBlockMappingStart 1 1 1\nKey 0 1 0\nScalar(Plain, \"a\") 0 1 0\nValue 1 1 1\nFlowSequenceStart 3 1 3\nScalar(Plain, \"b\") 4 1 4\nFlowSequenceEnd 5 1 5\nwhile parsing a quoted scalar, found unknown escape character at byte 7 line 1 column 8\n",
        "StreamStart 0 1 0\nDocumentStart 1 1 1\nMappingStart(0, None) 1 1 1\nScalar(\"a\", Plain, 0, None) 0 1 0\nSequenceStart(0, None) 3 1 3\nScalar(\"b\", Plain, 0, None) 4 1 4\nSequenceEnd 5 1 5\nwhile parsing a quoted scalar, found unknown escape character at byte 7 line 1 column 8\n",
    ),
];

// The next token's line, or the fault's, and whether it is the last. After the last token there is none.
fn token_line(alloc: Global, scanner: &mut Scanner<Chars<'_>>) -> Result<(String, bool), Fail> {
    match scanner.next_token() {
        Ok(Some(token)) => {
            let index = token.0.index();
            let line = token.0.line();
            let col = token.0.col();
            Ok((
                format!(in alloc; "{:?} {index} {line} {col}\n", token.1)?,
                false,
            ))
        }
        Ok(None) => Ok((String::new(alloc), true)),
        Err(fault) => Ok((format!(in alloc; "{fault}\n")?, true)),
    }
}

// The tokens of a text that come one by one, and the fault where one comes.
fn tokens(alloc: Global, text: &str) -> Result<String, Fail> {
    let mut scanner = Scanner::new(alloc, text.chars());
    let mut lines = String::new(alloc);
    for _ in 0..100 {
        let (line, is_last) = token_line(alloc, &mut scanner)?;
        lines.push_str(line.as_str())?;
        if is_last {
            break;
        }
    }
    Ok(lines)
}

// Before each row's fault come its tokens and events. All rows that fail are told.
fn rows_hold(rt: &(impl Abort + AllocGlobal), rows: &[Row]) -> Result<(), Fail> {
    let mut report = Report::new(rt.alloc());
    for (name, text, tokens_want, events) in rows {
        let found = tokens(rt.alloc(), text)?;
        report.compare(name, "scanned", found.as_str(), tokens_want)?;
        note_events(&mut report, rt.alloc(), name, text, false, events)?;
    }
    assert!(rt; report.is_empty(), "{report}");
    Ok(())
}

#[test]
fn tokens_and_events_come_before_the_fault(rt: HostRuntime) -> Result<(), Fail> {
    rows_hold(&rt, &ROWS)
}
