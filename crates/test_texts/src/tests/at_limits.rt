//! Texts up to a limit and one step past it: what each beginning of them loads as, and their events.
use super::dumping::{COMPACT, dumped};
use super::limits::{nested, of_long_key, with_letters};
use super::reading::{note_events, note_trees};
use std::alloc::Global;
use std::process::Abort;
use std::test::Fail;
use test_rows::Report;

#[derive(Clone, Copy)]
enum Source {
    // So many `[`, and as many `]`.
    Brackets(usize),
    // The dump of a hash with the value 1 and a key of so many letters.
    Key(usize),
}

fn text_of(alloc: Global, source: Source) -> Result<String, Fail> {
    match source {
        Source::Brackets(levels) => nested(alloc, levels, "[", "", "]"),
        Source::Key(letters) => with_letters(alloc, "---\n", letters, ": 1"),
    }
}

// What a beginning of a text loads as.
#[derive(Clone, Copy)]
enum Answer {
    // This, or this fault, however long it is.
    Is(&'static str),
    // This fault at its end, which counts as the start of the next line.
    FaultAtEnd(&'static str),
    // As many arrays as there may be, one in another.
    Arrays,
    // The string of the letters after its first line.
    Letters,
    // A hash with a key of 1024 letters. Its value, and what ends the words.
    Pair(&'static str),
}

fn words_of(alloc: Global, answer: Answer, count: usize) -> Result<String, Fail> {
    match answer {
        Answer::Is(words) => Ok(String::from_str(alloc, words)?),
        Answer::FaultAtEnd(fault) => {
            Ok(format!(in alloc; "{fault} at byte {count} line 2 column 1")?)
        }
        Answer::Arrays => {
            let arrays = nested(alloc, 255, "Array([", "", "])")?;
            Ok(format!(in alloc; "[{arrays}]")?)
        }
        Answer::Letters => with_letters(alloc, "[String(\"", count.saturating_sub(4), "\")]"),
        Answer::Pair(end) => with_letters(alloc, "[Hash({String(\"", 1024, end),
    }
}

// What it shows, a text, and the answer for its beginnings up to each of these lengths. An answer is for those that are longer
// than the length of the answer before it.
type Row = (&'static str, Source, &'static [(usize, Answer)]);

const ROWS: [Row; 4] = [
    (
        "as many levels as may be",
        Source::Brackets(255),
        &[
            (0, Answer::Is("[]")),
            (
                255,
                Answer::FaultAtEnd("while parsing a node, did not find expected node content"),
            ),
            (
                509,
                Answer::FaultAtEnd("while parsing a flow sequence, expected ',' or ']'"),
            ),
            (510, Answer::Arrays),
        ],
    ),
    (
        "one level too many",
        Source::Brackets(256),
        &[
            (0, Answer::Is("[]")),
            (
                255,
                Answer::FaultAtEnd("while parsing a node, did not find expected node content"),
            ),
            (
                512,
                Answer::Is("recursion limit exceeded at byte 255 line 1 column 256"),
            ),
        ],
    ),
    (
        "a key as long as may be",
        Source::Key(1024),
        &[
            (0, Answer::Is("[]")),
            (1, Answer::Is("[Array([Null])]")),
            (2, Answer::Is("[String(\"--\")]")),
            (4, Answer::Is("[Null]")),
            (1028, Answer::Letters),
            (1030, Answer::Pair("\"): Null})]")),
            (1031, Answer::Pair("\"): Integer(1)})]")),
        ],
    ),
    (
        "a key with a letter too many",
        Source::Key(1025),
        &[
            (0, Answer::Is("[]")),
            (1, Answer::Is("[Array([Null])]")),
            (2, Answer::Is("[String(\"--\")]")),
            (4, Answer::Is("[Null]")),
            (1029, Answer::Letters),
            (
                1032,
                Answer::Is(
                    "mapping values are not allowed in this context at byte 1029 line 2 column 1026",
                ),
            ),
        ],
    ),
];

// The answer of the beginning of so many characters.
fn answer_at(answers: &[(usize, Answer)], count: usize) -> Option<Answer> {
    for (last, answer) in answers {
        if count <= *last {
            return Some(*answer);
        }
    }
    None
}

// Notes where the beginning of so many characters does not load as its row says.
fn note_beginning(
    report: &mut Report,
    alloc: Global,
    row: &Row,
    text: &str,
    count: usize,
) -> Result<(), Fail> {
    let (name, _, answers) = row;
    let beginning = text.get(..count).ok_or("no beginning")?;
    let answer = answer_at(answers, count).ok_or("no answer")?;
    let want = words_of(alloc, answer, count)?;
    let name = format!(in alloc; "{name}, the first {count} characters")?;
    note_trees(report, alloc, name.as_str(), beginning, want.as_str())
}

// The same of every beginning, the empty one and the whole text too.
fn note_beginnings(report: &mut Report, alloc: Global, row: &Row) -> Result<(), Fail> {
    let text = text_of(alloc, row.1)?;
    for count in 0..=text.len() {
        note_beginning(report, alloc, row, text.as_str(), count)?;
    }
    Ok(())
}

#[test]
fn beginnings_are_read_up_to_the_limits(rt: HostRuntime) -> Result<(), Fail> {
    let mut report = Report::new(rt.alloc());
    for row in &ROWS {
        note_beginnings(&mut report, rt.alloc(), row)?;
    }
    assert!(rt; report.is_empty(), "{report}");
    Ok(())
}

// The events of 255 brackets on each side, with their places.
fn bracket_events(alloc: Global) -> Result<String, Fail> {
    let mut lines = String::from_str(alloc, "StreamStart 0 1 0\nDocumentStart 0 1 0\n")?;
    for index in 0..510u32 {
        let event = if index < 255 {
            "SequenceStart(0, None)"
        } else {
            "SequenceEnd"
        };
        lines.push_str(format!(in alloc; "{event} {index} 1 {index}\n")?.as_str())?;
    }
    lines.push_str("DocumentEnd 510 2 0\nStreamEnd 510 2 0\n")?;
    Ok(lines)
}

// The events of a text with their places, and the fault where one comes.
fn events_of(alloc: Global, source: Source) -> Result<String, Fail> {
    match source {
        Source::Brackets(255) => bracket_events(alloc),
        Source::Brackets(_) => Ok(String::from_str(
            alloc,
            "StreamStart 0 1 0\nrecursion limit exceeded at byte 255 line 1 column 256\n",
        )?),
        Source::Key(1024) => with_letters(
            alloc,
            "StreamStart 0 1 0\nDocumentStart 0 1 0\nMappingStart(0, None) 1028 2 1024\nScalar(\"",
            1024,
            "\", Plain, 0, None) 4 2 0\nScalar(\"1\", Plain, 0, None) 1030 2 1026\nMappingEnd 1031 3 0\nDocumentEnd 1031 3 0\nStreamEnd 1031 3 0\n",
        ),
        Source::Key(_) => with_letters(
            alloc,
            "StreamStart 0 1 0\nDocumentStart 0 1 0\nScalar(\"",
            1025,
            "\", Plain, 0, None) 4 2 0\nmapping values are not allowed in this context at byte 1029 line 2 column 1026\n",
        ),
    }
}

#[test]
fn events_come_up_to_the_limits(rt: HostRuntime) -> Result<(), Fail> {
    let mut report = Report::new(rt.alloc());
    for (name, source, _) in &ROWS {
        let text = text_of(rt.alloc(), *source)?;
        let want = events_of(rt.alloc(), *source)?;
        note_events(
            &mut report,
            rt.alloc(),
            name,
            text.as_str(),
            false,
            want.as_str(),
        )?;
    }
    assert!(rt; report.is_empty(), "{report}");
    Ok(())
}

#[test]
fn long_keys_are_dumped_without_quotes(rt: HostRuntime) -> Result<(), Fail> {
    for letters in [1024, 1025] {
        let tree = of_long_key(rt.alloc(), letters)?;
        let found = dumped(rt.alloc(), &tree, COMPACT)?;
        assert!(rt; found == text_of(rt.alloc(), Source::Key(letters))?);
    }
    Ok(())
}
