//! What texts are read as, in each way, and the rows of a table.
use std::alloc::{AllocError, Global};
use std::process::Abort;
use std::str::Chars;
use std::test::Fail;
use test_rows::Report;
use yaml_rust2::parser::{Event, MarkedEventReceiver, Parser};
use yaml_rust2::scanner::Marker;
use yaml_rust2::{ScanError, Yaml, YamlLoader};

/// What a row shows, a text, and the trees that it loads as, or its fault.
pub(crate) type Row = (&'static str, &'static str, &'static str);

fn shown(alloc: Global, answer: Result<Vec<Yaml>, ScanError>) -> Result<String, Fail> {
    match answer {
        Ok(documents) => Ok(format!(in alloc; "{documents:?}")?),
        Err(fault) => Ok(format!(in alloc; "{fault}")?),
    }
}

/// What a text loads as.
pub(crate) fn loaded(alloc: Global, text: &str) -> Result<String, Fail> {
    shown(alloc, YamlLoader::load_from_str(alloc, text))
}

/// The same by the characters that an iterator gives.
pub(crate) fn loaded_from_iter(alloc: Global, text: &str) -> Result<String, Fail> {
    shown(alloc, YamlLoader::load_from_iter(alloc, text.chars()))
}

/// The same where declared handles are kept.
pub(crate) fn loaded_with_tags(alloc: Global, text: &str) -> Result<String, Fail> {
    let mut parser = Parser::new_from_str(alloc, text).keep_tags(true);
    shown(alloc, YamlLoader::load_from_parser(alloc, &mut parser))
}

// Keeps what is pushed as lines.
#[derive(Drop)]
struct Lines {
    alloc: Global,
    text: String,
}

impl Lines {
    fn keep(&mut self, event: &Event, mark: Marker) -> Result<(), AllocError> {
        let line = line_of(self.alloc, event, mark)?;
        self.text.push_str(line.as_str())
    }
}

impl MarkedEventReceiver for Lines {
    fn on_event(&mut self, event: Event, mark: Marker) -> Result<(), ScanError> {
        self.keep(&event, mark).map_err(|_| ScanError::memory(mark))
    }
}

fn line_of(alloc: Global, event: &Event, mark: Marker) -> Result<String, AllocError> {
    let index = mark.index();
    let line = mark.line();
    let col = mark.col();
    format!(in alloc; "{event:?} {index} {line} {col}\n")
}

/// A parser of a text, which may keep declared handles.
pub(crate) fn parser(alloc: Global, text: &str, keep_tags: bool) -> Parser<Chars<'_>> {
    Parser::new_from_str(alloc, text).keep_tags(keep_tags)
}

// The events that are pushed, with their places, a line each, and the fault where one comes.
fn pushed(alloc: Global, mut parser: Parser<Chars<'_>>) -> Result<String, Fail> {
    let mut lines = Lines {
        alloc,
        text: String::new(alloc),
    };
    match parser.load(&mut lines, true) {
        Ok(()) => Ok(lines.text),
        Err(fault) => Ok(format!(in alloc; "{}{fault}\n", lines.text)?),
    }
}

// The next event's line, and whether it is the last.
fn pull(alloc: Global, parser: &mut Parser<Chars<'_>>) -> Result<(String, bool), Fail> {
    match parser.next_token() {
        Ok((event, mark)) => {
            let line = line_of(alloc, &event, mark)?;
            Ok((line, event == Event::StreamEnd))
        }
        Err(fault) => Ok((format!(in alloc; "{fault}\n")?, true)),
    }
}

// The line of the event that a look shows.
fn look(alloc: Global, parser: &mut Parser<Chars<'_>>) -> Result<String, Fail> {
    match parser.peek() {
        Ok(shown) => Ok(line_of(alloc, &shown.0, shown.1)?),
        Err(fault) => Ok(format!(in alloc; "{fault}\n")?),
    }
}

// The same as a pull, after a look. If the look shows something else, its line comes first.
fn look_and_pull(alloc: Global, parser: &mut Parser<Chars<'_>>) -> Result<(String, bool), Fail> {
    let shown = look(alloc, parser)?;
    let (line, is_last) = pull(alloc, parser)?;
    if shown == line {
        return Ok((line, is_last));
    }
    Ok((format!(in alloc; "{shown}{line}")?, is_last))
}

/// The same events, pulled, each after a look where `peeks`.
pub(crate) fn pulled(
    alloc: Global,
    mut parser: Parser<Chars<'_>>,
    peeks: bool,
) -> Result<String, Fail> {
    let mut lines = String::new(alloc);
    for _ in 0..10000 {
        let (line, is_last) = if peeks {
            look_and_pull(alloc, &mut parser)?
        } else {
            pull(alloc, &mut parser)?
        };
        lines.push_str(line.as_str())?;
        if is_last {
            break;
        }
    }
    Ok(lines)
}

// Whether a text loads, or has a fault with a text that is no want of memory.
fn is_answered(alloc: Global, text: &str) -> bool {
    match YamlLoader::load_from_str(alloc, text) {
        Ok(_) => true,
        Err(fault) => !fault.is_out_of_memory() && !fault.info().is_empty(),
    }
}

// Whether that holds of every beginning of a text.
fn are_beginnings_answered(alloc: Global, text: &str) -> bool {
    for (place, _) in text.char_indices() {
        match text.get(..place) {
            Some(beginning) if is_answered(alloc, beginning) => {}
            _ => return false,
        }
    }
    true
}

/// Notes where a text does not load as wanted, from a `&str` and from an iterator.
pub(crate) fn note_trees(
    report: &mut Report,
    alloc: Global,
    name: &str,
    text: &str,
    want: &str,
) -> Result<(), Fail> {
    let from_str = loaded(alloc, text)?;
    report.compare(name, "loaded", from_str.as_str(), want)?;
    let from_iter = loaded_from_iter(alloc, text)?;
    report.compare(name, "loaded from an iterator", from_iter.as_str(), want)?;
    Ok(())
}

/// Notes where a text's events are not those wanted, a line each, pulled, pulled after a look each, and pushed.
pub(crate) fn note_events(
    report: &mut Report,
    alloc: Global,
    name: &str,
    text: &str,
    keep_tags: bool,
    want: &str,
) -> Result<(), Fail> {
    let events = pulled(alloc, parser(alloc, text, keep_tags), false)?;
    report.compare(name, "pulled", events.as_str(), want)?;
    let looked_at = pulled(alloc, parser(alloc, text, keep_tags), true)?;
    report.compare(name, "after looks", looked_at.as_str(), want)?;
    let pushed = pushed(alloc, parser(alloc, text, keep_tags))?;
    report.compare(name, "pushed", pushed.as_str(), want)?;
    Ok(())
}

// Notes where a text's events are not the same in these three ways.
fn note_same_events(
    report: &mut Report,
    alloc: Global,
    name: &str,
    text: &str,
) -> Result<(), Fail> {
    let events = pulled(alloc, parser(alloc, text, false), false)?;
    note_events(report, alloc, name, text, false, events.as_str())
}

/// Every row's text loads as it says, from a `&str` and from an iterator; its events are the same pushed, pulled, and
/// pulled after a look each; and every beginning of it is answered. All rows that fail are told.
pub(crate) fn rows_hold(rt: &(impl Abort + AllocGlobal), rows: &[Row]) -> Result<(), Fail> {
    let mut report = Report::new(rt.alloc());
    for (name, text, want) in rows {
        note_trees(&mut report, rt.alloc(), name, text, want)?;
        note_same_events(&mut report, rt.alloc(), name, text)?;
        report.check(
            name,
            "its beginnings",
            are_beginnings_answered(rt.alloc(), text),
        )?;
    }
    assert!(rt; report.is_empty(), "{report}");
    Ok(())
}
