//! Events out of nesting.
use std::alloc::Global;
use std::process::Abort;
use std::test::Fail;
use test_rows::Report;
use yaml_chars::Marker;
use yaml_loader::YamlLoader;
use yaml_parser::{Event, MarkedEventReceiver};
use yaml_scanner::Scanner;
use yaml_tokens::{ScanError, TScalarStyle};

const NESTING: &str = "event out of nesting";

fn plain(alloc: Global, text: &str) -> Result<Event, Fail> {
    Ok(Event::Scalar(String::from_str(alloc, text)?, TScalarStyle::Plain, 0, None))
}

// An event by a short name: `[` and `]`, `{` and `}`, `.` for a document's end, `*7` for an alias, else a scalar.
fn event(alloc: Global, name: &str) -> Result<Event, Fail> {
    Ok(match name {
        "[" => Event::SequenceStart(0, None),
        "]" => Event::SequenceEnd,
        "{" => Event::MappingStart(0, None),
        "}" => Event::MappingEnd,
        "." => Event::DocumentEnd,
        "*7" => Event::Alias(7),
        _ => plain(alloc, name)?,
    })
}

// What a loader returns for an event. This has no contract, so that many of them make no long proof.
fn answer(
    alloc: Global,
    loader: &mut YamlLoader,
    mark: Marker,
    name: &str,
) -> Result<String, Fail> {
    match loader.on_event(event(alloc, name)?, mark) {
        Ok(()) => Ok(String::from_str(alloc, "ok ")?),
        Err(fault) => Ok(format!(in alloc; "{} ", fault.info())?),
    }
}

// What an empty loader returns for each event, and then its documents.
fn answers(alloc: Global, mark: Marker, names: &[&str]) -> Result<String, Fail> {
    let mut loader = YamlLoader::default(alloc);
    let mut out = String::new(alloc);
    for name in names {
        out.push_str(answer(alloc, &mut loader, mark, name)?.as_str())?;
    }
    let documents = loader.documents();
    out.push_str(format!(in alloc; "{documents:?}")?.as_str())?;
    Ok(out)
}

// What it shows, events by their names, and what a loader returns for each, and then its documents.
type Row = (&'static str, &'static [&'static str], &'static str);

const LISTS: [Row; 9] = [
    (
        "an end without its start, and then a document's end",
        &["]", "."],
        "event out of nesting event out of nesting []",
    ),
    (
        "the end of the other kind of collection",
        &["[", "}"],
        "ok event out of nesting []",
    ),
    (
        "a mapping ends while a key waits for its value",
        &["{", "k", "}"],
        "ok ok event out of nesting []",
    ),
    ("a second root", &["a", "b"], "ok event out of nesting []"),
    (
        "a document ends while a collection is open",
        &["[", "."],
        "ok event out of nesting []",
    ),
    (
        "an end after a document without node",
        &[".", "]"],
        "ok event out of nesting [BadValue]",
    ),
    (
        "a mapping as a key",
        &["{", "{", "}", "v", "}", "."],
        "ok ok ok ok ok ok [Hash({Hash({}): String(\"v\")})]",
    ),
    (
        "an alias without its anchor is a bad value, also as a key",
        &["{", "*7", "1", "}", "."],
        "ok ok ok ok ok [Hash({BadValue: Integer(1)})]",
    ),
    (
        "after a key twice no event is refused",
        &["{", "a", "1", "a", "2", "]"],
        "ok ok ok ok ok ok []",
    ),
];

// A loader answers the events of each row as it says. All rows that fail are told.
fn rows_hold(rt: &(impl Abort + AllocGlobal), rows: &[Row]) -> Result<(), Fail> {
    let mut report = Report::new(rt.alloc());
    let mark = Scanner::new(rt.alloc(), "".chars()).mark();
    for (name, events, want) in rows {
        let found = answers(rt.alloc(), mark, events)?;
        report.compare(name, "pushed", found.as_str(), want)?;
    }
    assert!(rt; report.is_empty(), "{report}");
    Ok(())
}

#[test]
fn events_out_of_nesting_are_refused(rt: HostRuntime) -> Result<(), Fail> {
    rows_hold(&rt, &LISTS)
}

// The place after a number of tokens.
fn place_after(alloc: Global, text: &str, count: usize) -> Result<Marker, Fail> {
    let mut scanner = Scanner::new(alloc, text.chars());
    for _ in 0..count {
        let _ = scanner.next_token().map_err(|_| "a fault")?;
    }
    Ok(scanner.mark())
}

// The fault that a loader returns for an event.
fn fault_of(loader: &mut YamlLoader, event: Event, mark: Marker) -> Result<ScanError, Fail> {
    match loader.on_event(event, mark) {
        Ok(()) => Err(Fail::from("no fault")),
        Err(fault) => Ok(fault),
    }
}

#[test]
fn a_fault_names_its_place_for_good(rt: HostRuntime) -> Result<(), Fail> {
    let mark = place_after(rt.alloc(), "\n a", 2)?;
    let mut loader = YamlLoader::default(rt.alloc());
    let fault = fault_of(&mut loader, Event::SequenceEnd, mark)?;
    assert_eq!(rt; fault.info(), NESTING);
    assert!(rt; *fault.marker() == mark);
    let later = Scanner::new(rt.alloc(), "".chars()).mark();
    assert!(rt; later != mark);
    assert!(rt; fault_of(&mut loader, Event::DocumentEnd, later)? == fault);
    assert!(rt; fault_of(&mut loader, Event::StreamEnd, later)? == fault);
    assert!(rt; fault_of(&mut loader, Event::Alias(1), later)? == fault);
    Ok(())
}
