//! Faults that are made, copied and compared.
use std::alloc::Global;
use std::process::Abort;
use std::test::Fail;
use test_rows::Report;
use yaml_chars::Marker;
use yaml_scanner::Scanner;
use yaml_tokens::ScanError;

// How a fault is made.
#[derive(Clone, Copy)]
enum Kind {
    New(&'static str),
    NewString(&'static str),
    Fixed(&'static str),
    Memory,
}

fn made(alloc: Global, mark: Marker, kind: Kind) -> Result<ScanError, Fail> {
    Ok(match kind {
        Kind::New(text) => ScanError::new(alloc, mark, text)?,
        Kind::NewString(text) => ScanError::new_string(mark, String::from_str(alloc, text)?),
        Kind::Fixed(text) => ScanError::fixed(mark, text),
        Kind::Memory => ScanError::memory(mark),
    })
}

// Its text, its line, whether it is want of memory, and whether a copy is equal.
fn words(alloc: Global, fault: &ScanError) -> Result<String, Fail> {
    let copy = fault.clone(alloc)?;
    let info = String::from_str(alloc, fault.info())?;
    let is_equal = copy == *fault;
    Ok(format!(in alloc; "{info}: {copy} {} {is_equal}", fault.is_out_of_memory())?)
}

// The words of a fault, and whether it is equal to another.
fn compared(alloc: Global, mark: Marker, kind: Kind, other: Kind) -> Result<String, Fail> {
    let fault = made(alloc, mark, kind)?;
    let other = made(alloc, mark, other)?;
    let words = words(alloc, &fault)?;
    let is_equal = fault == other;
    Ok(format!(in alloc; "{words}, {is_equal}")?)
}

// What it shows, two faults, the words of the first, and whether they are equal.
type Row = (&'static str, Kind, Kind, &'static str);

const FAULTS: [Row; 6] = [
    (
        "a copied text and an owned text",
        Kind::New("stop"),
        Kind::NewString("stop"),
        "stop: stop at byte 0 line 1 column 1 false true, true",
    ),
    (
        "an owned text and a fixed text",
        Kind::NewString("stop"),
        Kind::Fixed("stop"),
        "stop: stop at byte 0 line 1 column 1 false true, true",
    ),
    (
        "other texts",
        Kind::Fixed("stop"),
        Kind::New("go"),
        "stop: stop at byte 0 line 1 column 1 false true, false",
    ),
    (
        "a copied text that says what refused memory says",
        Kind::New("out of memory"),
        Kind::Memory,
        "out of memory: out of memory at byte 0 line 1 column 1 false true, false",
    ),
    (
        "an owned text that says what refused memory says",
        Kind::NewString("out of memory"),
        Kind::Memory,
        "out of memory: out of memory at byte 0 line 1 column 1 false true, false",
    ),
    (
        "refused memory",
        Kind::Memory,
        Kind::Memory,
        "out of memory: out of memory at byte 0 line 1 column 1 true true, true",
    ),
];

// Each fault has the words of its row. All rows that fail are told.
fn rows_hold(rt: &(impl Abort + AllocGlobal), rows: &[Row]) -> Result<(), Fail> {
    let mut report = Report::new(rt.alloc());
    let mark = Scanner::new(rt.alloc(), "".chars()).mark();
    for (name, kind, other, want) in rows {
        let found = compared(rt.alloc(), mark, *kind, *other)?;
        report.compare(name, "compared", found.as_str(), want)?;
    }
    assert!(rt; report.is_empty(), "{report}");
    Ok(())
}

#[test]
fn faults_are_made_and_copied(rt: HostRuntime) -> Result<(), Fail> {
    rows_hold(&rt, &FAULTS)
}

#[test]
fn faults_of_other_places_differ(rt: HostRuntime) -> Result<(), Fail> {
    let mut scanner = Scanner::new(rt.alloc(), " a".chars());
    let first = ScanError::fixed(scanner.mark(), "stop");
    for _ in 0..2 {
        let _ = scanner.next();
    }
    assert!(rt; ScanError::fixed(scanner.mark(), "stop") != first);
    Ok(())
}
