//! Readers that fail, and what a decoder returns then.
use std::alloc::Global;
use std::io;
use std::io::{ErrorKind, Read};
use std::process::Abort;
use std::test::Fail;
use test_rows::Report;
use yaml_encoding::YAMLDecodingTrap;
use yaml_loader::decoder::{LoadError, YamlDecoder};

/// Gives its bytes one by one, and then fails.
#[derive(Drop)]
struct Broken<'a> {
    bytes: &'a [u8],
    kind: ErrorKind,
}

impl<'a> Read for Broken<'a> {
    fn read(&mut self, buffer: &mut [u8]) -> io::Result<usize> {
        let Some((first, rest)) = self.bytes.split_first() else {
            return Err(io::Error::from(self.kind));
        };
        if buffer.is_empty() {
            return Ok(0);
        }
        buffer[0] = *first;
        self.bytes = rest;
        Ok(1)
    }
}

// What it is, and bytes.
type Input = (&'static str, &'static [u8]);

const INPUTS: [Input; 8] = [
    (
        "a byte that continues no character",
        b"---\na\xa9: 1\nb: 2.2\nc: [1, 2]\n",
    ),
    (
        "a byte order mark, an anchor and its alias",
        b"\xEF\xBB\xBFa1: &DEFAULT\n    b1: 4\n    b2: d\na2: *DEFAULT\n",
    ),
    (
        "UTF-16 with a surrogate alone",
        &[0xFF, 0xFE, 0x00, 0xD8, 0x61, 0x00],
    ),
    (
        "UTF-16, big-endian, that ends in a fault",
        b"\xFE\xFF\0a\0:\0 \0[",
    ),
    (
        "a handle that is forgotten at the next document",
        b"%TAG !prefix! tag:example.com,2011:\n--- !prefix!A\na: b\n--- !prefix!B\nc: d\n--- !prefix!C\ne: f",
    ),
    (
        "a key that is a mapping",
        b"---\n? key:\n    - 1\n    - 2\n    - 3\n: - 4\n  - 5\n  - 6",
    ),
    ("a folded scalar", b">\n a\n b\n\n c\n  d\n e\n"),
    (
        "comments, and collections at any columns",
        b"---\n# top\n\n   ? - 1\n     - 2\n# mid\n   :       - x\n           - |\n                 p\n\n                 q\n   k:\n# c\n     z: {}\n",
    ),
];

// Whether a reader that gives these bytes and then fails is answered by its failure.
fn is_told(alloc: Global, bytes: &[u8]) -> bool {
    let kind = ErrorKind::BrokenPipe;
    let mut decoder = YamlDecoder::read(alloc, Broken { bytes, kind });
    decoder.encoding_trap(YAMLDecodingTrap::Ignore);
    match decoder.decode() {
        Err(LoadError::IO(error)) => matches!(error.kind(), ErrorKind::BrokenPipe),
        _ => false,
    }
}

// Whether that holds after each number of these bytes.
fn is_always_told(alloc: Global, bytes: &[u8]) -> bool {
    for length in 0..=bytes.len() {
        match bytes.get(..length) {
            Some(beginning) if is_told(alloc, beginning) => {}
            _ => return false,
        }
    }
    true
}

// A reader that gives each input's bytes and fails anywhere is answered by its failure. All inputs that fail are told.
fn inputs_hold(rt: &(impl Abort + AllocGlobal), rows: &[Input]) -> Result<(), Fail> {
    let mut report = Report::new(rt.alloc());
    for (name, bytes) in rows {
        report.check(name, "cut off", is_always_told(rt.alloc(), bytes))?;
    }
    assert!(rt; report.is_empty(), "{report}");
    Ok(())
}

#[test]
fn a_reader_that_fails_is_answered(rt: HostRuntime) -> Result<(), Fail> {
    inputs_hold(&rt, &INPUTS)
}

fn fault_word(error: &LoadError) -> &'static str {
    if error.is_out_of_memory() {
        "want of memory"
    } else {
        "another fault"
    }
}

// What a load answers.
fn answer<T: Read + Drop>(alloc: Global, input: T) -> &'static str {
    match YamlDecoder::read(alloc, input).decode().err() {
        None => "trees",
        Some(error) => fault_word(&error),
    }
}

// What it shows, how a reader fails, and what a load answers.
type Failure = (&'static str, ErrorKind, &'static str);

const FAILURES: [Failure; 2] = [
    (
        "a reader without memory",
        ErrorKind::OutOfMemory,
        "want of memory",
    ),
    (
        "a reader whose pipe is broken",
        ErrorKind::BrokenPipe,
        "another fault",
    ),
];

// A load answers each failure of a reader as its row says. All rows that fail are told.
fn failures_hold(rt: &(impl Abort + AllocGlobal), rows: &[Failure]) -> Result<(), Fail> {
    let mut report = Report::new(rt.alloc());
    for (name, kind, want) in rows {
        let broken = Broken {
            bytes: b"a",
            kind: *kind,
        };
        report.compare(name, "loaded", answer(rt.alloc(), broken), want)?;
    }
    assert!(rt; report.is_empty(), "{report}");
    Ok(())
}

#[test]
fn want_of_memory_is_told_from_other_faults(rt: HostRuntime) -> Result<(), Fail> {
    failures_hold(&rt, &FAILURES)
}

// What it shows, and bytes that are not read.
const MALFORMED: [Input; 2] = [("a malformation", b"\xFF"), ("a fault of the text", b"[")];

// A load answers each of these bytes by a fault that is no want of memory. All rows that fail are told.
fn malformed_hold(rt: &(impl Abort + AllocGlobal), rows: &[Input]) -> Result<(), Fail> {
    let mut report = Report::new(rt.alloc());
    for (name, bytes) in rows {
        report.compare(name, "loaded", answer(rt.alloc(), *bytes), "another fault")?;
    }
    assert!(rt; report.is_empty(), "{report}");
    Ok(())
}

#[test]
fn malformed_bytes_are_no_want_of_memory(rt: HostRuntime) -> Result<(), Fail> {
    malformed_hold(&rt, &MALFORMED)
}

#[test]
fn a_second_call_reads_on(rt: HostRuntime) -> Result<(), Fail> {
    let input: &[u8] = b"a\xFF";
    let mut decoder = YamlDecoder::read(rt.alloc(), input);
    assert!(rt; decoder.decode().is_err());
    let documents = decoder.decode().map_err(|_| "a fault")?;
    assert!(rt; documents.is_empty());
    Ok(())
}
