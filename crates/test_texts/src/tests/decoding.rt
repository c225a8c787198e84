//! Bytes, and what each trap makes of them.
use std::alloc::Global;
use std::fmt::Write;
use std::ops::ControlFlow;
use std::process::Abort;
use std::test::Fail;
use test_rows::Report;
use yaml_rust2::yaml::{LoadError, YAMLDecodingTrap, YAMLDecodingTrapFn, YamlDecoder};

/// A trap by its name.
#[derive(Clone, Copy)]
enum Trap {
    Ignore,
    Replace,
    Strict,
    // Calls `notes`.
    Notes,
    // Calls `asks`.
    Asks,
    // Calls `bad`.
    Bad,
    // Calls `silent`.
    Silent,
}

/// Adds what it was called with: both numbers, the input, and how long the text is.
fn notes(bytes: u8, ahead: u8, input: &[u8], text: &mut String) -> ControlFlow<String> {
    let length = text.len();
    match write!(text, "<{bytes} {ahead} {input:?} {length}>") {
        Ok(()) => ControlFlow::Continue(()),
        Err(_) => ControlFlow::Break(String::new(*text.allocator())),
    }
}

/// Adds a question mark.
fn asks(_: u8, _: u8, _: &[u8], text: &mut String) -> ControlFlow<String> {
    match text.push('?') {
        Ok(()) => ControlFlow::Continue(()),
        Err(_) => ControlFlow::Break(String::new(*text.allocator())),
    }
}

/// Forgets the text, and stops.
fn bad(_: u8, _: u8, _: &[u8], text: &mut String) -> ControlFlow<String> {
    text.clear();
    match String::from_str(*text.allocator(), "bad") {
        Ok(message) => ControlFlow::Break(message),
        Err(_) => ControlFlow::Continue(()),
    }
}

/// Stops without a message.
fn silent(_: u8, _: u8, _: &[u8], text: &mut String) -> ControlFlow<String> {
    ControlFlow::Break(String::new(*text.allocator()))
}

// What bytes load as.
fn decoded(alloc: Global, bytes: &[u8], trap: Trap) -> Result<String, Fail> {
    let mut decoder = YamlDecoder::read(alloc, bytes);
    decoder.encoding_trap(match trap {
        Trap::Ignore => YAMLDecodingTrap::Ignore,
        Trap::Replace => YAMLDecodingTrap::Replace,
        Trap::Strict => YAMLDecodingTrap::Strict,
        Trap::Notes => YAMLDecodingTrap::Call(YAMLDecodingTrapFn::new(notes)),
        Trap::Asks => YAMLDecodingTrap::Call(YAMLDecodingTrapFn::new(asks)),
        Trap::Bad => YAMLDecodingTrap::Call(YAMLDecodingTrapFn::new(bad)),
        Trap::Silent => YAMLDecodingTrap::Call(YAMLDecodingTrapFn::new(silent)),
    });
    match decoder.decode() {
        Ok(documents) => Ok(format!(in alloc; "{documents:?}")?),
        Err(LoadError::Decode(message)) => Ok(format!(in alloc; "stopped: {message}")?),
        Err(LoadError::Scan(fault)) => Ok(format!(in alloc; "fault: {fault}")?),
        Err(LoadError::IO(_)) => Ok(String::from_str(alloc, "no bytes")?),
    }
}

const A_LETTER_TOO_MUCH: &[u8] = b"---\na\xa9: 1\nb: 2.2\nc: [1, 2]\n";

const LEAD_BEFORE_A: &[u8] = b"\xFF\xFE\0\xD8a\0";

const TREE: &str =
    "[Hash({String(\"a\"): Integer(1), String(\"b\"): Real(\"2.2\"), String(\"c\"): Array([Integer(1), Integer(2)])})]";

// What it shows, bytes, a trap, and the trees, the message of a stop, or a fault.
type Row = (&'static str, &'static [u8], Trap, &'static str);

const DECODING: [Row; 29] = [
    (
        "a byte that continues no character, ignored",
        A_LETTER_TOO_MUCH,
        Trap::Ignore,
        TREE,
    ),
    (
        "a byte that continues no character, strict",
        A_LETTER_TOO_MUCH,
        Trap::Strict,
        "stopped: Invalid character sequence at 5: [169]",
    ),
    (
        "a lead surrogate before a letter, replaced",
        LEAD_BEFORE_A,
        Trap::Replace,
        "[String(\"\u{FFFD}a\")]",
    ),
    (
        "a lead surrogate before a letter, strict",
        LEAD_BEFORE_A,
        Trap::Strict,
        "stopped: Invalid character sequence at 2: [0, 216]",
    ),
    (
        "a lead surrogate before a letter, ignored",
        LEAD_BEFORE_A,
        Trap::Ignore,
        "[String(\"a\")]",
    ),
    (
        "a lead surrogate before a letter, by a function that notes what it gets",
        LEAD_BEFORE_A,
        Trap::Notes,
        "[String(\"<2 2 [0, 216, 97, 0] 0>a\")]",
    ),
    (
        "UTF-16 by the place of its NUL",
        b"\0a",
        Trap::Strict,
        "[String(\"a\")]",
    ),
    (
        "a byte that begins no character, by a function that goes on",
        b"a\xFF",
        Trap::Asks,
        "[String(\"a?\")]",
    ),
    (
        "a byte that begins no character, by a function that notes what it gets",
        b"a\xFF",
        Trap::Notes,
        "[String(\"a<1 0 [255] 1>\")]",
    ),
    (
        "a byte that begins no character, by a function that stops with a message",
        b"a\xFF",
        Trap::Bad,
        "stopped: bad",
    ),
    (
        "a byte that begins no character, by a function that stops without a message",
        b"a\xFF",
        Trap::Silent,
        "stopped: Invalid character sequence at 1: [255]",
    ),
    (
        "no malformation, so the function is not called",
        b"a",
        Trap::Bad,
        "[String(\"a\")]",
    ),
    (
        "a character that is cut off is replaced once",
        b"\xE2\x82A",
        Trap::Replace,
        "[String(\"\u{FFFD}A\")]",
    ),
    (
        "a character that is cut off, strict",
        b"\xE2\x82A",
        Trap::Strict,
        "stopped: Invalid character sequence at 0: [226, 130]",
    ),
    (
        "an overlong character is replaced twice",
        b"\xE0\x80A",
        Trap::Replace,
        "[String(\"\u{FFFD}\u{FFFD}A\")]",
    ),
    (
        "the position counts the byte order mark",
        b"\xEF\xBB\xBFa\xFF",
        Trap::Strict,
        "stopped: Invalid character sequence at 4: [255]",
    ),
    (
        "UTF-16 that ends in half a unit",
        b"\xFF\xFEa\0b",
        Trap::Strict,
        "stopped: Invalid character sequence at 4: [98]",
    ),
    (
        "half a unit after a lead surrogate",
        b"\xFF\xFE\0\xD8a",
        Trap::Strict,
        "stopped: Invalid character sequence at 2: [0, 216, 97]",
    ),
    (
        "a lead surrogate before a pair of surrogates",
        b"\xFF\xFE\0\xD8\x01\xD8\0\xDC",
        Trap::Replace,
        "[String(\"\u{FFFD}\u{10400}\")]",
    ),
    (
        "a trail surrogate at the end, big-endian",
        b"\xFE\xFF\0a\xDC\0",
        Trap::Ignore,
        "[String(\"a\")]",
    ),
    (
        "four bytes that lack the last",
        b"\xF0\x9F\x98",
        Trap::Replace,
        "[String(\"\u{FFFD}\")]",
    ),
    (
        "four bytes",
        b"\xF0\x9F\x98\x80",
        Trap::Replace,
        "[String(\"\u{1F600}\")]",
    ),
    (
        "two bytes and three bytes",
        b"\xC3\xA9\xE2\x82\xAC",
        Trap::Replace,
        "[String(\"\u{e9}\u{20AC}\")]",
    ),
    (
        "bytes that look like a byte order mark, not at the start",
        b"a\xFF\xFE",
        Trap::Strict,
        "stopped: Invalid character sequence at 1: [255]",
    ),
    (
        "two malformations, by a function that goes on",
        b"a\xFFa\xE2\x82",
        Trap::Asks,
        "[String(\"a?a?\")]",
    ),
    (
        "two malformations, ignored",
        b"a\xFF\xFF",
        Trap::Ignore,
        "[String(\"a\")]",
    ),
    ("no bytes", b"", Trap::Strict, "[]"),
    ("NUL alone", b"\0", Trap::Strict, "[]"),
    (
        "a fault of the text",
        b"[",
        Trap::Strict,
        "fault: while parsing a node, did not find expected node content at byte 1 line 2 column 1",
    ),
];

// Bytes load with a trap as each row says. All rows that fail are told.
fn rows_hold(rt: &(impl Abort + AllocGlobal), rows: &[Row]) -> Result<(), Fail> {
    let mut report = Report::new(rt.alloc());
    for (name, bytes, trap, want) in rows {
        let found = decoded(rt.alloc(), bytes, *trap)?;
        report.compare(name, "decoded", found.as_str(), want)?;
    }
    assert!(rt; report.is_empty(), "{report}");
    Ok(())
}

#[test]
fn bytes_are_decoded(rt: HostRuntime) -> Result<(), Fail> {
    rows_hold(&rt, &DECODING)
}

const TRAPS: [Trap; 7] = [
    Trap::Ignore,
    Trap::Replace,
    Trap::Strict,
    Trap::Notes,
    Trap::Asks,
    Trap::Bad,
    Trap::Silent,
];

// Whether bytes are answered with each trap, by trees, a message or a fault.
fn are_answered(alloc: Global, bytes: &[u8]) -> Result<bool, Fail> {
    for trap in &TRAPS {
        let told = decoded(alloc, bytes, *trap)?;
        if told.as_str() == "no bytes" || told.as_str().contains("out of memory") {
            return Ok(false);
        }
    }
    Ok(true)
}

// Whether that holds of every beginning of bytes.
fn are_beginnings_answered(alloc: Global, bytes: &[u8]) -> Result<bool, Fail> {
    for length in 0..bytes.len() {
        let beginning = bytes.get(..length).ok_or("no beginning")?;
        if !are_answered(alloc, beginning)? {
            return Ok(false);
        }
    }
    Ok(true)
}

// Every beginning of each row's bytes is answered. All rows that fail are told.
fn beginnings_hold(rt: &(impl Abort + AllocGlobal), rows: &[Row]) -> Result<(), Fail> {
    let mut report = Report::new(rt.alloc());
    for (name, bytes, _, _) in rows {
        let holds = are_beginnings_answered(rt.alloc(), bytes)?;
        report.check(name, "its beginnings", holds)?;
    }
    assert!(rt; report.is_empty(), "{report}");
    Ok(())
}

#[test]
fn beginnings_of_bytes_are_answered(rt: HostRuntime) -> Result<(), Fail> {
    beginnings_hold(&rt, &DECODING)
}

const TEXT: &str = "---\na: 1\nb: 2.2\nc: [1, 2]\n";

/// How a character that is ASCII is encoded.
#[derive(Clone, Copy)]
enum Unit {
    Utf8,
    Utf16LittleEndian,
    Utf16BigEndian,
}

// What it is, its mark, and the encoding of the characters.
type Encoding = (&'static str, &'static [u8], Unit);

const ENCODINGS: [Encoding; 6] = [
    ("UTF-8 with a mark", b"\xEF\xBB\xBF", Unit::Utf8),
    ("UTF-8 without a mark", b"", Unit::Utf8),
    (
        "UTF-16, little-endian, with a mark",
        b"\xFF\xFE",
        Unit::Utf16LittleEndian,
    ),
    (
        "UTF-16, little-endian, without a mark",
        b"",
        Unit::Utf16LittleEndian,
    ),
    (
        "UTF-16, big-endian, with a mark",
        b"\xFE\xFF",
        Unit::Utf16BigEndian,
    ),
    (
        "UTF-16, big-endian, without a mark",
        b"",
        Unit::Utf16BigEndian,
    ),
];

fn push(bytes: &mut Vec<u8>, unit: Unit, byte: u8) -> Result<(), Fail> {
    match unit {
        Unit::Utf8 => bytes.push(byte)?,
        Unit::Utf16LittleEndian => bytes.extend_from_slice(&[byte, 0])?,
        Unit::Utf16BigEndian => bytes.extend_from_slice(&[0, byte])?,
    }
    Ok(())
}

// A mark or none, and the text; all its characters are ASCII.
fn encoded(alloc: Global, mark: &[u8], unit: Unit) -> Result<Vec<u8>, Fail> {
    let mut bytes = Vec::new(alloc);
    bytes.extend_from_slice(mark)?;
    for byte in TEXT.as_bytes() {
        push(&mut bytes, unit, *byte)?;
    }
    Ok(bytes)
}

// Notes where the text in an encoding does not load as its tree, or a beginning of it is not answered.
fn note(report: &mut Report, alloc: Global, row: &Encoding) -> Result<(), Fail> {
    let (name, mark, unit) = row;
    let bytes = encoded(alloc, mark, *unit)?;
    let found = decoded(alloc, bytes.as_slice(), Trap::Strict)?;
    report.compare(name, "decoded", found.as_str(), TREE)?;
    let holds = are_beginnings_answered(alloc, bytes.as_slice())?;
    report.check(name, "its beginnings", holds)?;
    Ok(())
}

// The text loads in each encoding. All encodings that fail are told.
fn encodings_hold(rt: &(impl Abort + AllocGlobal), rows: &[Encoding]) -> Result<(), Fail> {
    let mut report = Report::new(rt.alloc());
    for row in rows {
        note(&mut report, rt.alloc(), row)?;
    }
    assert!(rt; report.is_empty(), "{report}");
    Ok(())
}

#[test]
fn encodings_are_told(rt: HostRuntime) -> Result<(), Fail> {
    encodings_hold(&rt, &ENCODINGS)
}
