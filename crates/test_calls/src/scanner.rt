//! Calls of a scanner, one after the other.
use crate::calls;
use crate::calls::{Row, rows_hold};
use std::alloc::Global;
use std::str::Chars;
use std::test::Fail;
use yaml_scanner::Scanner;
use yaml_tokens::ScanError;

#[derive(Clone, Copy)]
enum Call {
    // `fetch_next_token`.
    Step,
    // `fetch_more_tokens`.
    More,
    // `next_token`.
    Token,
    // `next` of the iterator.
    Next,
    // `stream_started` and `stream_ended`.
    State,
    // `get_error`.
    Error,
}

// The functions below have no contract, so that a row of calls makes no long proof.

// A fault's line, and whether it is want of memory.
fn fault_words(alloc: Global, fault: &ScanError) -> Result<String, Fail> {
    Ok(format!(in alloc; "{fault} {}", fault.is_out_of_memory())?)
}

fn outcome_words(alloc: Global, outcome: Result<(), ScanError>) -> Result<String, Fail> {
    match outcome {
        Ok(()) => Ok(String::from_str(alloc, "ok")?),
        Err(fault) => fault_words(alloc, &fault),
    }
}

fn step_words(alloc: Global, scanner: &mut Scanner<Chars<'_>>) -> Result<String, Fail> {
    outcome_words(alloc, scanner.fetch_next_token())
}

fn more_words(alloc: Global, scanner: &mut Scanner<Chars<'_>>) -> Result<String, Fail> {
    outcome_words(alloc, scanner.fetch_more_tokens())
}

fn token_words(alloc: Global, scanner: &mut Scanner<Chars<'_>>) -> Result<String, Fail> {
    match scanner.next_token() {
        Ok(Some(token)) => Ok(format!(in alloc; "{:?}", token.1)?),
        Ok(None) => Ok(String::from_str(alloc, "none")?),
        Err(fault) => fault_words(alloc, &fault),
    }
}

fn next_words(alloc: Global, scanner: &mut Scanner<Chars<'_>>) -> Result<String, Fail> {
    match scanner.next() {
        Some(token) => Ok(format!(in alloc; "{:?}", token.1)?),
        None => Ok(String::from_str(alloc, "none")?),
    }
}

fn state_words(alloc: Global, scanner: &Scanner<Chars<'_>>) -> Result<String, Fail> {
    let has_started = scanner.stream_started();
    let has_ended = scanner.stream_ended();
    Ok(format!(in alloc; "{has_started} {has_ended}")?)
}

fn error_words(alloc: Global, scanner: &Scanner<Chars<'_>>) -> Result<String, Fail> {
    match scanner.get_error() {
        Some(fault) => fault_words(alloc, &fault),
        None => Ok(String::from_str(alloc, "none")?),
    }
}

// What a call returns.
fn answer(alloc: Global, scanner: &mut Scanner<Chars<'_>>, call: Call) -> Result<String, Fail> {
    match call {
        Call::Step => step_words(alloc, scanner),
        Call::More => more_words(alloc, scanner),
        Call::Token => token_words(alloc, scanner),
        Call::Next => next_words(alloc, scanner),
        Call::State => state_words(alloc, scanner),
        Call::Error => error_words(alloc, scanner),
    }
}

impl calls::Call for Call {
    fn answers(alloc: Global, text: &str, calls: &[Self]) -> Result<String, Fail> {
        let mut scanner = Scanner::new(alloc, text.chars());
        let mut out = String::new(alloc);
        for call in calls {
            out.push_str(answer(alloc, &mut scanner, *call)?.as_str())?;
            out.push_str(" / ")?;
        }
        Ok(out)
    }
}

const CALLS: [Row<Call>; 3] = [
    // No memory is refused here, so no call returns that fault.
    (
        "after the end nothing changes",
        "[a]",
        &[
            Call::State,
            Call::Step,
            Call::State,
            Call::More,
            Call::Token,
            Call::Token,
            Call::Token,
            Call::Token,
            Call::State,
            Call::Token,
            Call::State,
            Call::Step,
            Call::More,
            Call::Token,
            Call::Next,
            Call::Error,
        ],
        "false false / ok / true false / ok / StreamStart(Utf8) / FlowSequenceStart / Scalar(Plain, \"a\") / FlowSequenceEnd / true false / StreamEnd / true true / ok / ok / none / none / none / ",
    ),
    (
        "a fault is kept",
        "@",
        &[
            Call::Next,
            Call::Next,
            Call::Error,
            Call::Step,
            Call::More,
            Call::Token,
            Call::Next,
            Call::State,
        ],
        "StreamStart(Utf8) / none / unexpected character: `@' at byte 0 line 1 column 1 false / unexpected character: `@' at byte 0 line 1 column 1 false / unexpected character: `@' at byte 0 line 1 column 1 false / unexpected character: `@' at byte 0 line 1 column 1 false / none / true false / ",
    ),
    (
        "tokens that stood ready when a fault was met are not handed out",
        "[a]\n@",
        &[
            Call::Token,
            Call::Step,
            Call::Step,
            Call::Step,
            Call::Step,
            Call::Token,
            Call::Error,
        ],
        "StreamStart(Utf8) / ok / ok / ok / unexpected character: `@' at byte 4 line 2 column 1 false / unexpected character: `@' at byte 4 line 2 column 1 false / unexpected character: `@' at byte 4 line 2 column 1 false / ",
    ),
];

#[test]
fn a_scanner_goes_step_by_step(rt: HostRuntime) -> Result<(), Fail> {
    rows_hold(&rt, &CALLS)
}
