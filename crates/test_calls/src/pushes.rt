//! Calls of a parser, one after the other, and what receivers are pushed.
use crate::calls;
use crate::calls::{Row, rows_hold};
use std::alloc::{AllocError, Global};
use std::str::Chars;
use std::test::Fail;
use yaml_chars::Marker;
use yaml_parser::{Event, EventReceiver, MarkedEventReceiver, Parser};
use yaml_tokens::ScanError;

// Keeps what is pushed as words, and may refuse one event.
#[derive(Drop)]
struct Pushed {
    alloc: Global,
    words: String,
    refused: Option<usize>,
    count: usize,
}

impl Pushed {
    fn new(alloc: Global, refused: Option<usize>) -> Pushed {
        Pushed {
            alloc,
            words: String::new(alloc),
            refused,
            count: 0,
        }
    }

    fn keep(&mut self, ev: &Event) -> Result<(), AllocError> {
        match ev {
            Event::Scalar(text, _, _, _) => self.words.push_str(text.as_str())?,
            other => self
                .words
                .push_str(format!(in self.alloc; "{other:?}")?.as_str())?,
        }
        self.words.push_str(" ")
    }
}

impl MarkedEventReceiver for Pushed {
    fn on_event(&mut self, ev: Event, mark: Marker) -> Result<(), ScanError> {
        self.count = self.count.saturating_add(1);
        if self.refused == Some(self.count) {
            let stop = ScanError::new(self.alloc, mark, "stop");
            return Err(stop.unwrap_or(ScanError::memory(mark)));
        }
        match self.keep(&ev) {
            Ok(()) => Ok(()),
            Err(_) => Err(ScanError::memory(mark)),
        }
    }
}

// Counts the events, whatever their places.
#[derive(Drop)]
struct Counted {
    count: usize,
}

impl EventReceiver for Counted {
    fn on_event(&mut self, ev: Event) -> Result<(), ScanError> {
        let _ = ev;
        self.count = self.count.saturating_add(1);
        Ok(())
    }
}

// A call of a parser.
#[derive(Clone, Copy)]
enum Call {
    Peek,
    Pull,
    // `load` of one document.
    Load,
    // `load` of all documents.
    LoadAll,
    // The same for a receiver that refuses the event of this rank.
    Refuse(usize),
}

// The functions below have no contract, so that a row of calls makes no long proof.

// What one call of `load` pushes, as words; or its fault.
fn load_words(
    alloc: Global,
    parser: &mut Parser<Chars<'_>>,
    refused: Option<usize>,
    multi: bool,
) -> Result<String, Fail> {
    let mut pushed = Pushed::new(alloc, refused);
    match parser.load(&mut pushed, multi) {
        Ok(()) => Ok(pushed.words),
        Err(fault) => fault_words(alloc, &fault),
    }
}

// A fault's text and index.
fn fault_words(alloc: Global, fault: &ScanError) -> Result<String, Fail> {
    Ok(format!(in alloc; "{} {} ", fault.info(), fault.marker().index())?)
}

fn event_words(alloc: Global, event: &Event) -> Result<String, Fail> {
    Ok(format!(in alloc; "{event:?} ")?)
}

// The event that a look shows.
fn peek_words(alloc: Global, parser: &mut Parser<Chars<'_>>) -> Result<String, Fail> {
    match parser.peek() {
        Ok(shown) => event_words(alloc, &shown.0),
        Err(fault) => fault_words(alloc, &fault),
    }
}

// The next event.
fn pull_words(alloc: Global, parser: &mut Parser<Chars<'_>>) -> Result<String, Fail> {
    match parser.next_token() {
        Ok((event, _)) => event_words(alloc, &event),
        Err(fault) => fault_words(alloc, &fault),
    }
}

// What a call shows.
fn answer(alloc: Global, parser: &mut Parser<Chars<'_>>, call: Call) -> Result<String, Fail> {
    match call {
        Call::Peek => peek_words(alloc, parser),
        Call::Pull => pull_words(alloc, parser),
        Call::Load => load_words(alloc, parser, None, false),
        Call::LoadAll => load_words(alloc, parser, None, true),
        Call::Refuse(rank) => load_words(alloc, parser, Some(rank), true),
    }
}

impl calls::Call for Call {
    fn answers(alloc: Global, text: &str, calls: &[Self]) -> Result<String, Fail> {
        let mut parser = Parser::new_from_str(alloc, text);
        let mut out = String::new(alloc);
        for call in calls {
            out.push_str(answer(alloc, &mut parser, *call)?.as_str())?;
            out.push_str("/ ")?;
        }
        Ok(out)
    }
}

const CALLS: [Row<Call>; 7] = [
    (
        "a document for each call",
        "--- 1\n--- 2",
        &[Call::Load, Call::Load, Call::Load, Call::Load],
        "StreamStart DocumentStart 1 DocumentEnd / DocumentStart 2 DocumentEnd / StreamEnd / StreamEnd / ",
    ),
    (
        "a text without document",
        "",
        &[Call::Load, Call::Load],
        "StreamStart StreamEnd / StreamEnd / ",
    ),
    (
        "all documents by one call",
        "--- 1\n--- [a]",
        &[Call::LoadAll],
        "StreamStart DocumentStart 1 DocumentEnd DocumentStart SequenceStart(0, None) a SequenceEnd DocumentEnd StreamEnd / ",
    ),
    (
        "an event that was looked at comes first",
        "a",
        &[Call::Peek, Call::Load],
        "StreamStart / StreamStart DocumentStart a DocumentEnd / ",
    ),
    (
        "an event that was looked at stays",
        "a",
        &[Call::Peek, Call::Peek, Call::Pull, Call::Pull],
        "StreamStart / StreamStart / StreamStart / DocumentStart / ",
    ),
    (
        "a call inside a document is refused for good",
        "[1, 2]",
        &[
            Call::Pull,
            Call::Pull,
            Call::Refuse(1),
            Call::Refuse(1),
            Call::Pull,
            Call::Peek,
        ],
        "StreamStart / DocumentStart / did not find expected <document-start> 0 / did not find expected <document-start> 0 / did not find expected <document-start> 0 / did not find expected <document-start> 0 / ",
    ),
    (
        "what a receiver returns is not kept",
        "[1, 2]",
        &[Call::Refuse(3), Call::Pull],
        "stop 0 / Scalar(\"1\", Plain, 0, None) / ",
    ),
];

#[test]
fn events_are_pushed_and_pulled(rt: HostRuntime) -> Result<(), Fail> {
    rows_hold(&rt, &CALLS)
}

#[test]
fn a_receiver_may_look_at_events_alone(rt: HostRuntime) -> Result<(), Fail> {
    let mut parser = Parser::new_from_str(rt.alloc(), "--- 1\n--- [a]");
    let mut counted = Counted { count: 0 };
    parser.load(&mut counted, true)?;
    assert_eq!(rt; counted.count, 10);
    Ok(())
}
