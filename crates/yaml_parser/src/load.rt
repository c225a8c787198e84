//! Pushing: a parser's events, into a receiver.
ghost use Rattle.std.specs.Prelude.{◌≡◌, ◌≤◌, Bool, OnOk, Some};
ghost use Rattle.yaml_parser.specs.Nests.{IsInside};
ghost use Rattle.yaml_parser.specs.Parsed.{Parsed, parsed, is_stream_end, is_document_start};
ghost use Rattle.yaml_parser.specs.Shown.{ev_of};
ghost use Rattle.yaml_parser.specs.View.{no_document};
ghost use Rattle.yaml_parser.specs.Loads.{Loads, StartsSo, ReadsOn};

use crate::event::Event;
use crate::parser::Parser;
use crate::receiver::MarkedEventReceiver;
use yaml_chars::Characters;
use yaml_tokens::ScanError;

fn is_stream_end(event: &Event) -> bool
    ensures { result ≡ is_stream_end (ev_of event.now) }
{
    matches!(event, Event::StreamEnd)
}

fn is_document_start(event: &Event) -> bool
    ensures { result ≡ is_document_start (ev_of event.now) }
{
    matches!(event, Event::DocumentStart)
}

impl<T: Characters> Parser<T> {
    /// Pushes events into a receiver, from where the parser stands: first the stream's start, if it was not given
    /// yet; then the events of the next document, or with `multi` those of all documents and the stream's end.
    ///
    /// # Example
    ///
    /// ```
    /// let mut scalars = Scalars { count: 0 }; // an `EventReceiver`
    /// Parser::new_from_str(alloc, "a: [1, two]").load(&mut scalars, true)?;
    /// assert_eq!(rt; scalars.count, 3);
    /// ```
    ///
    /// # Errors
    ///
    /// The parser's fault, which it keeps. `did not find expected <document-start>`, at the event's position, if the
    /// parser stands inside a document. Or the error that the receiver returned: the parser then keeps no fault, and
    /// stands after the event that was pushed.
    pub fn load<R: MarkedEventReceiver>(
        &mut self,
        recv: &mut R,
        multi: bool,
    ) -> Result<(), ScanError>
        ensures loads { Loads R.takes multi (parsed self.old) recv.old result (parsed self.new) recv.new }
        ensures start { self.new.start ≡ self.old.start }
    {
        self.load_start(recv)?;
        'documents: loop {
            let (event, mark) = self.next_token()?;
            if is_stream_end(&event) {
                recv.on_event(event, mark)?;
                return Ok(());
            }
            if !is_document_start(&event) {
                return Err(self.misplace(mark));
            }
            recv.on_event(event, mark)?;
            self.load_document(recv)?;
            if !multi {
                return Ok(());
            }
        }
    }

    /// Pushes the stream's start, if it was not given yet.
    fn load_start<R: MarkedEventReceiver>(&mut self, recv: &mut R) -> Result<(), ScanError>
        ensures starts { (multi : Bool) → StartsSo R.takes multi (parsed self.old) recv.old result (parsed self.new) recv.new }
        ensures start { self.new.start ≡ self.old.start }
    {
        if self.has_started() {
            return Ok(());
        }
        let (event, mark) = self.next_token()?;
        recv.on_event(event, mark)?;
        Ok(())
    }

    /// Pushes the events of a document whose start was given, up to its end. The stream does not end inside a
    /// document.
    fn load_document<R: MarkedEventReceiver>(&mut self, recv: &mut R) -> Result<(), ScanError>
        requires inside { IsInside (parsed self.old) }
        requires none { (parsed self.old).ahead ≡ None }
        requires clear { (parsed self.old).fault ≡ None }
        ensures reads { (multi : Bool) (parser : Parsed) (receiver : R) → ReadsOn R.takes multi parser receiver (parsed self.old) recv.old result (parsed self.new) recv.new }
        ensures start { self.new.start ≡ self.old.start }
        ensures left { OnOk result ((parsed self.new).left ≤ (parsed self.old).left) }
    {
        let mut slot = self.slot();
        'events: loop {
            let last = match self.push_next(recv, &mut slot) {
                Ok(last) => last,
                Err(error) => return Err(error),
            };
            if last {
                return Ok(());
            }
        }
    }
}
