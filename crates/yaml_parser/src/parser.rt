ghost use Rattle.std.specs.Prelude.{◌≡◌, ◌^◌, ◌<◌, ◌&&◌, [], ◌∷◌, true, false, Some, None, IfSome, IsSome, IfOk, IfErr, option_map, is_some};
ghost use Rattle.std.specs.Borrow.{sem};
ghost use Rattle.std.specs.Io.BufRead.{Rests};
ghost use Rattle.std.specs.Iterator.{IsFinite, size};
ghost use Rattle.std.specs.Str.Iter.{chars_rest};
ghost use Rattle.yaml_chars.specs.WindowView.{HasNoNul};
ghost use Rattle.yaml_chars.specs.Source.{CameFrom};
ghost use Rattle.yaml_scanner.specs.Scanned.{Scans};
ghost use Rattle.yaml_parser.specs.Loads.{PushesNext};
ghost use Rattle.yaml_parser.specs.Nests.{IsInside};
ghost use Rattle.yaml_parser.specs.Parsed.{parsed, is_fresh, stays_steady, is_document_end};
ghost use Rattle.yaml_parser.specs.Pulls.{GivesEvent, Pulls, Looks, ShowsNext, MeetsFault, PeekLeaves, ShowsLooked, answer_of};
ghost use Rattle.yaml_parser.specs.Shown.{placed, ev_of};
ghost use Rattle.yaml_parser.specs.View.{no_document};

use crate::event::{Event, ParseResult};
use crate::pull::EventReader;
use crate::receiver::MarkedEventReceiver;
use crate::slot::EventSlot;
use std::alloc::Global;
use std::marker::Model;
use std::mem;
use std::str::Chars;
use yaml_chars::ghost_list::GhostList;
use yaml_chars::{Characters, Marker};
use yaml_scanner::Backlog;
use yaml_tokens::{Fault, Problem, ScanError};

fn is_document_end(event: &Event) -> bool
    ensures { result ≡ is_document_end (ev_of event.now) }
{
    matches!(event, Event::DocumentEnd)
}

/// Reads characters as events (YAML 1.2, chapters 6 to 9). [`next_token`](Parser::next_token) gives the next event,
/// [`load`](Parser::load) pushes events into a receiver. The parser takes memory for open collections and for texts,
/// and reads an iterator no further than it must; of a text in memory it may read on to where the text of the next line begins.
///
/// A fault is kept: each later call returns it again.
///
/// # Example
///
/// ```
/// let mut parser = Parser::new_from_str(alloc, "a: [1, two]");
/// let mut scalars: u64 = 0;
/// for _ in 0..u64::MAX {
///     match parser.next_token()? {
///         (Event::Scalar(_, _, _, _), _) => scalars = scalars.saturating_add(1),
///         (Event::StreamEnd, _) => break,
///         _ => {}
///     }
/// }
/// assert_eq!(rt; scalars, 3);
/// ```
#[derive(Drop)]
pub struct Parser<T: Characters> {
    pull: EventReader<T>,
    current: Option<(Event, Marker)>,
    // All events that were given, for clauses alone.
    given: GhostList<(Event, Marker)>,
    started: bool,
}

impl<T: Characters> Model for Parser<T> {
    ghost use Rattle.std.specs.Prelude.{option_map};
    ghost use Rattle.yaml_scanner.specs.Scanned.{scanned};
    ghost use Rattle.yaml_parser.specs.Parsed.{Parse};
    ghost use Rattle.yaml_parser.specs.Parsed.{has_end, up_to_end};
    ghost use Rattle.yaml_parser.specs.Shown.{placed, all_placed};
    ghost use Rattle.yaml_parser.specs.View.{fault_kept, events_left};
    ghost use Rattle.yaml_parser.specs.Held.{Holds};

    ghost Value = { Parse T };

    ghost view = { λ p. record { start = p.pull.reader.tokens.scanner.start; so_far = record { scanner = scanned p.pull.reader.tokens.scanner; given = up_to_end (all_placed p.given.items); ahead = option_map placed p.current; fault = fault_kept p.pull; started = p.started; ended = has_end (up_to_end (all_placed p.given.items)); keep_tags = p.pull.reader.names.keeping.tags; steady = p.pull.reader.names.keeping.steady; settings = p.pull.reader.names.keeping.settings.items; left = events_left p.pull.reader p.current } } };

    ghost invariant = { λ p. Holds p.pull (up_to_end (all_placed p.given.items)) (option_map placed p.current) p.started };
}

impl<'a> Parser<Chars<'a>> {
    /// A parser of a text, up to its end or its first NUL. It takes no memory.
    pub fn new_from_str(alloc: Global, value: &'a str) -> Self
        ensures given { (parsed result).given ≡ [] }
        ensures ahead { (parsed result).ahead ≡ None }
        ensures fault { (parsed result).fault ≡ None }
        ensures started { (parsed result).started ≡ false }
        ensures ended { (parsed result).ended ≡ false }
        ensures keep_tags { (parsed result).keep_tags ≡ false }
        ensures steady { (parsed result).steady ≡ true }
        ensures settings { (parsed result).settings ≡ [] }
        ensures source { chars_rest result.start ≡ value.now }
    {
        Parser::new(alloc, value.chars())
    }
}

impl<T: Characters> Parser<T> {
    ghost use Rattle.yaml_parser.specs.contracts.parser.Parser.{the_row};

    /// A parser of the characters that an iterator gives, up to its first `None` or NUL. It takes no memory.
    ///
    /// Conditions, which a proof must show: the iterator can be asked, comes to an end, and gives fewer than 2^63 characters.
    /// An iterator over a text in memory, such as `text.chars()`, meets them.
    #[tactic(auto, using(crate::proofs::Parsing::fresh_holds))]
    pub fn new(alloc: Global, src: T) -> Parser<T>
        requires can { T.can_next src }
        requires finite { IsFinite (T.remaining src) }
        requires few { size (T.remaining src) < 2 ^ 63 }
        ensures given { (parsed result).given ≡ [] }
        ensures ahead { (parsed result).ahead ≡ None }
        ensures fault { (parsed result).fault ≡ None }
        ensures started { (parsed result).started ≡ false }
        ensures ended { (parsed result).ended ≡ false }
        ensures keep_tags { (parsed result).keep_tags ≡ false }
        ensures steady { (parsed result).steady ≡ true }
        ensures settings { (parsed result).settings ≡ [] }
        ensures start { result.start ≡ src }
    {
        Parser {
            pull: EventReader::new(alloc, src),
            current: None,
            given: GhostList::new(),
            started: false,
        }
    }

    /// Sets whether a declared tag handle counts in later documents too. By default it is forgotten at the end of its
    /// document (YAML 1.2, section 6.8.2). A later change counts from the next document's start on: whether the handles
    /// of earlier documents count there. It changes no number of an anchor or an alias.
    #[tactic(auto, using(crate::proofs::Parsing::settings_hold))]
    pub fn keep_tags(mut self, value: bool) -> Self
        ensures { result ≡ record self { so_far = record (parsed self) { keep_tags = value; steady = stays_steady (parsed self) value } } }
    {
        let steady = self.stays_steady(value);
        self.pull.reader.names.keeping.set(value, steady);
        self
    }

    /// Whether the setting counts from the start of the stream, if it is set to this value now.
    fn stays_steady(&self, value: bool) -> bool
        ensures { result ≡ stays_steady (parsed self.now) value }
    {
        let keeping = &self.pull.reader.names.keeping;
        keeping.steady && (self.is_fresh() || value == keeping.tags)
    }

    /// Whether no event was asked for yet.
    fn is_fresh(&self) -> bool
        ensures { result ≡ is_fresh (parsed self.now) }
    {
        !self.started && self.current.is_none() && self.pull.kept.is_none()
    }

    /// Shows the next event and its position. The event stays: the next call of `next_token` gives it.
    ///
    /// # Example
    ///
    /// ```
    /// let mut parser = Parser::new(alloc, "a".chars());
    /// assert_eq!(rt; parser.peek()?.0, Event::StreamStart);
    /// parser.look()?; // the same in two calls
    /// assert!(rt; parser.waiting().is_some());
    /// let (event, position) = parser.next_token()?;
    /// assert_eq!(rt; event, Event::StreamStart);
    /// assert_eq!(rt; (position.line(), position.col()), (1, 0));
    /// ```
    ///
    /// # Errors
    ///
    /// Those of [`next_token`](Parser::next_token).
    pub fn peek(&mut self) -> Result<&(Event, Marker), ScanError>
        ensures* after { sem 𝓛 (Rests (the_row T.row T.Characters) self.entry (λ after. PeekLeaves self.old result after)) }
        ensures event { IfOk result (λ e. ShowsNext (parsed self.old) (placed e.now)) }
        ensures fault { IfErr result (λ f. MeetsFault (parsed self.old) f) }
    {
        let looked = self.look();
        self.shown(looked)
    }

    /// The event that waits, or the fault that the look met.
    fn shown(&self, looked: Result<(), ScanError>) -> Result<&(Event, Marker), ScanError>
        requires { IfOk looked (λ _. IsSome (parsed self.now).ahead) }
        ensures { ShowsLooked looked (parsed self.now) result }
    {
        looked?;
        match self.waiting() {
            Some(next) => Ok(next),
            None => unreachable!(),
        }
    }

    /// Looks at the next event. After that `waiting` shows it, and the next call of `next_token` gives it. The two
    /// calls do what `peek` does; use them to prove something, since a proof learns more from their contracts.
    ///
    /// # Errors
    ///
    /// Those of [`next_token`](Parser::next_token).
    pub fn look(&mut self) -> Result<(), ScanError>
        ensures looks { Looks (parsed self.old) result (parsed self.new) }
        ensures start { self.new.start ≡ self.old.start }
    {
        if self.current.is_some() {
            return Ok(());
        }
        let next = self.pull.next()?;
        self.current = Some(next);
        Ok(())
    }

    /// The event that was looked at, and its position, or `None`.
    pub fn waiting(&self) -> Option<&(Event, Marker)>
        ensures { option_map (λ e. placed e.now) result ≡ (parsed self.now).ahead }
    {
        self.current.as_ref()
    }

    /// Gives the next event and its position. After the end of the stream it gives that end again.
    ///
    /// An event stands at its token. One without a token of its own stands at the token after it: a node that is not written, the end of a
    /// sequence without indentation, and starts and ends of documents without `---` and `...`. But a key that is not written stands at
    /// its `:`, and so does the value of a pair of a flow mapping that has only its `:`; a flow mapping that ends right after a comma
    /// ends at the comma; and of the end of a pair that begins with `?` in a flow sequence no position is promised.
    ///
    /// # Errors
    ///
    /// The first fault of the text, at its position. The events before it were given. Or memory was refused
    /// ([`ScanError::is_out_of_memory`]). Either fault is kept: each later call returns it again.
    #[inline(always)]
    pub fn next_token(&mut self) -> ParseResult
        ensures pulls { Pulls (parsed self.old) (answer_of result) (parsed self.new) }
        ensures start { self.new.start ≡ self.old.start }
    {
        if self.waits() {
            return Ok(self.give());
        }
        self.pull_next()
    }

    /// Gives the next event, where none waits.
    #[inline(always)]
    fn pull_next(&mut self) -> ParseResult
        requires { is_some (parsed self.old).ahead ≡ false }
        ensures pulls { Pulls (parsed self.old) (answer_of result) (parsed self.new) }
        ensures start { self.new.start ≡ self.old.start }
    {
        let next = self.pull.next();
        if let Ok(event) = &next {
            self.given.push(event);
            self.started = true;
        }
        next
    }

    /// Pushes the next event of a document, where none waits and no fault is kept, by way of a slot. The result says
    /// whether it is the document's end.
    #[inline(always)]
    pub(crate) fn push_next<R: MarkedEventReceiver>(
        &mut self,
        recv: &mut R,
        slot: &mut EventSlot,
    ) -> Result<bool, ScanError>
        requires inside { IsInside (parsed self.old) }
        requires none { (parsed self.old).ahead ≡ None }
        requires clear { (parsed self.old).fault ≡ None }
        ensures pushes { PushesNext R.takes (parsed self.old) recv.old result (parsed self.new) recv.new }
        ensures start { self.new.start ≡ self.old.start }
    {
        match self.pull.advance(slot) {
            Ok(()) => {
                self.given.push(&slot.next);
                self.started = true;
                let last = is_document_end(&slot.next.0);
                let mark = slot.next.1;
                let event = mem::replace(&mut slot.next.0, Event::Nothing);
                if let Err(error) = recv.on_event(event, mark) {
                    return Err(error);
                }
                Ok(last)
            }
            Err(_) => Err(self.pull.keep(slot.fault)),
        }
    }

    /// Whether an event waits.
    fn waits(&self) -> bool
        ensures { result ≡ is_some (parsed self.now).ahead }
    {
        self.current.is_some()
    }

    /// Gives the event that waits.
    #[inline(never)]
    fn give(&mut self) -> (Event, Marker)
        requires { IsSome (parsed self.old).ahead }
        ensures gives { IfSome (parsed self.old).ahead (λ e. placed result ≡ e) × GivesEvent (parsed self.old) (placed result) (parsed self.new) }
        ensures start { self.new.start ≡ self.old.start }
    {
        let Some(next) = self.current.take() else {
            unreachable!()
        };
        self.given.push(&next);
        self.started = true;
        next
    }

    /// Leaves room for so many tokens that wait, as [`Scanner::set_room`](yaml_scanner::Scanner::set_room) has it. Where more wait, the
    /// fault is that of refused memory, and [`backlog`](Parser::backlog) tells it from others.
    pub fn set_room(&mut self, tokens: usize)
        ensures { self.new ≡ self.old }
    {
        self.pull.reader.tokens.scanner.set_room(tokens);
    }

    /// Where more tokens waited than there was room for, or `None`. It takes no memory.
    pub fn backlog(&self) -> Option<Backlog>
        ensures { result ≡ (parsed self.now).scanner.backlog }
    {
        self.pull.reader.tokens.scanner.backlog()
    }

    /// Does nothing. A proof learns from it that the characters read are those that the iterator gave.
    pub fn note(&self)
        ensures came { CameFrom T.next_gives self.now.start (parsed self.now).scanner.taken (parsed self.now).scanner.done }
        ensures no_nul { HasNoNul (parsed self.now).scanner.taken }
        ensures scans { Scans (parsed self.now).scanner }
    {
        let _ = self.pull.reader.tokens.scanner.mark();
    }

    /// A slot for the events to come.
    pub(crate) fn slot(&self) -> EventSlot {
        EventSlot::new(self.pull.reader.tokens.scanner.mark())
    }

    /// Whether an event was given.
    pub(crate) fn has_started(&self) -> bool
        ensures { result ≡ (parsed self.now).started }
    {
        self.started
    }

    /// Keeps the fault of an event that was given where a document must start.
    #[tactic(auto, using(crate::proofs::Parsing::misplaced_holds))]
    pub(crate) fn misplace(&mut self, mark: Marker) -> ScanError
        requires none { (parsed self.old).ahead ≡ None }
        requires going { (parsed self.old).ended ≡ false }
        ensures fault { result ≡ no_document mark }
        ensures kept { self.new ≡ record self.old { so_far = record (parsed self.old) { fault = Some (no_document mark) } } }
    {
        self.pull
            .keep(Some(Fault::At(Problem::DocumentStartEvent, mark)))
    }
}
