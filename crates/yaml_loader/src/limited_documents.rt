//! An iterator over the documents of a text, each within limits.
ghost use Rattle.std.specs.Prelude.{◌≡◌, ◌^◌, ◌<◌, [], false, chars};
ghost use Rattle.std.specs.Iterator.{IsFinite, size, AlwaysYields};
ghost use Rattle.std.specs.Str.Iter.{chars_steps};

use crate::limited_document::read_document;
use crate::limits::Limits;
use crate::limits_error::LimitsError;
use std::alloc::Global;
use std::marker::Model;
use std::str::Chars;
use yaml_parser::Parser;
use yaml_tree::Yaml;

/// The documents of a text, one by one, each within limits.
///
/// As an iterator it gives `Ok` with each document, in order. Then it gives `None`, or first as an `Err` the text's fault or
/// that the next document goes over the limits; after that it gives `None` forever. The documents are those of
/// [`Documents`](crate::documents::Documents).
///
/// The limits count for each document on its own, as if it stood alone: a log may have any number of documents. So of `size`
/// only what waits in memory counts, which is one document.
///
/// # Errors
///
/// `Scan` has the fault that `Documents` would give, or says that memory was refused. `Levels` and `Size` have the position of
/// the first event by which the document would make more than the limits allow; or, of tokens that wait, the position up to
/// which the text was read.
#[derive(Drop)]
pub struct LimitedDocuments<T: Iterator<Item = char>> {
    alloc: Global,
    parser: Parser<T>,
    limits: Limits,
    // No document comes any more: the stream has ended, or an error was given.
    over: bool,
}

impl<T: Iterator<Item = char>> Model for LimitedDocuments<T> {
    ghost use Rattle.yaml_parser.specs.Parsed.{parsed};
    ghost use Rattle.yaml_loader.specs.OneDocument.{IsReady};
    ghost use Rattle.yaml_loader.specs.DocumentStream.{stream_of};
    ghost use Rattle.yaml_loader.specs.LimitedOneByOne.{LimitedStream};

    ghost Value = { LimitedStream T };

    ghost view = { λ d. record { stream = stream_of d.parser d.over; limits = d.limits } };

    ghost invariant = { λ d. IsReady (parsed d.parser) d.over };
}

impl<'a> LimitedDocuments<Chars<'a>> {
    /// The documents of a text, up to its end or its first NUL. It takes no memory.
    pub fn new(alloc: Global, text: &'a str, limits: Limits) -> Self
        ensures nothing { result.stream.events ≡ [] }
        ensures going { result.stream.over ≡ false }
        ensures limits { result.limits ≡ limits }
        ensures text { AlwaysYields chars_steps (λ c. c) result.stream.start (chars text.now) }
    {
        let mut parser = Parser::new_from_str(alloc, text);
        parser.set_room(limits.room());
        LimitedDocuments {
            alloc,
            parser,
            limits,
            over: false,
        }
    }
}

impl<T: Iterator<Item = char>> LimitedDocuments<T> {
    /// The documents of the characters that an iterator gives, up to its first `None` or NUL. It takes no memory.
    ///
    /// Conditions: the iterator may be asked, ends, and gives fewer than 2^63 characters.
    #[tactic(auto, using(crate::proofs::LimitedCalls::ready_at_start))]
    pub fn from_iter(alloc: Global, source: T, limits: Limits) -> LimitedDocuments<T>
        requires can { T.can_next source }
        requires finite { IsFinite (T.remaining source) }
        requires few { size (T.remaining source) < 2 ^ 63 }
        ensures nothing { result.stream.events ≡ [] }
        ensures going { result.stream.over ≡ false }
        ensures limits { result.limits ≡ limits }
        ensures start { result.stream.start ≡ source }
    {
        let mut parser = Parser::new(alloc, source);
        parser.set_room(limits.room());
        LimitedDocuments {
            alloc,
            parser,
            limits,
            over: false,
        }
    }
}

impl<T: Iterator<Item = char>> Iterator for LimitedDocuments<T> {
    ghost use Rattle.std.specs.Iterator.{at_most};
    ghost use Rattle.yaml_loader.specs.LimitedOneByOne.{GivesWithin};

    type Item = Result<Yaml, LimitsError>;

    ghost remaining = { λ d. at_most d.stream.left };

    ghost next_gives = { λ a r b. GivesWithin T.next_gives a r b };

    /// The next document. An `Err` has the text's fault, says that the next document goes over the limits, or that memory was
    /// refused. `None` comes after the last document, and after an `Err`.
    fn next(&mut self) -> Option<Result<Yaml, LimitsError>> {
        if self.over {
            return None;
        }
        let read = read_document(self.alloc, &mut self.parser, self.limits);
        self.parser.note();
        match read {
            Ok(Some(document)) => Some(Ok(document)),
            Ok(None) => {
                self.over = true;
                None
            }
            Err(error) => {
                self.over = true;
                Some(Err(error))
            }
        }
    }
}
