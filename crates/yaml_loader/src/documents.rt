//! The documents of a text one by one, each loaded when it is asked for.
//!
//! [`Documents`] is an iterator. It reads to the end of a document, and gives the document.
//!
//! ```
//! let mut errors = 0_u64;
//! for document in Documents::new(alloc, "level: info\n---\nlevel: error\n") {
//!     let document = document?;
//!     let level = document.get_key("level").and_then(|level| level.as_str());
//!     if level == Some("error") {
//!         errors = errors.saturating_add(1);
//!     }
//! }
//! assert_eq!(rt; errors, 1);
//! ```
//!
//! | What comes | When |
//! |---|---|
//! | `Some(Ok(document))` | at the end of each document, whatever the text is after it |
//! | `Some(Err(fault))` | once, if the text has a fault before the end of the next document, or if memory was refused |
//! | `None` | after the last document, or after a fault; and from then on |
//!
//! The documents are those of `YamlLoader::load_from_str`, in their order. It refuses a text as a whole; here the documents
//! before the fault were given. The fault is the same, but for one case: a key that comes twice in its mapping is the fault
//! of its document here, and `load_from_str` returns it only if the whole text has no other.
//!
//! - A document's node has the copies of its aliases. An alias means a node of its own document (YAML 1.2, section 3.2.2.2),
//!   so the anchors of earlier documents are not kept.
//! - A tag handle counts in its document alone (section 6.8.2).
//! - `Documents::new` borrows a text. `Documents::from_iter` takes characters from any iterator.
//! - After `None` and after a fault no character is asked for.
//! - [`take_document`] hands the events of one document to a receiver of your own.
ghost use Rattle.std.specs.Prelude.{◌≡◌, ◌^◌, ◌<◌, [], false, chars};
ghost use Rattle.std.specs.Iterator.{IsFinite, size, AlwaysYields};
ghost use Rattle.std.specs.Str.Iter.{chars_steps};

use crate::one_document::read_document;
pub use crate::one_document::{Halt, take_document};
use std::alloc::Global;
use std::marker::Model;
use std::str::Chars;
use yaml_parser::Parser;
use yaml_tokens::ScanError;
use yaml_tree::Yaml;

/// The documents of a text, one by one.
///
/// As an iterator it gives `Ok` with each document, in order. Then it gives `None`, or first the text's fault as an
/// `Err`; after that it gives `None` forever. The documents are those of `YamlLoader::load_from_str`.
///
/// # Errors
///
/// The text's fault before the next document ends, with its position: the scanner's, the parser's, or
/// `duplicated key in mapping` at the end of the document. Or memory was refused ([`ScanError::is_out_of_memory`]).
#[derive(Drop)]
pub struct Documents<T: Iterator<Item = char>> {
    alloc: Global,
    parser: Parser<T>,
    // No document comes any more: the stream has ended, or a fault was given.
    over: bool,
}

impl<T: Iterator<Item = char>> Model for Documents<T> {
    ghost use Rattle.yaml_parser.specs.Parsed.{parsed};
    ghost use Rattle.yaml_loader.specs.DocumentStream.{Stream, stream_of};
    ghost use Rattle.yaml_loader.specs.OneDocument.{IsReady};

    ghost Value = { Stream T };

    ghost view = { λ d. stream_of d.parser d.over };

    ghost invariant = { λ d. IsReady (parsed d.parser) d.over };
}

impl<'a> Documents<Chars<'a>> {
    /// The documents of a text, up to its end or its first NUL. It takes no memory.
    pub fn new(alloc: Global, text: &'a str) -> Self
        ensures nothing { result.events ≡ [] }
        ensures going { result.over ≡ false }
        ensures text { AlwaysYields chars_steps (λ c. c) result.start (chars text.now) }
    {
        Documents {
            alloc,
            parser: Parser::new_from_str(alloc, text),
            over: false,
        }
    }
}

impl<T: Iterator<Item = char>> Documents<T> {
    /// The documents of the characters that an iterator gives, up to its first `None` or NUL. It takes no memory.
    ///
    /// Conditions: the iterator may be asked, ends, and gives fewer than 2^63 characters.
    pub fn from_iter(alloc: Global, source: T) -> Documents<T>
        requires can { T.can_next source }
        requires finite { IsFinite (T.remaining source) }
        requires few { size (T.remaining source) < 2 ^ 63 }
        ensures nothing { result.events ≡ [] }
        ensures going { result.over ≡ false }
        ensures start { result.start ≡ source }
    {
        Documents {
            alloc,
            parser: Parser::new(alloc, source),
            over: false,
        }
    }
}

impl<T: Iterator<Item = char>> Iterator for Documents<T> {
    ghost use Rattle.std.specs.Iterator.{at_most};
    ghost use Rattle.yaml_loader.specs.DocumentStream.{Gives};

    type Item = Result<Yaml, ScanError>;

    ghost remaining = { λ d. at_most d.left };

    ghost next_gives = { λ a r b. Gives T.next_gives a r b };

    /// The next document. An `Err` has the text's fault, or says that memory was refused. `None` comes after the last
    /// document, and after an `Err`.
    fn next(&mut self) -> Option<Result<Yaml, ScanError>> {
        if self.over {
            return None;
        }
        let read = read_document(self.alloc, &mut self.parser);
        self.parser.note();
        match read {
            Ok(Some(document)) => Some(Ok(document)),
            Ok(None) => {
                self.over = true;
                None
            }
            Err(fault) => {
                self.over = true;
                Some(Err(fault))
            }
        }
    }
}
