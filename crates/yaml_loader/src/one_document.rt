//! One document, from a parser that stands between documents.
ghost use Rattle.std.specs.Prelude.{◌≡◌};
ghost use Rattle.yaml_parser.specs.Parsed.{parsed};
ghost use Rattle.yaml_parser.specs.Shown.{ev_of};
ghost use Rattle.yaml_loader.specs.OneDocument.{is_end, IsGoing, IsBetween, TakesDocument, Reads};

use crate::YamlLoader;
use std::alloc::Global;
use yaml_parser::{Event, MarkedEventReceiver, Parser};
use yaml_tokens::ScanError;
use yaml_tree::Yaml;

/// Why no whole document was taken.
#[derive(Debug, Drop)]
pub enum Halt {
    /// The parser has this fault.
    Parser(ScanError),
    /// The receiver refused an event so.
    Receiver(ScanError),
}

impl From<Halt> for ScanError {
    ghost use Rattle.std.specs.Prelude.{◌≡◌};
    ghost use Rattle.yaml_loader.specs.OneDocument.{fault_in};

    ghost from_gives = { λ halt fault. fault ≡ fault_in halt };

    fn from(halt: Halt) -> ScanError {
        match halt {
            Halt::Parser(fault) => fault,
            Halt::Receiver(fault) => fault,
        }
    }
}

/// Reads the next document, or to the end of the stream. The loader is a new one: the parser forgets the names of
/// anchors at the start of a document, so no alias means a node of an earlier one.
pub fn read_document<T: Iterator<Item = char>>(
    alloc: Global,
    parser: &mut Parser<T>,
) -> Result<Option<Yaml>, ScanError>
    ensures reads { IsBetween (parsed parser.old) → Reads (parsed parser.old) result (parsed parser.new) }
    ensures start { parser.new.start ≡ parser.old.start }
{
    let mut loader = YamlLoader::default(alloc);
    take_document(parser, &mut loader)?;
    let mut documents = loader.into_documents()?;
    Ok(documents.pop())
}

/// Hands a receiver the events up to the end of the next document, or of the stream.
///
/// # Example
///
/// ```
/// let mut scalars = Scalars { count: 0 };
/// let mut parser = Parser::new_from_str(rt.alloc(), "[a, b]\n--- c\n");
/// assert!(rt; take_document(&mut parser, &mut scalars).is_ok());
/// assert_eq!(rt; scalars.count, 2);
/// ```
///
/// # Errors
///
/// The parser's fault, or that with which the receiver refuses an event: no more events are read then.
pub fn take_document<T: Iterator<Item = char>, R: MarkedEventReceiver>(
    parser: &mut Parser<T>,
    receiver: &mut R,
) -> Result<(), Halt>
    ensures takes { IsGoing (parsed parser.old) → TakesDocument R.takes (parsed parser.old) receiver.old result (parsed parser.new) receiver.new }
    ensures start { parser.new.start ≡ parser.old.start }
{
    'events: loop {
        let (event, mark) = match parser.next_token() {
            Ok(next) => next,
            Err(fault) => return Err(Halt::Parser(fault)),
        };
        let last = is_end(&event);
        if let Err(fault) = receiver.on_event(event, mark) {
            return Err(Halt::Receiver(fault));
        }
        if last {
            return Ok(());
        }
    }
}

// Whether the event ends a document or the stream.
fn is_end(event: &Event) -> bool
    ensures { result ≡ is_end (ev_of event.now) }
{
    matches!(event, Event::DocumentEnd | Event::StreamEnd)
}
