ghost use Rattle.std.specs.Prelude.{◌≡◌, [], true, is_some, IfOk, OnErr};
ghost use Rattle.defs_token.specs.Token.{Style};
ghost use Rattle.defs_event.specs.Event.{Ev};
ghost use Rattle.defs_text.specs.Text.{string_chars};
ghost use Rattle.yaml_parser.specs.Shown.{ev_of, tag_of, perhaps_tag_of, keeps_text};

use std::alloc::{AllocError, Global};
use yaml_tokens::{ScanError, TScalarStyle};

/// A piece of a stream's structure, as a parser gives it (YAML 1.2, section 3.1.2). A start and its end enclose the
/// events between them. A mapping has the events of a key and then of its value, in turn.
///
/// An anchor is its number, counted from 1 over the stream, or 0 if there is none.
///
/// An event has the position where its token begins. For a node that is its content, after its anchor and its tag. The
/// start of a mapping without braces stands at its first `?`. If its first key has none, it stands at the first `:` in a
/// block mapping, and after the `:` in a flow sequence.
#[derive(Debug, PartialEq, Eq, Drop)]
pub enum Event {
    /// Never given.
    Nothing,
    /// Always first.
    StreamStart,
    /// Always last.
    StreamEnd,
    /// Before a document's root.
    DocumentStart,
    /// After a document's root.
    DocumentEnd,
    /// The number of the anchor that the alias means.
    Alias(usize),
    /// A scalar: its text, its style, its anchor and its tag.
    Scalar(String, TScalarStyle, usize, Option<Tag>),
    /// Before a sequence's items: its anchor and its tag.
    SequenceStart(usize, Option<Tag>),
    /// After a sequence's items.
    SequenceEnd,
    /// Before a mapping's pairs: its anchor and its tag.
    MappingStart(usize, Option<Tag>),
    /// After a mapping's pairs.
    MappingEnd,
}

/// A tag: the prefix that its handle stands for, and its suffix.
#[derive(Debug, PartialEq, Eq, Drop)]
pub struct Tag {
    /// The prefix that the tag's handle was declared to stand for, as `tag:yaml.org,2002:` for `!!`; `!` for `!x`; empty
    /// for a verbatim tag.
    pub handle: String,
    /// What stands after the handle.
    pub suffix: String,
}

/// The next event and its position, or a fault.
pub type ParseResult = Result<(Event, yaml_chars::Marker), ScanError>;

#[tactic(auto, using(yaml_chars::proofs::TextLemmas::string_chars_same))]
pub(crate) fn copied(alloc: Global, text: &String) -> Result<String, AllocError>
    ensures { IfOk result (λ t. string_chars t ≡ string_chars text.now) }
{
    String::from_str(alloc, text.as_str())
}

impl Tag {
    /// A copy, equal to the tag. An `Err` comes only if memory was refused.
    pub fn clone(&self, alloc: Global) -> Result<Tag, AllocError>
        ensures { IfOk result (λ t. tag_of t ≡ tag_of self.now) }
    {
        Ok(Tag {
            handle: copied(alloc, &self.handle)?,
            suffix: copied(alloc, &self.suffix)?,
        })
    }
}

fn perhaps_clone(alloc: Global, tag: &Option<Tag>) -> Result<Option<Tag>, AllocError>
    ensures copy { IfOk result (λ t. perhaps_tag_of t ≡ perhaps_tag_of tag.now) }
    ensures only_for_a_tag { OnErr result (is_some (perhaps_tag_of tag.now) ≡ true) }
{
    match tag {
        Some(tag) => Ok(Some(tag.clone(alloc)?)),
        None => Ok(None),
    }
}

impl Event {
    /// A copy, equal to the event. An `Err` comes only if memory was refused; an event without a text or a tag asks
    /// for none.
    pub fn clone(&self, alloc: Global) -> Result<Event, AllocError>
        ensures copy { IfOk result (λ e. ev_of e ≡ ev_of self.now) }
        ensures only_for_a_text { OnErr result (keeps_text (ev_of self.now) ≡ true) }
    {
        match self {
            Event::Nothing => Ok(Event::Nothing),
            Event::StreamStart => Ok(Event::StreamStart),
            Event::StreamEnd => Ok(Event::StreamEnd),
            Event::DocumentStart => Ok(Event::DocumentStart),
            Event::DocumentEnd => Ok(Event::DocumentEnd),
            Event::Alias(number) => Ok(Event::Alias(*number)),
            Event::Scalar(text, style, anchor, tag) => Ok(Event::Scalar(
                copied(alloc, text)?,
                *style,
                *anchor,
                perhaps_clone(alloc, tag)?,
            )),
            Event::SequenceStart(anchor, tag) => {
                Ok(Event::SequenceStart(*anchor, perhaps_clone(alloc, tag)?))
            }
            Event::SequenceEnd => Ok(Event::SequenceEnd),
            Event::MappingStart(anchor, tag) => {
                Ok(Event::MappingStart(*anchor, perhaps_clone(alloc, tag)?))
            }
            Event::MappingEnd => Ok(Event::MappingEnd),
        }
    }

    /// A scalar that has properties and no text.
    #[tactic(auto, using(yaml_chars::proofs::TextLemmas::string_chars_nil))]
    pub(crate) fn empty_with(alloc: Global, anchor: usize, tag: Option<Tag>) -> Event
        ensures { ev_of result ≡ Ev.scalar [] Style.plain anchor (perhaps_tag_of tag) }
    {
        Event::Scalar(String::new(alloc), TScalarStyle::Plain, anchor, tag)
    }
}
