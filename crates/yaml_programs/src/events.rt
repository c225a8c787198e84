//! The line that `yamltool events` and `yamlbatch` print for an event.

ghost use Rattle.std.specs.Prelude.{◌≡◌, Some, OnOk, chars};
ghost use Rattle.std.specs.Io.KnownBytes.{Appends};
ghost use Rattle.yaml_tokens.specs.Shown.{style_of};
ghost use Rattle.yaml_parser.specs.Shown.{ev_of, tag_of, perhaps_tag_of};
ghost use Rattle.yaml_programs.specs.Lines.{event_line, head, details, event_name, style_name, properties_text, anchor_text, tag_text, scalar_text};

use std::io;
use std::io::Write;
use yaml_chars::Marker;
use yaml_emitter::DoubleQuoted;
use yaml_parser::{Event, Tag};
use yaml_tokens::TScalarStyle;

/// Writes an event's line: its name, its position, and each of these that it has: an alias's number,
/// an anchor's, a tag, a scalar's style and text.
pub fn write_event<W: Write>(out: &mut W, event: &Event, mark: Marker) -> io::Result<()>
    ensures { OnOk result (Appends (W.contents out.old) (W.contents out.new) (event_line (ev_of event.now) mark)) }
{
    write_head(out, event, mark)?;
    write_details(out, event)?;
    writeln!(out)
}

fn write_head<W: Write>(out: &mut W, event: &Event, mark: Marker) -> io::Result<()>
    ensures { OnOk result (Appends (W.contents out.old) (W.contents out.new) (head (ev_of event.now) mark)) }
{
    let name = name_of(event);
    let line = mark.line();
    let col = mark.col();
    write!(out, "{name} {line}:{col}")
}

#[tactic(auto, unfolding(defs_text::specs::Text::string_chars))]
fn write_details<W: Write>(out: &mut W, event: &Event) -> io::Result<()>
    ensures { OnOk result (Appends (W.contents out.old) (W.contents out.new) (details (ev_of event.now))) }
{
    match event {
        Event::Alias(number) => write!(out, " *{number}"),
        Event::Scalar(text, style, anchor, tag) => {
            write_properties(out, *anchor, tag)?;
            write_scalar(out, text.as_str(), *style)
        }
        Event::SequenceStart(anchor, tag) | Event::MappingStart(anchor, tag) => {
            write_properties(out, *anchor, tag)
        }
        _ => Ok(()),
    }
}

fn write_scalar<W: Write>(out: &mut W, text: &str, style: TScalarStyle) -> io::Result<()>
    ensures { OnOk result (Appends (W.contents out.old) (W.contents out.new) (scalar_text (style_of style) (chars text.now))) }
{
    let style = style_name(style);
    let text = DoubleQuoted(text);
    write!(out, " {style} {text}")
}

fn write_properties<W: Write>(out: &mut W, anchor: usize, tag: &Option<Tag>) -> io::Result<()>
    ensures { OnOk result (Appends (W.contents out.old) (W.contents out.new) (properties_text anchor (perhaps_tag_of tag.now))) }
{
    write_anchor(out, anchor)?;
    match tag {
        Some(tag) => write_tag(out, tag),
        None => Ok(()),
    }
}

fn write_anchor<W: Write>(out: &mut W, anchor: usize) -> io::Result<()>
    ensures { OnOk result (Appends (W.contents out.old) (W.contents out.new) (anchor_text anchor)) }
{
    if anchor > 0 {
        write!(out, " &{anchor}")
    } else {
        Ok(())
    }
}

#[tactic(auto, unfolding(defs_text::specs::Text::string_chars))]
fn write_tag<W: Write>(out: &mut W, tag: &Tag) -> io::Result<()>
    ensures { OnOk result (Appends (W.contents out.old) (W.contents out.new) (tag_text (Some (tag_of tag.now)))) }
{
    let handle = DoubleQuoted(tag.handle.as_str());
    let suffix = DoubleQuoted(tag.suffix.as_str());
    write!(out, " tag {handle} {suffix}")
}

fn name_of(event: &Event) -> &'static str
    ensures { result.now ≡ event_name (ev_of event.now) }
{
    match event {
        Event::Nothing => "Nothing",
        Event::StreamStart => "StreamStart",
        Event::StreamEnd => "StreamEnd",
        Event::DocumentStart => "DocumentStart",
        Event::DocumentEnd => "DocumentEnd",
        Event::Alias(_) => "Alias",
        Event::Scalar(_, _, _, _) => "Scalar",
        Event::SequenceStart(_, _) => "SequenceStart",
        Event::SequenceEnd => "SequenceEnd",
        Event::MappingStart(_, _) => "MappingStart",
        Event::MappingEnd => "MappingEnd",
    }
}

fn style_name(style: TScalarStyle) -> &'static str
    ensures { result.now ≡ style_name (style_of style) }
{
    match style {
        TScalarStyle::Plain => "plain",
        TScalarStyle::SingleQuoted => "single",
        TScalarStyle::DoubleQuoted => "double",
        TScalarStyle::Literal => "literal",
        TScalarStyle::Folded => "folded",
    }
}
