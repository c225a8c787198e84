//! Events, and the positions of nodes, as numbers.

use crate::digest::Digest;
use std::alloc::{AllocError, Global};
use yaml_loader::marked::Marked;
use yaml_rust2::parser::{Event, Tag};
use yaml_rust2::scanner::TScalarStyle;

/// Adds all that an event says.
pub fn add_event(digest: &mut Digest, event: &Event) {
    digest.add_number(kind_of(event));
    match event {
        Event::Alias(anchor) => digest.add_number(*anchor as u64),
        Event::Scalar(text, style, anchor, tag) => {
            digest.add_text(text.as_str());
            digest.add_number(number_of(*style));
            add_properties(digest, *anchor, tag);
        }
        Event::SequenceStart(anchor, tag) => add_properties(digest, *anchor, tag),
        Event::MappingStart(anchor, tag) => add_properties(digest, *anchor, tag),
        _ => (),
    }
}

fn add_properties(digest: &mut Digest, anchor: usize, tag: &Option<Tag>) {
    digest.add_number(anchor as u64);
    if let Some(tag) = tag {
        digest.add_text(tag.handle.as_str());
        digest.add_text(tag.suffix.as_str());
    }
}

fn kind_of(event: &Event) -> u64 {
    match event {
        Event::Nothing => 0,
        Event::StreamStart => 1,
        Event::StreamEnd => 2,
        Event::DocumentStart => 3,
        Event::DocumentEnd => 4,
        Event::Alias(_) => 5,
        Event::Scalar(_, _, _, _) => 6,
        Event::SequenceStart(_, _) => 7,
        Event::SequenceEnd => 8,
        Event::MappingStart(_, _) => 9,
        Event::MappingEnd => 10,
    }
}

fn number_of(style: TScalarStyle) -> u64 {
    match style {
        TScalarStyle::Plain => 1,
        TScalarStyle::SingleQuoted => 2,
        TScalarStyle::DoubleQuoted => 3,
        TScalarStyle::Literal => 4,
        TScalarStyle::Folded => 5,
    }
}

/// Adds the positions of a node and of all nodes in it.
pub fn add_positions<'a>(
    alloc: Global,
    root: Marked<'a>,
    digest: &mut Digest,
) -> Result<(), AllocError> {
    let mut waiting = Vec::new(alloc);
    wait(&mut waiting, root)?;
    for _ in 0..u64::MAX {
        let Some(node) = waiting.pop() else {
            return Ok(());
        };
        digest.add_mark(node.marker());
        digest.add_mark(node.tree_marker());
        add_items(&mut waiting, node)?;
        add_pairs(&mut waiting, node)?;
    }
    Ok(())
}

fn add_items<'a>(waiting: &mut Vec<Marked<'a>>, node: Marked<'a>) -> Result<(), AllocError> {
    let Some(items) = node.items() else {
        return Ok(());
    };
    for item in items {
        wait(waiting, item)?;
    }
    Ok(())
}

fn add_pairs<'a>(waiting: &mut Vec<Marked<'a>>, node: Marked<'a>) -> Result<(), AllocError> {
    let Some(pairs) = node.pairs() else {
        return Ok(());
    };
    for (key, value) in pairs {
        wait(waiting, key)?;
        wait(waiting, value)?;
    }
    Ok(())
}

fn wait<'a>(waiting: &mut Vec<Marked<'a>>, node: Marked<'a>) -> Result<(), AllocError> {
    waiting.push(node).map_err(|_| AllocError)
}
