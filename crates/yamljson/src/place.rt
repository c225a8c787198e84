//! Where a node stands that has no JSON text.
use std::alloc::{AllocError, Global};
use yaml_json::{NoJson, Reason, Step};
use yaml_loader::marked::{Marked, load_marked};
use yaml_tree::Yaml;

/// Where a node stands, or its first key that is no string.
#[derive(Drop)]
pub struct Place {
    /// Its line, counted from 1.
    pub line: usize,
    /// Its column, counted from 1.
    pub column: usize,
    /// How the key is shown.
    pub key: Option<String>,
}

impl Place {
    const START: Place = Place {
        line: 1,
        column: 1,
        key: None,
    };
}

/// Where this node of a text stands. The text is loaded once more, now with positions, so an `Err` says that memory was
/// refused. A document counts from 0.
pub fn place_of(
    alloc: Global,
    text: &str,
    document: usize,
    node: &NoJson,
) -> Result<Place, AllocError> {
    let Ok(documents) = load_marked(alloc, text) else {
        return Err(AllocError);
    };
    let Some(root) = documents.get(document) else {
        return Ok(Place::START);
    };
    let found = at(root, node.path.as_slice());
    let key = match node.reason {
        Reason::Key => other_key(found),
        _ => None,
    };
    let marker = key.unwrap_or(found).marker();
    Ok(Place {
        line: marker.line(),
        column: marker.col() + 1,
        key: match key {
            Some(key) => Some(shown(alloc, key.yaml())?),
            None => None,
        },
    })
}

// The node at the end of a path, or the last one on the way.
fn at<'a>(root: Marked<'a>, path: &[Step]) -> Marked<'a> {
    let mut node = root;
    'steps: for step in path {
        let part = match step {
            Step::Index(index) => node.get_index(*index),
            Step::Key(key) => node.get_key(key.as_str()),
        };
        match part {
            Some(part) => node = part,
            None => return node,
        }
    }
    node
}

// The first key that is no string.
fn other_key<'a>(node: Marked<'a>) -> Option<Marked<'a>> {
    'pairs: for (key, _) in node.pairs()? {
        if key.as_str().is_none() {
            return Some(key);
        }
    }
    None
}

// A key that is no string: a scalar as JSON would have it, anything else by its kind.
fn shown(alloc: Global, key: &Yaml) -> Result<String, AllocError> {
    match key {
        Yaml::Integer(number) => format!(in alloc; "{number}"),
        Yaml::Boolean(value) => format!(in alloc; "{value}"),
        Yaml::Real(text) => String::from_str(alloc, text.as_str()),
        Yaml::Null => String::from_str(alloc, "null"),
        Yaml::Array(_) => String::from_str(alloc, "a sequence"),
        Yaml::Hash(_) => String::from_str(alloc, "a mapping"),
        _ => String::from_str(alloc, "a bad value"),
    }
}
