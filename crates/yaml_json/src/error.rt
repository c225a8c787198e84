//! Why a tree was not written.
use std::fmt;
use thiserror::Error;
use yaml_emitter::write_double_quoted;

/// Why a tree was not written to its end.
#[derive(Debug, Drop, Error)]
pub enum JsonError {
    /// A node has no JSON text. Nothing was written.
    #[error("{0}")]
    NoJson(NoJson),
    /// Memory was refused: on the way to the first node without a JSON text, which lies below the root, or because each
    /// node has one and the tree nests more than 128 levels. Nothing was written.
    #[error("out of memory")]
    OutOfMemory,
    /// The writer refused a part of the text, or a line would need 2^64 spaces.
    #[error(transparent)]
    Refused(fmt::Error),
}

/// The first node of a tree that has no JSON text, in the order of the text: an array and a hash come before what
/// stands in them. It is shown as its path and the reason: `$["ports"][1]: an alias has no JSON text`.
#[derive(Debug, Drop)]
pub struct NoJson {
    /// The steps to the node from the root.
    pub path: Vec<Step>,
    /// Why it has none.
    pub reason: Reason,
}

/// A step from an array or a hash down to a node in it.
#[derive(Debug, Drop)]
pub enum Step {
    /// To the item at this place, counted from 0.
    Index(usize),
    /// To the value of this key.
    Key(String),
}

/// Why a node has no JSON text.
#[derive(Clone, Copy, Debug, Error)]
pub enum Reason {
    /// It is an alias.
    #[error("an alias has no JSON text")]
    Alias,
    /// It is a bad value.
    #[error("a bad value has no JSON text")]
    BadValue,
    /// It is a real, and no number of JSON, as `.inf`, or one that is read as an integer.
    #[error("the number cannot be written in JSON")]
    Number,
    /// One of its keys is no string.
    #[error("a key is no string")]
    Key,
}

impl fmt::Display for NoJson {
    fn fmt<W: fmt::Write>(&self, f: &mut fmt::Formatter<W>) -> fmt::Result {
        f.write_str("$")?;
        for step in &self.path {
            write!(f, "{step}")?;
        }
        write!(f, ": {}", self.reason)
    }
}

// A place as `[1]`, and a key as the JSON string of its text: `["port"]`.
impl fmt::Display for Step {
    fn fmt<W: fmt::Write>(&self, f: &mut fmt::Formatter<W>) -> fmt::Result {
        f.write_str("[")?;
        match self {
            Step::Index(index) => write!(f, "{index}")?,
            Step::Key(key) => write_double_quoted(f, key.as_str())?,
        }
        f.write_str("]")
    }
}
