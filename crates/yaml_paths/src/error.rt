//! Why a value was not read.
ghost use Rattle.std.specs.Prelude.{◌≡◌, None, Some};

use crate::kind::Kind;
use crate::step::Step;
use std::fmt;
use yaml_chars::Marker;

/// Why a value was not read, and where. It is shown as the position, if there is one, the path and the reason:
/// `line 12, column 3: $["server"]["port"]: a string, where an integer is wanted`. The columns shown count from 1.
#[derive(Clone, Copy, Debug)]
pub struct ReadError<'a> {
    /// The path that was asked for, or its beginning up to what the reason is about: the first node that is missing, or a
    /// node of another kind on the way.
    pub path: &'a [Step<'a>],
    /// The place of the item that is of another kind, in a list, counted from 0.
    pub item: Option<usize>,
    /// Where the node of another kind begins, or, where a node is missing, the last one before it.
    pub position: Option<Marker>,
    /// What was wrong.
    pub reason: Reason,
}

/// Why a value was not read.
#[derive(Clone, Copy, Debug)]
pub enum Reason {
    /// There is no such node: a hash has no such key, an array no such item, or null stands in place of both.
    Missing,
    /// A node is of another kind: the one that was asked for, or one on the way to it.
    Other {
        /// The kind that was asked for, or on the way a hash for a key, and an array for an item.
        wanted: Kind,
        /// The node's kind.
        found: Kind,
    },
    /// Memory was refused for a list that is not empty.
    OutOfMemory,
}

impl<'a> ReadError<'a> {
    pub(crate) fn new(path: &'a [Step<'a>], item: Option<usize>, reason: Reason) -> ReadError<'a>
        ensures { result ≡ record { path = path.entry; item = item; position = None; reason = reason } }
    {
        ReadError {
            path,
            item,
            position: None,
            reason,
        }
    }

    pub(crate) fn with_position(&self, position: Marker) -> ReadError<'a>
        ensures { result ≡ record self.now { position = Some position } }
    {
        ReadError {
            position: Some(position),
            ..*self
        }
    }
}

impl<'a> fmt::Display for ReadError<'a> {
    fn fmt<W: fmt::Write>(&self, f: &mut fmt::Formatter<W>) -> fmt::Result {
        if let Some(position) = self.position {
            let line = position.line();
            let column = position.col() + 1;
            write!(f, "line {line}, column {column}: ")?;
        }
        f.write_str("$")?;
        for step in self.path {
            write!(f, "{step}")?;
        }
        if let Some(item) = self.item {
            write!(f, "[{item}]")?;
        }
        write!(f, ": {}", self.reason)
    }
}

impl fmt::Display for Reason {
    fn fmt<W: fmt::Write>(&self, f: &mut fmt::Formatter<W>) -> fmt::Result {
        match self {
            Reason::Missing => f.write_str("missing"),
            Reason::Other { wanted, found } => write!(f, "{found}, where {wanted} is wanted"),
            Reason::OutOfMemory => f.write_str("out of memory"),
        }
    }
}
