//! Why a tree was not merged.
use std::fmt;
use thiserror::Error;
use yaml_json::Step;

/// Why a tree was not merged.
#[derive(Debug, Drop, Error)]
pub enum MergeError {
    /// A node is to be merged and is no mapping.
    #[error("{0}")]
    NotAMapping(NotAMapping),
    /// Memory was refused.
    #[error("out of memory")]
    OutOfMemory,
}

/// The first node of a tree that is to be merged and is no mapping, in the order of the text: the value of a merge key that
/// is neither a mapping nor a sequence, or an item of such a sequence. It is shown by its path:
/// `$["server"]["<<"][1]: only a mapping can be merged`.
#[derive(Debug, Drop)]
pub struct NotAMapping {
    /// The steps to the node from the root. The value of a key that is no string is named by the pair's place, counted
    /// from 0.
    pub path: Vec<Step>,
}

impl fmt::Display for NotAMapping {
    fn fmt<W: fmt::Write>(&self, f: &mut fmt::Formatter<W>) -> fmt::Result {
        f.write_str("$")?;
        for step in &self.path {
            write!(f, "{step}")?;
        }
        f.write_str(": only a mapping can be merged")
    }
}
