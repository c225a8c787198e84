//! A validator of settings: it says what is wrong with the port, and in which line and column.

ghost use Rattle.std.specs.Prelude.{◌≡◌, chars};
ghost use Rattle.uses.specs.Ports.{Judges, JudgesText, number_of_port};
ghost use Rattle.yaml_loader.specs.MarkedNode.{tree_of, marks_of};
ghost use Rattle.yaml_rust2.specs.Text.{up_to_nul};

use std::alloc::Global;
use thiserror::Error;
use yaml_loader::marked::{Marked, load_marked};
use yaml_rust2::ScanError;

#[cfg(test)]
mod tests;

/// Why settings are not valid.
#[derive(Debug, Drop, Error)]
pub enum Invalid {
    /// The text has a fault, or memory was refused.
    #[error(transparent)]
    Scan(ScanError),
    /// There is no port.
    #[error("there is no port")]
    NoPort,
    /// What stands at `port` is not the number of a port. It begins in this line and this column, both counted from 1.
    #[error("line {0}, column {1}: port must be from 1 to 65535")]
    Port(usize, usize),
}

/// The port of the settings in a text's first document.
pub fn port_of_text(alloc: Global, text: &str) -> Result<i64, Invalid>
    ensures { JudgesText (up_to_nul (chars text.now)) result }
{
    let documents = match load_marked(alloc, text) {
        Ok(documents) => documents,
        Err(fault) => return Err(Invalid::Scan(fault)),
    };
    match documents.first() {
        Some(settings) => port(settings),
        None => Err(Invalid::NoPort),
    }
}

/// The port of these settings.
pub fn port(settings: Marked<'_>) -> Result<i64, Invalid>
    ensures { Judges (tree_of settings.entry) (marks_of settings.entry) result }
{
    let Some(node) = settings.get_key("port") else {
        return Err(Invalid::NoPort);
    };
    if let Some(number) = number_of_port(node) {
        return Ok(number);
    }
    let place = node.marker();
    Err(Invalid::Port(place.line(), place.col() + 1))
}

// The number of a node, if it is that of a port.
fn number_of_port(node: Marked<'_>) -> Option<i64>
    ensures { result ≡ number_of_port (tree_of node.entry) }
{
    let number = node.as_i64()?;
    if number >= 1 && number <= 65535 {
        Some(number)
    } else {
        None
    }
}
