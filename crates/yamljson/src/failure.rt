use crate::place::Place;
use std::io;
use std::io::Write;
use yaml_chars::Marker;
use yaml_json::NoJson;
use yaml_loader::limits::LimitsError;
use yaml_programs::Tell;

/// What only this program meets.
#[derive(Drop)]
pub enum Trouble {
    /// The decoder's message for bytes that are no text.
    NoText(String),
    /// The fault of the file's text, or a limit that it goes over.
    Fault(LimitsError),
    /// A node of the document with this number, counted from 1, and where it stands.
    NoJson(usize, NoJson, Place),
}

pub type Failure<'a> = yaml_programs::Failure<'a, Trouble>;

impl Tell for Trouble {
    fn tell<W: Write>(&self, path: &str, err: &mut W) -> io::Result<()> {
        match self {
            Trouble::NoText(message) => writeln!(err, "yamljson: {path}: {message}"),
            Trouble::Fault(LimitsError::Scan(fault)) => {
                tell_at(err, path, *fault.marker(), fault.info())
            }
            Trouble::Fault(LimitsError::Levels(mark)) => {
                tell_at(err, path, *mark, "too many levels")
            }
            Trouble::Fault(LimitsError::Size(mark)) => tell_at(err, path, *mark, "too large"),
            Trouble::NoJson(number, node, place) => {
                let Place { line, column, key } = place;
                write!(err, "{path}:{line}:{column}: document {number}: {node}")?;
                match key {
                    Some(key) => writeln!(err, ": {key}"),
                    None => writeln!(err),
                }
            }
        }
    }
}

// A line for editors, with the column counted from 1.
fn tell_at<W: Write>(err: &mut W, path: &str, mark: Marker, what: &str) -> io::Result<()> {
    let line = mark.line();
    let column = mark.col() + 1;
    writeln!(err, "{path}:{line}:{column}: {what}")
}
