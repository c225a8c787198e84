//! A linter over events: it notes what a reader may take for something else, each with its line and column. No tree is made.
use std::alloc::{AllocError, Global};
use yaml_rust2::ScanError;
use yaml_rust2::parser::{Event, MarkedEventReceiver, Parser};
use yaml_rust2::scanner::{Marker, TScalarStyle};

#[cfg(test)]
mod tests;

// The notes so far.
#[derive(Drop)]
struct Linter {
    alloc: Global,
    notes: Vec<String>,
}

impl Linter {
    fn note(&mut self, mark: Marker, what: &str) -> Result<(), AllocError> {
        let (line, column) = (mark.line(), mark.col() + 1);
        let note = format!(in self.alloc; "line {line}, column {column}: {what}")?;
        self.notes.push(note).map_err(|_| AllocError)
    }
}

impl MarkedEventReceiver for Linter {
    fn on_event(&mut self, event: Event, mark: Marker) -> Result<(), ScanError> {
        let what = match &event {
            Event::Scalar(text, TScalarStyle::Plain, _, None) if is_old_boolean(text.as_str()) => {
                "this is a string, not a truth value"
            }
            Event::Scalar(text, TScalarStyle::Plain, _, None) if is_empty(text.as_str()) => {
                "nothing is written here, which is null"
            }
            Event::Alias(_) => "this is loaded as a copy",
            _ => return Ok(()),
        };
        self.note(mark, what).map_err(|_| ScanError::memory(mark))
    }
}

fn is_empty(text: &str) -> bool {
    text.is_empty()
}

// Whether YAML 1.1 read the text as a truth value, which YAML 1.2 does not.
fn is_old_boolean(text: &str) -> bool {
    matches!(
        text,
        "yes" | "Yes" | "YES" | "no" | "No" | "NO" | "on" | "On" | "ON" | "off" | "Off" | "OFF"
    )
}

/// What is noted of all documents of a text, in its order; or its first fault.
pub fn lint(alloc: Global, text: &str) -> Result<Vec<String>, ScanError> {
    let mut linter = Linter {
        alloc,
        notes: Vec::new(alloc),
    };
    Parser::new_from_str(alloc, text).load(&mut linter, true)?;
    Ok(linter.notes)
}
