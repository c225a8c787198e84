//! The program over any files, input and writers.
ghost use Rattle.std.specs.Prelude.{◌≡◌, length};
ghost use Rattle.yamlcheck.specs.Checked.{limits_of};

use crate::failure::{Failure, Trouble};
use std::alloc::Global;
use std::io;
use std::io::Write;
use yaml_chars::Marker;
use yaml_encoding::{Stop, YAMLDecodingTrap, text_of};
use yaml_loader::limits::{Limits, LimitsError, load_with_limits};
use yaml_programs::{Bounds, FileProgram, MAX_LEVELS, MAX_SIZE, NO_LIMITS, Program};
use yaml_tokens::Excerpt;

const PROGRAM: Program = Program {
    name: "yamlcheck",
    about: "tells the first fault of each YAML file, with its line",
    usage: "usage: yamlcheck [OPTION]... [FILE]...",
    options: &[MAX_LEVELS, MAX_SIZE, NO_LIMITS],
    notes: "Without a FILE, and for the FILE -, the standard input is read. Options and files
may stand in any order; after -- each word is a FILE. Files are in UTF-8 or UTF-16.

A fault is printed as FILE:LINE:COLUMN: TEXT, and below it its line with a caret.
Lines and columns count from 1, and columns are characters. A file over a limit has
a fault where it goes over it: the limits are for files of strangers, so that none
takes more memory or stack than a file of its length should.

The status is 0 if each file loads, 1 if one does not or cannot be read, and 2 if the
arguments are not taken.
",
};

const USUAL: YamlCheck = YamlCheck {
    bounds: Bounds::USUAL,
};

/// The program, with its settings.
#[derive(Clone, Copy)]
pub struct YamlCheck {
    bounds: Bounds,
}

impl FileProgram for YamlCheck {
    ghost use Rattle.yaml_programs.specs.Bounds.{IsBoundSet, limit_options};
    ghost use Rattle.yamlcheck.specs.Checked.{IsChecked};
    ghost use Rattle.yamlcheck.specs.declared.run.TheConstants as constants;

    type Trouble = Trouble;

    const USUAL: YamlCheck = USUAL;

    ghost USUAL = { constants.USUAL };

    ghost options = { limit_options };

    ghost sets = { λ p name value is_taken q. IsBoundSet p.bounds name value is_taken q.bounds };

    ghost works = { IsChecked };

    fn program() -> Program {
        PROGRAM
    }

    fn set(&mut self, name: &str, value: &str) -> bool {
        self.bounds.set(name, value)
    }

    fn file<'a, O: Write>(
        self,
        alloc: Global,
        path: &'a str,
        bytes: Vec<u8>,
        out: &mut O,
    ) -> Result<(), Failure<'a>> {
        let text = match text_of(alloc, bytes.as_slice(), YAMLDecodingTrap::Strict) {
            Ok(text) => text,
            Err(Stop::Message(message)) => return Err(Failure::Other(
                path,
                Trouble::NoText(message),
            )),
            Err(Stop::OutOfMemory) => return Err(Failure::OutOfMemory),
        };
        let text = text.as_str();
        match load_with_limits(alloc, text, limits(self.bounds, text)) {
            Ok(_) => Ok(()),
            Err(error) => Err(tell_error(out, path, text, &error)),
        }
    }
}

fn limits(bounds: Bounds, text: &str) -> Limits
    ensures { result ≡ limits_of bounds (length text.now) }
{
    let usual = Limits::for_text(text);
    Limits {
        levels: bounds.levels(usual.levels),
        size: bounds.size(usual.size),
    }
}

fn tell_error<'a, O: Write>(
    out: &mut O,
    path: &str,
    text: &str,
    error: &LimitsError,
) -> Failure<'a> {
    let told = match error {
        LimitsError::Scan(fault) => {
            if fault.is_out_of_memory() {
                return Failure::OutOfMemory;
            }
            tell(out, path, text, *fault.marker(), fault.info())
        }
        LimitsError::Levels(mark) => tell(out, path, text, *mark, "too many levels"),
        LimitsError::Size(mark) => tell(out, path, text, *mark, "too large"),
    };
    match told {
        Ok(()) => Failure::Told,
        Err(error) => Failure::of_output(error),
    }
}

// A line for editors, with the column counted from 1, and the excerpt.
fn tell<O: Write>(out: &mut O, path: &str, text: &str, mark: Marker, what: &str) -> io::Result<()> {
    let line = mark.line();
    let column = mark.col() + 1;
    let excerpt = Excerpt::at(text, mark);
    writeln!(out, "{path}:{line}:{column}: {what}\n{excerpt}")
}
