//! The program over any files, input and writers.
ghost use Rattle.std.specs.Prelude.{◌≡◌, length, IfOk};
ghost use Rattle.defs_layout.specs.HasJson.{HasJson};
ghost use Rattle.yaml_tree.specs.View.{view};
ghost use Rattle.yamljson.specs.Printed.{IsText, IsLoaded, HaveJson, IsPrinted, limits_of};

use crate::failure::{Failure, Trouble};
use crate::place::place_of;
use std::alloc::Global;
use std::io::Write;
use yaml_encoding::{Stop, YAMLDecodingTrap, text_of};
use yaml_json::{JsonError, NoJson, write_json, write_json_indented};
use yaml_loader::limits::{Limits, LimitsError, load_with_limits};
use yaml_programs::{Bounds, FileProgram, MAX_LEVELS, MAX_SIZE, NO_LIMITS, Program, ProgramOption};
use yaml_tree::Yaml;

/// The spaces of a level.
const WIDTH: usize = 2;

const INDENT: ProgramOption = ProgramOption {
    name: "--indent",
    takes: "",
    help: "each item and each member on a line of its own, two spaces a level",
};

const PROGRAM: Program = Program {
    name: "yamljson",
    about: "prints the documents of YAML files as JSON, each on a line",
    usage: "usage: yamljson [OPTION]... [FILE]...",
    options: &[INDENT, MAX_LEVELS, MAX_SIZE, NO_LIMITS],
    notes: "Without a FILE, and for the FILE -, the standard input is read. Options and files
may stand in any order; after -- each word is a FILE. Files are in UTF-8 or UTF-16.

A fault is told as FILE:LINE:COLUMN: TEXT; lines and columns count from 1, and columns
are characters. Then nothing of this file is printed. A document has no JSON text if a
key is no string, or a number is .inf, .nan or another that JSON cannot write. A file
over a limit has a fault where it goes over it: the limits are for files of strangers,
so that none takes more memory or stack than a file of its length should.

The status is 0 if each file is printed, 1 if one is not, and 2 if the arguments are
not taken.
",
};

const USUAL: YamlJson = YamlJson {
    is_indented: false,
    bounds: Bounds::USUAL,
};

/// The program, with its settings.
#[derive(Clone, Copy)]
pub struct YamlJson {
    is_indented: bool,
    bounds: Bounds,
}

impl FileProgram for YamlJson {
    ghost use Rattle.std.specs.Prelude.{[], ◌∷◌, codes};
    ghost use Rattle.yaml_programs.specs.Bounds.{limit_options};
    ghost use Rattle.yamljson.specs.Printed.{IsPrinted};
    ghost use Rattle.yamljson.specs.Settings.{IsSet};
    ghost use Rattle.yamljson.specs.declared.run.TheConstants as constants;

    type Trouble = Trouble;

    const USUAL: YamlJson = USUAL;

    ghost USUAL = { constants.USUAL };

    ghost options = { (codes "--indent", []) ∷ limit_options };

    ghost sets = { IsSet };

    ghost works = { IsPrinted };

    fn program() -> Program {
        PROGRAM
    }

    fn set(&mut self, name: &str, value: &str) -> bool {
        if name == INDENT.name {
            self.is_indented = true;
            return true;
        }
        self.bounds.set(name, value)
    }

    fn file<'a, O: Write>(
        self,
        alloc: Global,
        path: &'a str,
        bytes: Vec<u8>,
        out: &mut O,
    ) -> Result<(), Failure<'a>> {
        let lines = lines_of(alloc, self, path, bytes)?;
        match out.write_all(lines.as_str().as_bytes()) {
            Ok(()) => Ok(()),
            Err(error) => Err(Failure::of_output(error)),
        }
    }
}

// The JSON text of each document of a file and a line feed behind it. All are made before the first is printed.
fn lines_of<'a>(
    alloc: Global,
    program: YamlJson,
    path: &'a str,
    bytes: Vec<u8>,
) -> Result<String, Failure<'a>>
    ensures { IfOk result (λ _. IsPrinted program path.now bytes.items) }
{
    let text = decoded(alloc, path, bytes)?;
    let text = text.as_str();
    let documents = load(alloc, program.bounds, path, text)?;
    let lines = write_lines(alloc, program, path, text, documents.as_slice())?;
    Ok(lines)
}

fn write_lines<'a>(
    alloc: Global,
    program: YamlJson,
    path: &'a str,
    text: &str,
    documents: &[Yaml],
) -> Result<String, Failure<'a>>
    ensures { IfOk result (λ _. HaveJson documents.now) }
{
    let mut lines = String::new(alloc);
    'documents: for (index, document) in documents.iter().enumerate() {
        match write_line(alloc, document, program.is_indented, &mut lines) {
            Ok(()) => {}
            Err(JsonError::NoJson(node)) => return Err(unwritten(alloc, path, text, index, node)),
            Err(_) => return Err(Failure::OutOfMemory),
        }
        lines.push_str("\n")?;
    }
    Ok(lines)
}

fn decoded<'a>(alloc: Global, path: &'a str, bytes: Vec<u8>) -> Result<String, Failure<'a>>
    ensures { IfOk result (IsText bytes.items) }
{
    match text_of(alloc, bytes.as_slice(), YAMLDecodingTrap::Strict) {
        Ok(text) => Ok(text),
        Err(Stop::Message(message)) => Err(Failure::Other(path, Trouble::NoText(message))),
        Err(Stop::OutOfMemory) => Err(Failure::OutOfMemory),
    }
}

fn load<'a>(
    alloc: Global,
    bounds: Bounds,
    path: &'a str,
    text: &str,
) -> Result<Vec<Yaml>, Failure<'a>>
    ensures { IfOk result (IsLoaded bounds text.now) }
{
    match load_with_limits(alloc, text, limits(bounds, text)) {
        Ok(documents) => Ok(documents),
        Err(error) => Err(failure_of(path, error)),
    }
}

fn limits(bounds: Bounds, text: &str) -> Limits
    ensures { result ≡ limits_of bounds (length text.now) }
{
    let usual = Limits::for_text(text);
    Limits {
        levels: bounds.levels(usual.levels),
        size: bounds.size(usual.size),
    }
}

fn failure_of<'a>(path: &'a str, error: LimitsError) -> Failure<'a> {
    match &error {
        LimitsError::Scan(fault) if fault.is_out_of_memory() => Failure::OutOfMemory,
        _ => Failure::Other(path, Trouble::Fault(error)),
    }
}

fn write_line(
    alloc: Global,
    document: &Yaml,
    is_indented: bool,
    lines: &mut String,
) -> Result<(), JsonError>
    ensures { IfOk result (λ _. HasJson (view document.now)) }
{
    if is_indented {
        write_json_indented(alloc, document, WIDTH, lines)
    } else {
        write_json(alloc, document, lines)
    }
}

// Where in the text the node stands that has no JSON text.
fn unwritten<'a>(
    alloc: Global,
    path: &'a str,
    text: &str,
    document: usize,
    node: NoJson,
) -> Failure<'a> {
    match place_of(alloc, text, document, &node) {
        Ok(place) => Failure::Other(
            path,
            Trouble::NoJson(document.saturating_add(1), node, place),
        ),
        Err(_) => Failure::OutOfMemory,
    }
}
