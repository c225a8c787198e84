//! The program over any files and writers.
use crate::command::{Command, OPTIONS, Request, Settings, request_of};
use crate::failure::{Failure, Trouble};
use crate::text::{load, text_of_file};
use overlay::overlay;
use std::alloc::Global;
use std::io;
use std::io::Write;
use std::rt::Files;
use yaml_emitter::YamlEmitter;
use yaml_loader::limits::LimitsError;
use yaml_parser::{Event, Parser};
use yaml_programs::{Program, begin, without_byte_order_mark, write_event};
use yaml_tree::Yaml;

const PROGRAM: Program = Program {
    name: "yamltool",
    about: "prints the events of a YAML file, writes its documents anew, or lays files over each other",
    usage: "usage: yamltool events FILE | dump [--spread] [--multiline] FILE | overlay A B",
    options: OPTIONS,
    notes: "events   prints a line for each event: its name, LINE:COLUMN, and what else it has.
         Lines count from 1, but columns from 0, in characters.
dump     loads FILE and writes its documents anew.
overlay  writes B's one document, laid over A's.

Files are in UTF-8, or with a byte order mark in UTF-16; the FILE - is the standard input.
Behind a command each word is an option of it or a file, as its line above has them, and
options stand before the file. -h, --help and --version are the first word.

dump and overlay refuse files of more than 256 levels or that make more than 3 nodes and
bytes in them for each byte and 100000: the limits are for files of strangers, so that
none takes more memory or stack than a file of its length should. With --no-limits before
the command there are none. events makes nothing of a file, and has none.

The status is 0, or 1 with one line that says what failed, or 2 with the usage if the
arguments are not taken. In the line of a fault the column counts from 1, and what is
called a byte is a character.
",
};

/// The program.
pub struct YamlTool;

impl YamlTool {
    /// Runs the program on its arguments and its output, if these could be had, and gives its exit status. An argument
    /// that is not UTF-8 gives the usage; any other failure to get them is refused memory.
    pub fn start<R: Files, O: Write + Drop, E: Write>(
        rt: &R,
        alloc: Global,
        args: io::Result<Vec<String>>,
        out: io::Result<O>,
        err: &mut E,
    ) -> u8 {
        match begin::<O, Trouble>(args, out) {
            Ok((args, mut out)) => YamlTool::run(rt, alloc, args.as_slice(), &mut out, err),
            Err(failure) => PROGRAM.end(err, &failure),
        }
    }

    /// Runs the program on its arguments (its own name left out), and gives its exit status: 0, or 1
    /// with a line in `err` that says what failed, or 2 with the usage.
    pub fn run<R: Files, O: Write, E: Write>(
        rt: &R,
        alloc: Global,
        args: &[String],
        out: &mut O,
        err: &mut E,
    ) -> u8 {
        let printed = print(rt, alloc, args, out);
        match flushed(out, printed) {
            Ok(()) => 0,
            Err(failure) => PROGRAM.end(err, &failure),
        }
    }
}

// Prints what the arguments ask for.
fn print<'a, R: Files, O: Write>(
    rt: &R,
    alloc: Global,
    args: &'a [String],
    out: &mut O,
) -> Result<(), Failure<'a>> {
    let Some(
        Request {
            is_limited,
            command,
        },
    ) = request_of(args)
    else {
        return Err(Failure::Usage);
    };
    match command {
        Command::Events(path) => print_events(rt, alloc, path, out),
        Command::Dump(settings, path) => print_dumps(rt, alloc, is_limited, path, settings, out),
        Command::Overlay(left, right) => print_overlay(rt, alloc, is_limited, left, right, out),
        Command::Help => written(PROGRAM.write_help(out)),
        Command::Version => written(PROGRAM.write_version(out)),
    }
}

// What was printed before a fault is shown. Before the usage there is nothing.
fn flushed<'a, O: Write>(out: &mut O, printed: Result<(), Failure<'a>>) -> Result<(), Failure<'a>> {
    match printed {
        Err(Failure::Usage) => Err(Failure::Usage),
        printed => {
            written(out.flush())?;
            printed
        }
    }
}

fn print_events<'a, R: Files, O: Write>(
    rt: &R,
    alloc: Global,
    path: &'a str,
    out: &mut O,
) -> Result<(), Failure<'a>> {
    let text = text_of_file(rt, alloc, path)?;
    let mut parser = Parser::new_from_str(alloc, without_byte_order_mark(text.as_str()));
    'events: loop {
        let (event, mark) = match parser.next_token() {
            Ok(next) => next,
            Err(fault) => {
                return Err(Failure::Other(path, Trouble::Fault(LimitsError::Scan(fault))));
            }
        };
        written(write_event(out, &event, mark))?;
        if let Event::StreamEnd = event {
            return Ok(());
        }
    }
}

// Every document's dump and a line feed. They are all made before the first is printed.
fn print_dumps<'a, R: Files, O: Write>(
    rt: &R,
    alloc: Global,
    is_limited: bool,
    path: &'a str,
    settings: Settings,
    out: &mut O,
) -> Result<(), Failure<'a>> {
    let documents = load(rt, alloc, is_limited, path)?;
    let mut dumps = String::new(alloc);
    for document in &documents {
        dump(&mut dumps, document, settings)?;
    }
    print_text(out, dumps.as_str())
}

// The dump of the right file's document, laid over the left's.
fn print_overlay<'a, R: Files, O: Write>(
    rt: &R,
    alloc: Global,
    is_limited: bool,
    left: &'a str,
    right: &'a str,
    out: &mut O,
) -> Result<(), Failure<'a>> {
    let left = one_document(rt, alloc, is_limited, left)?;
    let right = one_document(rt, alloc, is_limited, right)?;
    let laid = overlay(alloc, &left, &right)?;
    let mut text = String::new(alloc);
    dump(&mut text, &laid, Settings::COMPACT)?;
    print_text(out, text.as_str())
}

fn one_document<'a, R: Files>(
    rt: &R,
    alloc: Global,
    is_limited: bool,
    path: &'a str,
) -> Result<Yaml, Failure<'a>> {
    let mut documents = load(rt, alloc, is_limited, path)?;
    let count = documents.len();
    match documents.pop() {
        Some(document) if count == 1 => Ok(document),
        _ => Err(Failure::Other(path, Trouble::Documents(count))),
    }
}

fn print_text<'a, O: Write>(out: &mut O, text: &str) -> Result<(), Failure<'a>> {
    written(out.write_all(text.as_bytes()))
}

// Every output that takes no more is told, a closed pipe too.
fn written<'a>(outcome: io::Result<()>) -> Result<(), Failure<'a>> {
    match outcome {
        Ok(()) => Ok(()),
        Err(_) => Err(Failure::CannotWrite),
    }
}

// A document's dump and a line feed.
fn dump<'a>(out: &mut String, document: &Yaml, settings: Settings) -> Result<(), Failure<'a>> {
    let mut emitter = YamlEmitter::new(out);
    emitter.compact(!settings.spread);
    emitter.multiline_strings(settings.multiline);
    if emitter.dump(document).is_err() {
        return Err(Failure::OutOfMemory);
    }
    out.push_str("\n")?;
    Ok(())
}
