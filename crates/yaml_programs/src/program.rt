//! A program's help, its failures and its exit status.
ghost use Rattle.std.specs.Prelude.{◌≡◌, MatchResult};
ghost use Rattle.yaml_programs.specs.Failing.{status_of, IsNotBegun};

use crate::failure::{Failure, Tell};
use crate::option::ProgramOption;
use std::alloc::{Alloc, Global};
use std::env::Env;
use std::io::Write;
use std::{env, io};

/// The version of the programs, which is that of the library.
pub const VERSION: &str = "0.1.0";

// The options of every program.
const OF_ALL: &[ProgramOption] = &[
    ProgramOption {
        name: "-h, --help",
        takes: "",
        help: "print this help",
    },
    ProgramOption {
        name: "--version",
        takes: "",
        help: "print the name and the version",
    },
];

// As wide as the column of the options in a help.
const BLANKS: &[u8] = b"                ";

/// A program's name, how it is called, and what its help says.
#[derive(Clone, Copy)]
pub struct Program {
    /// Its name, before each line that it prints on the standard error.
    pub name: &'static str,
    /// What it does, in one line.
    pub about: &'static str,
    /// The line of its usage.
    pub usage: &'static str,
    /// Its options, but for those that every program has.
    pub options: &'static [ProgramOption],
    /// The last lines of its help.
    pub notes: &'static str,
}

/// The arguments, without the program's own name.
pub fn arguments<R: Env + Alloc<A = Global>>(rt: &R) -> io::Result<Vec<String>> {
    let mut args = Vec::new(rt.alloc());
    for arg in env::args(rt)?.skip(1) {
        args.push(arg)?;
    }
    Ok(args)
}

/// The arguments and the output, if both could be had. An argument that is not UTF-8 gives the usage; any other
/// failure to get them is refused memory.
pub fn begin<'a, O: Drop, T>(
    args: io::Result<Vec<String>>,
    out: io::Result<O>,
) -> Result<(Vec<String>, O), Failure<'a, T>>
    ensures { MatchResult result (λ x. (args ≡ Ok x.0) × (out ≡ Ok x.1)) (IsNotBegun args out) }
{
    let args = match args {
        Ok(args) => args,
        Err(error) => {
            return Err(match error.kind() {
                io::ErrorKind::InvalidData => Failure::Usage,
                _ => Failure::OutOfMemory,
            });
        }
    };
    match out {
        Ok(out) => Ok((args, out)),
        Err(_) => Err(Failure::OutOfMemory),
    }
}

impl Program {
    /// Prints the help: what the program does, its usage, its options, a line each, and its notes.
    pub fn write_help<W: Write>(self, out: &mut W) -> io::Result<()> {
        let Program {
            name,
            about,
            usage,
            ..
        } = self;
        write!(out, "{name}: {about}\n\n{usage}\n\noptions:\n")?;
        write_options(out, self.options)?;
        write_options(out, OF_ALL)?;
        write!(out, "\n{}", self.notes)
    }

    /// Prints the name and the version.
    pub fn write_version<W: Write>(self, out: &mut W) -> io::Result<()> {
        let name = self.name;
        writeln!(out, "{name} {VERSION}")
    }

    /// Says in `err` what failed, and gives the exit status: 2 if the program does not take its arguments, with the usage, else
    /// 1. If the error stream takes nothing, only the status says it.
    pub fn end<E: Write, T: Tell>(self, err: &mut E, failure: &Failure<'_, T>) -> u8
        ensures { result ≡ status_of failure.now }
    {
        let _ = self.tell(err, failure);
        match failure {
            Failure::Usage | Failure::Refused(..) => 2,
            _ => 1,
        }
    }

    fn tell<E: Write, T: Tell>(self, err: &mut E, failure: &Failure<'_, T>) -> io::Result<()> {
        let Program { name, usage, .. } = self;
        match failure {
            Failure::Usage => writeln!(err, "{usage}"),
            Failure::Refused(word, refusal) => {
                writeln!(err, "{name}: {word}: {refusal}\n{usage}")
            }
            Failure::CannotRead(path, Some(error)) => write_unread(err, name, path, error),
            Failure::CannotRead(path, None) => writeln!(err, "{name}: cannot read {path}"),
            Failure::NotUtf8(path) => writeln!(err, "{name}: {path} is not UTF-8"),
            Failure::CannotWrite => writeln!(err, "{name}: cannot write"),
            Failure::OutOfMemory => writeln!(err, "{name}: out of memory"),
            Failure::ClosedPipe | Failure::Told => Ok(()),
            Failure::Other(path, other) => other.tell(path, err),
        }
    }
}

// A line that says that a file cannot be read, and why.
fn write_unread<W: Write>(
    err: &mut W,
    name: &str,
    path: &str,
    error: &io::Error,
) -> io::Result<()> {
    let usual = match error.kind() {
        io::ErrorKind::NotFound => "there is no such file",
        io::ErrorKind::IsADirectory => "it is a directory",
        io::ErrorKind::PermissionDenied => "it is not permitted",
        _ => return writeln!(err, "{name}: cannot read {path}: {error}"),
    };
    writeln!(err, "{name}: cannot read {path}: {usual}")
}

// A line for each option.
fn write_options<W: Write>(out: &mut W, options: &[ProgramOption]) -> io::Result<()> {
    for option in options {
        write_option(out, *option)?;
    }
    Ok(())
}

fn write_option<W: Write>(out: &mut W, option: ProgramOption) -> io::Result<()> {
    let ProgramOption { name, takes, help } = option;
    let width = name.len().saturating_add(takes.len());
    let blanks = BLANKS.len().saturating_sub(width);
    write!(out, "  {name} {takes}")?;
    out.write_all(&BLANKS[..blanks])?;
    writeln!(out, "{help}")
}
