//! Why a program ends with a status other than 0.
ghost use Rattle.std.specs.Prelude.{◌≡◌};
ghost use Rattle.std.specs.IoError.{error_kind};
ghost use Rattle.yaml_programs.specs.Failing.{IsOfOutput, IsOfInput};

use std::alloc::AllocError;
use std::io::{ErrorKind, Write};
use std::{fmt, io};

/// Why a program ends with a status other than 0, with the path of the file that it is about. `T` is what no other
/// program meets.
#[derive(Drop)]
pub enum Failure<'a, T> {
    /// The program does not take these arguments.
    Usage,
    /// The program does not take this word of the arguments.
    Refused(&'a str, Refusal),
    /// The file cannot be opened or read, with the reason if it is to be told.
    CannotRead(&'a str, Option<io::Error>),
    /// The file's bytes are not UTF-8.
    NotUtf8(&'a str),
    /// Nobody reads the output any more.
    ClosedPipe,
    /// The output takes no more.
    CannotWrite,
    /// Memory was refused.
    OutOfMemory,
    /// What was wrong is told in the output.
    Told,
    /// What only this program meets in the file.
    Other(&'a str, T),
}

/// Why a word of the arguments is not taken.
#[derive(Clone, Copy)]
pub enum Refusal {
    /// No option of the program has this name.
    NoSuchOption,
    /// A value is given to an option that takes none.
    TakesNone,
    /// No value is given to an option that takes one.
    TakesOne,
    /// The option of this name takes no such value.
    WrongValue(&'static str),
}

/// A failure that only one program meets.
pub trait Tell {
    /// Says what failed with the file at this path, in one line.
    fn tell<W: Write>(&self, path: &str, err: &mut W) -> io::Result<()>;
}

impl<'a, T> Failure<'a, T> {
    /// Why the output took no more.
    pub fn of_output(error: io::Error) -> Failure<'a, T>
        ensures { IsOfOutput result (error_kind error) }
    {
        match error.kind() {
            ErrorKind::BrokenPipe => Failure::ClosedPipe,
            _ => Failure::CannotWrite,
        }
    }

    /// Whether the output takes no more.
    pub(crate) fn is_of_output(&self) -> bool {
        matches!(self, Failure::ClosedPipe | Failure::CannotWrite)
    }

    /// Why the file at this path was not read.
    pub(crate) fn of_input(error: io::Error, path: &'a str) -> Failure<'a, T>
        ensures { IsOfInput result (error_kind error) }
    {
        match error.kind() {
            ErrorKind::OutOfMemory => Failure::OutOfMemory,
            _ => Failure::CannotRead(path, Some(error)),
        }
    }
}

impl<'a, T> From<AllocError> for Failure<'a, T> {
    fn from(_: AllocError) -> Failure<'a, T> {
        Failure::OutOfMemory
    }
}

impl fmt::Display for Refusal {
    fn fmt<W: fmt::Write>(&self, f: &mut fmt::Formatter<W>) -> fmt::Result {
        match self {
            Refusal::NoSuchOption => f.write_str("no such option"),
            Refusal::TakesNone => f.write_str("this option takes no value"),
            Refusal::TakesOne => f.write_str("this option takes a value"),
            Refusal::WrongValue(name) => write!(f, "no value of {name}"),
        }
    }
}
