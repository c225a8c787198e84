//! The bytes and the texts of files.
ghost use Rattle.std.specs.Prelude.{IfErr};
ghost use Rattle.yaml_programs.specs.Failing.{IsUntold};
ghost use Rattle.yaml_programs.specs.Marked.{IsUnmarked};

use crate::failure::Failure;
use std::alloc::Global;
use std::fs::OpenOptions;
use std::io::Read;
use std::rt::Files;

/// The word that stands for the standard input.
pub const STANDARD_INPUT: &str = "-";

// The name by which the system opens it as a file.
const STANDARD_INPUT_FILE: &str = "/dev/stdin";

/// The bytes of a file; `-` is the standard input, opened as a file. Of a file that cannot be read no reason is told.
pub fn read<'a, R: Files, T>(
    rt: &R,
    alloc: Global,
    path: &'a str,
) -> Result<Vec<u8>, Failure<'a, T>>
    ensures { IfErr result IsUntold }
{
    let file = if path == STANDARD_INPUT {
        STANDARD_INPUT_FILE
    } else {
        path
    };
    match read_file::<R, T>(rt, alloc, file, path) {
        Ok(bytes) => Ok(bytes),
        Err(Failure::CannotRead(path, _)) => Err(Failure::CannotRead(path, None)),
        Err(failure) => Err(failure),
    }
}

/// The bytes of a file; `-` is the standard input.
pub(crate) fn read_bytes<'a, R: Files, I: Read, T>(
    rt: &R,
    alloc: Global,
    path: &'a str,
    input: &mut I,
) -> Result<Vec<u8>, Failure<'a, T>> {
    if path == STANDARD_INPUT {
        read_input(alloc, input, path)
    } else {
        read_file(rt, alloc, path, path)
    }
}

// The bytes of a file that failures call so.
fn read_file<'a, R: Files, T>(
    rt: &R,
    alloc: Global,
    file: &str,
    name: &'a str,
) -> Result<Vec<u8>, Failure<'a, T>> {
    match OpenOptions::new().read(true).open(rt, file) {
        Ok(mut file) => read_input(alloc, &mut file, name),
        Err(error) => Err(Failure::of_input(error, name)),
    }
}

// The bytes of an input that failures call so.
fn read_input<'a, I: Read, T>(
    alloc: Global,
    input: &mut I,
    name: &'a str,
) -> Result<Vec<u8>, Failure<'a, T>> {
    let mut bytes = Vec::new(alloc);
    match input.read_to_end(&mut bytes) {
        Ok(_) => Ok(bytes),
        Err(error) => Err(Failure::of_input(error, name)),
    }
}

/// A text without a byte order mark at its start.
pub fn without_byte_order_mark(text: &str) -> &str
    ensures { IsUnmarked text.now result.now }
{
    match text.strip_prefix('\u{FEFF}') {
        Some(rest) => rest,
        None => text,
    }
}
