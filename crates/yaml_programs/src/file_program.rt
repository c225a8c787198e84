//! Programs that do the same with each of their files.
ghost use Rattle.std.specs.Prelude.{◌≡◌, ℕ, Bool, List, IfOk, IsOk, map, string_bytes};
ghost use Rattle.yaml_programs.specs.Arguments.{asked};
ghost use Rattle.yaml_programs.specs.Done.{IsSetTo, IsDoneWith, AreDone, IsDone, IsTold};
ghost use Rattle.yaml_programs.specs.Reading.{row, setting_view, text_view};

use crate::failure::{Failure, Refusal, Tell};
use crate::files::read_bytes;
use crate::program::{Program, begin};
use crate::words::{Setting, Stop, Words};
use std::alloc::Global;
use std::io;
use std::io::{Read, Write};
use std::rt::Files;

/// A program that does the same with each file, over any files, input and writers. A value of the type is its settings.
pub trait FileProgram: Copy {
    /// What only this program meets.
    type Trouble: Tell + Drop;

    /// The settings without any option.
    const USUAL: Self;

    ghost USUAL: { Self };

    // The names of its options, and what the help calls the word that each takes.
    ghost options: { List (List ℕ × List ℕ) };

    // What an option with its value makes of the settings, and whether it is taken.
    ghost sets: { Self → List ℕ → List ℕ → Bool → Self → Type 0 };

    // What is done of a file at a path that has these bytes.
    ghost works: { Self → List ℕ → List ℕ → Type 0 };

    /// Its name, its options and its help.
    fn program() -> Program
        ensures { map row result.options.now ≡ options };

    /// Takes an option of the table with its value, which is empty if it takes none, and says whether it takes this one.
    fn set(&mut self, name: &str, value: &str) -> bool
        ensures { sets self.old name.now value.now result self.new };

    /// Does its work on a file that has these bytes.
    fn file<'a, O: Write>(
        self,
        alloc: Global,
        path: &'a str,
        bytes: Vec<u8>,
        out: &mut O,
    ) -> Result<(), Failure<'a, Self::Trouble>>
        ensures { IfOk result (λ _. works self path.now bytes.items) };

    /// Runs the program on its arguments and its output, if these could be had, and gives its exit status. An argument
    /// that is not UTF-8 gives the usage; any other failure to get them is refused memory.
    final fn start<R: Files, I: Read, O: Write + Drop, E: Write>(
        rt: &R,
        alloc: Global,
        args: io::Result<Vec<String>>,
        input: &mut I,
        out: io::Result<O>,
        err: &mut E,
    ) -> u8
        ensures { result ≡ 0 → IfOk args (λ a. IsDone sets works USUAL (asked options (map string_bytes a.items))) }
    {
        match begin::<O, Self::Trouble>(args, out) {
            Ok((args, mut out)) => Self::run(rt, alloc, args.as_slice(), input, &mut out, err),
            Err(failure) => Self::program().end(err, &failure),
        }
    }

    /// Runs the program on its arguments (its own name left out), and gives its exit status: 0; or 1, if it failed at a file, with a
    /// line in `err` that says what failed, if the output does not; or 2 with the usage. Each file is tried, unless the output
    /// takes no more.
    final fn run<R: Files, I: Read, O: Write, E: Write>(
        rt: &R,
        alloc: Global,
        args: &[String],
        input: &mut I,
        out: &mut O,
        err: &mut E,
    ) -> u8
        ensures { result ≡ 0 → IsDone sets works USUAL (asked options (map string_bytes args.now)) }
    {
        let status = match Words::read(alloc, Self::program().options, args) {
            Ok(words) => work::<Self, R, I, O, E>(rt, alloc, &words, input, out, err),
            Err(stop) => told::<Self, O>(stop, out),
        };
        match status {
            Ok(status) => status,
            Err(failure) => Self::program().end(err, &failure),
        }
    }
}

// Does the work on each file, and gives the exit status. An `Err` ends the program.
fn work<'a, P: FileProgram, R: Files, I: Read, O: Write, E: Write>(
    rt: &R,
    alloc: Global,
    words: &Words<'a>,
    input: &mut I,
    out: &mut O,
    err: &mut E,
) -> Result<u8, Failure<'a, P::Trouble>>
    ensures { IfOk result (λ status. status ≡ 0 → AreDone P.sets P.works P.USUAL (map setting_view words.now.settings.items) (map text_view words.now.files.items)) }
{
    let program = program_with::<P>(words.settings.as_slice())?;
    let mut status = 0;
    'files: for path in &words.files {
        let outcome = work_on(rt, alloc, program, path, input, out);
        status = status_with::<P, E>(status, outcome, err)?;
    }
    flush(out)?;
    Ok(status)
}

// The status with what came of one more file. A failure is told, or is an `Err` if it ends the program.
fn status_with<'a, P: FileProgram, E: Write>(
    status: u8,
    outcome: Result<(), Failure<'a, P::Trouble>>,
    err: &mut E,
) -> Result<u8, Failure<'a, P::Trouble>>
    ensures { IfOk result (λ new. new ≡ 0 → (status ≡ 0) × IsOk outcome.entry) }
{
    match outcome {
        Ok(()) => Ok(status),
        Err(failure) if failure.is_of_output() => Err(failure),
        Err(failure) => Ok(P::program().end(err, &failure)),
    }
}

// The program with these settings.
fn program_with<'a, P: FileProgram>(settings: &[Setting<'a>]) -> Result<P, Failure<'a, P::Trouble>>
    ensures { IfOk result (IsSetTo P.sets P.USUAL (map setting_view settings.now)) }
{
    let mut program = P::USUAL;
    'settings: for setting in settings {
        if !program.set(setting.name, setting.value) {
            let refusal = Refusal::WrongValue(setting.name);
            return Err(Failure::Refused(setting.value, refusal));
        }
    }
    Ok(program)
}

fn work_on<'a, P: FileProgram, R: Files, I: Read, O: Write>(
    rt: &R,
    alloc: Global,
    program: P,
    path: &'a str,
    input: &mut I,
    out: &mut O,
) -> Result<(), Failure<'a, P::Trouble>>
    ensures { IfOk result (λ _. IsDoneWith P.works program path.now) }
{
    let bytes = read_bytes(rt, alloc, path, input)?;
    program.file(alloc, path, bytes, out)
}

// Prints the help or the version.
fn told<'a, P: FileProgram, O: Write>(
    stop: Stop<'a>,
    out: &mut O,
) -> Result<u8, Failure<'a, P::Trouble>>
    ensures { IfOk result (λ status. (status ≡ 0) × IsTold stop.entry) }
{
    let told = match stop {
        Stop::Help => P::program().write_help(out),
        Stop::Version => P::program().write_version(out),
        Stop::Refused(word, refusal) => return Err(Failure::Refused(word, refusal)),
        Stop::OutOfMemory => return Err(Failure::OutOfMemory),
    };
    match told {
        Ok(()) => {}
        Err(error) => return Err(Failure::of_output(error)),
    }
    flush(out)?;
    Ok(0)
}

fn flush<'a, O: Write, T>(out: &mut O) -> Result<(), Failure<'a, T>> {
    match out.flush() {
        Ok(()) => Ok(()),
        Err(error) => Err(Failure::of_output(error)),
    }
}
