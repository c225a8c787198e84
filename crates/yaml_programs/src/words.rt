//! The words of the arguments: options of a table, what these take, and files.
ghost use Rattle.std.specs.Prelude.{◌≡◌, List, [], ◌∷◌, ◌++◌, map, MatchResult, string_bytes};
ghost use Rattle.std.specs.List.{before_first, after_first, position};
ghost use Rattle.yaml_programs.specs.Arguments.{Text, word_of, option_word, reads, or_standard_input, ends_options, asked};
ghost use Rattle.yaml_programs.specs.declared.words.Stop.TheVariants.{OutOfMemory};
ghost use Rattle.yaml_programs.specs.Reading.{row, IsWord, setting_view, text_view, left, StopsAt};

use crate::failure::Refusal;
use crate::files::STANDARD_INPUT;
use crate::option::{ProgramOption, option_of};
use std::alloc::Global;

/// Why no file is read.
#[derive(Clone, Copy)]
pub(crate) enum Stop<'a> {
    /// The help is asked for.
    Help,
    /// The version is asked for.
    Version,
    /// This word is not taken.
    Refused(&'a str, Refusal),
    /// Memory was refused.
    OutOfMemory,
}

/// An option that stands in the arguments.
#[derive(Clone, Copy)]
pub(crate) struct Setting<'a> {
    /// Its name.
    pub(crate) name: &'static str,
    /// What it takes; empty if it takes nothing.
    pub(crate) value: &'a str,
}

/// What the words ask for.
#[derive(Drop)]
pub(crate) struct Words<'a> {
    /// The options, in their order.
    pub(crate) settings: Vec<Setting<'a>>,
    /// The paths of the files; `-` is the standard input.
    pub(crate) files: Vec<&'a str>,
    // The option that takes the next word.
    awaits: Option<&'static str>,
}

// What a word is that no option takes.
#[derive(Clone, Copy)]
enum Word<'a> {
    File,
    Sets(Setting<'a>),
    Awaits(&'static str),
    Stops(Stop<'a>),
}

impl<'a> Words<'a> {
    /// Reads the arguments. Options and files stand in any order, up to a word `--`: behind it there are only files. A word
    /// that begins with `-` is an option, but for `-` alone. What an option takes stands behind a `=` or in the next word.
    /// Without files, the standard input is the one.
    pub(crate) fn read(
        alloc: Global,
        options: &[ProgramOption],
        args: &'a [String],
    ) -> Result<Words<'a>, Stop<'a>>
        ensures { let all = asked (map row options.now) (map string_bytes args.now) in MatchResult result (λ w. all ≡ reads (map setting_view w.settings.items) (map text_view w.files.items)) (StopsAt all) }
    {
        let (words, files) = split_at_end(args);
        let mut read = Words {
            settings: Vec::new(alloc),
            files: Vec::new(alloc),
            awaits: None,
        };
        'words: for word in words {
            read.take(options, word.as_str())?;
        }
        if let Some(name) = read.awaits {
            return Err(Stop::Refused(name, Refusal::TakesOne));
        }
        read.push_files(files)?;
        Ok(read)
    }

    fn take(&mut self, options: &[ProgramOption], word: &'a str) -> Result<(), Stop<'a>>
        ensures { (ws : List Text) → let all = left self.old (map row options.now) (word.now ∷ ws) in MatchResult result (λ _. left self.new (map row options.now) ws ≡ all) (StopsAt all) }
    {
        if let Some(name) = self.awaits {
            self.awaits = None;
            return self.set(Setting { name, value: word });
        }
        match word_of(options, word) {
            Word::File => self.push(word),
            Word::Sets(setting) => self.set(setting),
            Word::Awaits(name) => {
                self.awaits = Some(name);
                Ok(())
            }
            Word::Stops(stop) => Err(stop),
        }
    }

    fn set(&mut self, setting: Setting<'a>) -> Result<(), Stop<'a>>
        ensures result { MatchResult result (λ _. self.new.settings.items ≡ self.old.settings.items ++ (setting.entry ∷ [])) (λ s. s ≡ OutOfMemory) }
        ensures rest { (self.new.files ≡ self.old.files) × (self.new.awaits ≡ self.old.awaits) }
    {
        match self.settings.push(setting) {
            Ok(()) => Ok(()),
            Err(_) => Err(Stop::OutOfMemory),
        }
    }

    fn push_files(&mut self, files: &'a [String]) -> Result<(), Stop<'a>>
        ensures result { MatchResult result (λ _. map text_view self.new.files.items ≡ or_standard_input (map text_view self.old.files.items ++ map string_bytes files.now)) (λ s. s ≡ OutOfMemory) }
        ensures rest { self.new.settings ≡ self.old.settings }
    {
        'files: for file in files {
            self.push(file.as_str())?;
        }
        if self.files.is_empty() {
            return self.push(STANDARD_INPUT);
        }
        Ok(())
    }

    fn push(&mut self, file: &'a str) -> Result<(), Stop<'a>>
        ensures result { MatchResult result (λ _. self.new.files.items ≡ self.old.files.items ++ (file.entry ∷ [])) (λ s. s ≡ OutOfMemory) }
        ensures rest { (self.new.settings ≡ self.old.settings) × (self.new.awaits ≡ self.old.awaits) }
    {
        match self.files.push(file) {
            Ok(()) => Ok(()),
            Err(_) => Err(Stop::OutOfMemory),
        }
    }
}

fn word_of<'a>(options: &[ProgramOption], word: &'a str) -> Word<'a>
    ensures { IsWord (word_of (map row options.now) word.now) result }
{
    if word == STANDARD_INPUT || !word.starts_with('-') {
        return Word::File;
    }
    match word {
        "-h" | "--help" => Word::Stops(Stop::Help),
        "--version" => Word::Stops(Stop::Version),
        _ => option_word(options, word),
    }
}

// A word that is an option, or none of the table.
fn option_word<'a>(options: &[ProgramOption], word: &'a str) -> Word<'a>
    ensures { IsWord (option_word (map row options.now) word.now) result }
{
    match word.split_once('=') {
        Some((name, value)) => match option_of(options, name) {
            Some(option) if option.takes.is_empty() => {
                Word::Stops(Stop::Refused(word, Refusal::TakesNone))
            }
            Some(option) => Word::Sets(Setting {
                name: option.name,
                value,
            }),
            None => Word::Stops(Stop::Refused(word, Refusal::NoSuchOption)),
        },
        None => match option_of(options, word) {
            Some(option) if option.takes.is_empty() => Word::Sets(Setting {
                name: option.name,
                value: "",
            }),
            Some(option) => Word::Awaits(option.name),
            None => Word::Stops(Stop::Refused(word, Refusal::NoSuchOption)),
        },
    }
}

// The words before `--`, and those behind it.
fn split_at_end(args: &[String]) -> (&[String], &[String])
    ensures before { map string_bytes result.0.now ≡ before_first ends_options (map string_bytes args.now) }
    ensures behind { map string_bytes result.1.now ≡ after_first ends_options (map string_bytes args.now) }
{
    match end_of_options(args) {
        Some(place) => (&args[..place], &args[place + 1..]),
        None => (args, &[]),
    }
}

fn end_of_options(args: &[String]) -> Option<usize>
    ensures { result ≡ position (λ s. ends_options (string_bytes s)) args.now }
{
    args.iter().position(|word| word.as_str() == "--")
}
