//! A text that is being made.

use crate::random::Random;
use crate::words::{NAMES, PHRASES};
use std::alloc::{AllocError, Global};

/// A text, and what it goes on with.
#[derive(Drop)]
pub struct Maker {
    text: String,
    random: Random,
}

impl Maker {
    /// An empty text.
    pub fn new(alloc: Global, random: Random) -> Maker {
        Maker {
            text: String::new(alloc),
            random,
        }
    }

    /// The text so far.
    pub fn text(&self) -> &str {
        self.text.as_str()
    }

    /// How many bytes it has.
    pub fn len(&self) -> usize {
        self.text.len()
    }

    /// Appends a text.
    pub fn put(&mut self, text: &str) -> Result<(), AllocError> {
        self.text.push_str(text)?;
        Ok(())
    }

    /// Appends one of some words.
    pub fn pick(&mut self, words: &[&str]) -> Result<(), AllocError> {
        let word = self.random.pick(words);
        self.put(word)
    }

    /// Appends a name.
    pub fn name(&mut self) -> Result<(), AllocError> {
        self.pick(NAMES)
    }

    /// Appends some words.
    pub fn phrase(&mut self) -> Result<(), AllocError> {
        self.pick(PHRASES)
    }

    /// Appends a number below a limit.
    pub fn number(&mut self, limit: u64) -> Result<(), AllocError> {
        let number = self.random.below(limit);
        self.put_number(number)
    }

    /// Appends this number.
    pub fn put_number(&mut self, number: u64) -> Result<(), AllocError> {
        write!(self.text, "{number}")
    }

    /// Appends a name that hardly comes twice.
    pub fn key(&mut self) -> Result<(), AllocError> {
        self.name()?;
        self.put("-")?;
        self.number(1_000_000_000)
    }

    /// A number below a limit.
    pub fn below(&mut self, limit: u64) -> u64 {
        self.random.below(limit)
    }
}
