//! Events, pushed into a receiver, and tokens.
use crate::calls::failure::Failure;
use std::alloc::Global;
use yaml_rust2::ScanError;
use yaml_rust2::parser::{Event, EventReceiver, Parser};
use yaml_rust2::scanner::Scanner;

#[derive(Drop)]
struct Scalars {
    count: usize,
}

impl EventReceiver for Scalars {
    fn on_event(&mut self, event: Event) -> Result<(), ScanError> {
        if let Event::Scalar(_, _, _, _) = event {
            self.count = self.count.saturating_add(1);
        }
        Ok(())
    }
}

/// How many scalars all documents of a text have. No tree is made.
pub fn count_scalars(alloc: Global, text: &str) -> Result<usize, Failure> {
    let mut scalars = Scalars { count: 0 };
    Parser::new_from_str(alloc, text).load(&mut scalars, true)?;
    Ok(scalars.count)
}

/// How many tokens a text has, up to its first fault.
pub fn count_tokens(alloc: Global, text: &str) -> usize {
    let mut count: usize = 0;
    for _ in Scanner::new(alloc, text.chars()) {
        count = count.saturating_add(1);
    }
    count
}
