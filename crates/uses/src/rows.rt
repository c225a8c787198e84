//! Whether a text has tokens at all. The answer is right by the definition of a row alone, by the library's public contracts.

ghost use Rattle.std.specs.Prelude.{◌≡◌, true, chars, IfErr, OnOk};
ghost use Rattle.uses.specs.Rows.{Tells};
ghost use Rattle.yaml_rust2.specs.CharactersRead.{HasNoNul};
ghost use Rattle.yaml_rust2.specs.Scanned.{scanned, LeavesNoRow, Scans};
ghost use Rattle.yaml_rust2.specs.Source.{CameFrom};
ghost use Rattle.yaml_rust2.specs.Text.{up_to_nul};

use std::alloc::Global;
use yaml_rust2::ScanError;
use yaml_rust2::laws::{strings_are_the_text, texts_with_a_fault_have_no_row};
use yaml_rust2::scanner::Scanner;

#[cfg(test)]
mod tests;

/// Whether a text has a row of tokens. An `Err` says that memory was refused.
pub fn has_row(alloc: Global, text: &str) -> Result<bool, ScanError>
    ensures { Tells (up_to_nul (chars text.now)) result }
{
    strings_are_the_text();
    texts_with_a_fault_have_no_row();
    let mut scanner = Scanner::new(alloc, text.chars());
    match take_all(&mut scanner) {
        Ok(()) => Ok(true),
        Err(fault) => {
            if fault.is_out_of_memory() {
                return Err(fault);
            }
            Ok(false)
        }
    }
}

// Takes the tokens of a scanner, to the stream's end.
fn take_all<T: Iterator<Item = char>>(scanner: &mut Scanner<T>) -> Result<(), ScanError>
    ensures start { scanner.new.start ≡ scanner.old.start }
    ensures came { CameFrom T.next_gives scanner.new.start (scanned scanner.new).taken (scanned scanner.new).done }
    ensures no_nul { HasNoNul (scanned scanner.new).taken }
    ensures scans { Scans (scanned scanner.new) }
    ensures ended { OnOk result ((scanned scanner.new).ended ≡ true) }
    ensures rowless { IfErr result (λ e. LeavesNoRow (scanned scanner.new) e) }
{
    'tokens: loop {
        match scanner.next_token() {
            Ok(Some(_)) => {}
            Ok(None) => return Ok(()),
            Err(fault) => return Err(fault),
        }
    }
}
