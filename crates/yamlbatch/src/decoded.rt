use crate::job::Trap;
use crate::trees::lines_of;
use std::alloc::{AllocError, Global};
use std::ops::ControlFlow;
use yaml_encoding::{YAMLDecodingTrap, YAMLDecodingTrapFn};
use yaml_loader::decoder::{LoadError, YamlDecoder};

/// The trees of bytes, a line each, or the line of the fault.
pub fn decoded(alloc: Global, bytes: &[u8], trap: Trap) -> Result<String, AllocError> {
    let mut decoder = YamlDecoder::read(alloc, bytes);
    decoder.encoding_trap(match trap {
        Trap::Ignore => YAMLDecodingTrap::Ignore,
        Trap::Strict => YAMLDecodingTrap::Strict,
        Trap::Replace => YAMLDecodingTrap::Replace,
        Trap::Call => YAMLDecodingTrap::Call(YAMLDecodingTrapFn::new(notes)),
        Trap::Stop => YAMLDecodingTrap::Call(YAMLDecodingTrapFn::new(stops)),
    });
    match decoder.decode() {
        Ok(documents) => lines_of(alloc, documents.as_slice()),
        Err(LoadError::Scan(fault)) => Ok(format!(in alloc; "ERR scan {fault}\n")?),
        Err(LoadError::Decode(message)) => Ok(format!(in alloc; "ERR decode {message}\n")?),
        Err(LoadError::IO(_)) => Err(AllocError),
    }
}

/// Adds the malformation's length, that of the input from it on, and that of the text so far.
fn notes(bytes: u8, _: u8, input: &[u8], text: &mut String) -> ControlFlow<String> {
    let alloc = *text.allocator();
    match format!(in alloc; "({bytes} {} {})", input.len(), text.len()) {
        Ok(note) => match text.push_str(note.as_str()) {
            Ok(()) => ControlFlow::Continue(()),
            Err(_) => ControlFlow::Break(String::new(alloc)),
        },
        Err(_) => ControlFlow::Break(String::new(alloc)),
    }
}

/// Stops with these three as the message.
fn stops(bytes: u8, _: u8, input: &[u8], text: &mut String) -> ControlFlow<String> {
    let alloc = *text.allocator();
    match format!(in alloc; "{bytes} {} {}", input.len(), text.len()) {
        Ok(note) => ControlFlow::Break(note),
        Err(_) => ControlFlow::Break(String::new(alloc)),
    }
}
