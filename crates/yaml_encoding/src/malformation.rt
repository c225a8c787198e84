//! What becomes of a malformation.
ghost use Rattle.std.specs.Prelude.{◌≡◌, ◌≤◌, length};
ghost use Rattle.defs_text.specs.Text.{string_chars};
ghost use Rattle.yaml_encoding.specs.Decoding.{message, message_or, stopped};
ghost use Rattle.yaml_encoding.specs.Outcomes.{StopIs, LeftIs};
ghost use Rattle.yaml_encoding.specs.Steps.{IsStep, steps_by, Stepped};

use crate::growing::push_replacement;
use crate::message::message;
use crate::stop::Stop;
use crate::trap::{YAMLDecodingTrap, YAMLDecodingTrapFn};
use std::alloc::Global;
use std::ops::ControlFlow;

/// A malformation: its position, counted in bytes from the start of the input, how many bytes it has, and how many after
/// it were looked at.
#[derive(Clone, Copy)]
pub(crate) struct Malformation {
    pub position: usize,
    pub bytes: u8,
    pub ahead: u8,
}

/// A stop with the malformation's own message.
fn stop(alloc: Global, malformation: Malformation, input: &[u8]) -> Stop
    requires { malformation.bytes ≤ length input.now }
    ensures { StopIs result (λ o. o ≡ stopped (message malformation.position malformation.bytes input.now)) }
{
    let malformed = &input[..usize::from(malformation.bytes)];
    match message(alloc, malformation.position, malformed) {
        Ok(message) => Stop::Message(message),
        Err(_) => Stop::OutOfMemory,
    }
}

/// A stop with a function's message. An empty one stands for the malformation's own.
#[tactic(auto, using(crate::proofs::MalformationLemmas::message_or_own, crate::proofs::MalformationLemmas::message_or_said))]
fn broken(message: String, malformation: Malformation, input: &[u8]) -> Stop
    requires { malformation.bytes ≤ length input.now }
    ensures { StopIs result (λ o. o ≡ stopped (message_or (string_chars message) malformation.position malformation.bytes input.now)) }
{
    if message.is_empty() {
        let alloc = *message.allocator();
        return stop(alloc, malformation, input);
    }
    Stop::Message(message)
}

/// Calls a stored function: the text goes on, or decoding stops.
fn call(
    stored: &YAMLDecodingTrapFn,
    malformation: Malformation,
    input: &[u8],
    text: &mut String,
) -> Result<(), Stop>
    requires { malformation.bytes ≤ length input.now }
    ensures { LeftIs result text.new (Stepped (IsStep (post stored.now.function)) malformation.position malformation.bytes malformation.ahead input.now (string_chars text.old)) }
{
    match (stored.function)(malformation.bytes, malformation.ahead, input, text) {
        ControlFlow::Continue(()) => Ok(()),
        ControlFlow::Break(message) => Err(broken(message, malformation, input)),
    }
}

/// What a trap makes of a malformation, with which `input` begins: the text goes on, or decoding
/// stops.
pub(crate) fn trapped(
    trap: YAMLDecodingTrap,
    malformation: Malformation,
    input: &[u8],
    text: &mut String,
) -> Result<(), Stop>
    requires { malformation.bytes ≤ length input.now }
    ensures { LeftIs result text.new (Stepped (steps_by (λ f. IsStep (post f.function)) trap) malformation.position malformation.bytes malformation.ahead input.now (string_chars text.old)) }
{
    let alloc = *text.allocator();
    match trap {
        YAMLDecodingTrap::Ignore => Ok(()),
        YAMLDecodingTrap::Replace => {
            push_replacement(text)?;
            Ok(())
        }
        YAMLDecodingTrap::Strict => Err(stop(alloc, malformation, input)),
        YAMLDecodingTrap::Call(stored) => call(&stored, malformation, input, text),
    }
}
