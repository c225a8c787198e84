//! The encoding of an input, by its byte order mark or its first two bytes.
ghost use Rattle.std.specs.Prelude.{◌≡◌, ◌<◌, ◌≤◌, length, IsTrue};
ghost use Rattle.yaml_encoding.specs.Decoding.{chosen, unmarked, reading, utf_8};
ghost use Rattle.yaml_encoding.specs.Encodings.{encoding_of};
ghost use Rattle.yaml_encoding.specs.Front.{front, sequence_of};

use crate::sequence::Sequence;
use crate::utf_8::utf_8_sequence;
use crate::utf_16::{ByteOrder, utf_16_sequence};

/// How an input is read.
#[derive(Clone, Copy)]
pub(crate) enum Encoding {
    Utf8,
    Utf16(ByteOrder),
}

impl Encoding {
    /// Whether the input is read as UTF-8.
    pub fn is_utf_8(self) -> bool
        ensures { IsTrue result → encoding_of self ≡ utf_8 }
    {
        match self {
            Encoding::Utf8 => true,
            Encoding::Utf16(_) => false,
        }
    }

    /// What an input begins with.
    pub fn sequence(self, input: &[u8]) -> Sequence
        requires { 0 < length input.now }
        ensures { sequence_of result ≡ front (reading (encoding_of self)) input.now }
    {
        match self {
            Encoding::Utf8 => utf_8_sequence(input),
            Encoding::Utf16(order) => utf_16_sequence(order, input),
        }
    }
}

/// An input's encoding, and how many bytes its byte order mark has.
#[derive(Clone, Copy)]
pub(crate) struct Chosen {
    pub encoding: Encoding,
    pub mark: usize,
}

/// The encoding of an input that has no mark.
#[tactic(auto, unfolding(crate::specs::Decoding::unmarked))]
fn unmarked(input: &[u8]) -> Encoding
    ensures { encoding_of result ≡ unmarked input.now }
{
    match input {
        [first, second, ..] if first == second => Encoding::Utf8,
        [0, _, ..] => Encoding::Utf16(ByteOrder::Big),
        [_, 0, ..] => Encoding::Utf16(ByteOrder::Little),
        _ => Encoding::Utf8,
    }
}

/// The encoding of an input.
#[tactic(auto, unfolding(crate::specs::Decoding::chosen))]
pub(crate) fn chosen_encoding(input: &[u8]) -> Chosen
    ensures value { chosen input.now ≡ record { encoding = encoding_of result.encoding; mark = result.mark } }
    ensures there { result.mark ≤ length input.now }
{
    let (encoding, mark) = match input {
        [0xEF, 0xBB, 0xBF, ..] => (Encoding::Utf8, 3),
        [0xFF, 0xFE, ..] => (Encoding::Utf16(ByteOrder::Little), 2),
        [0xFE, 0xFF, ..] => (Encoding::Utf16(ByteOrder::Big), 2),
        _ => (unmarked(input), 0),
    };
    Chosen { encoding, mark }
}
