//! What may become of a malformation, by the choice of a caller.
ghost use Rattle.std.specs.Prelude.{◌≡◌};

use std::ops::ControlFlow;

/// A function that is called at each malformation. Its arguments are:
///
/// * how many bytes the malformation has, 1 to 4;
/// * how many bytes after it were looked at: 2 if a lead surrogate stands before a whole unit that is no trail
///   surrogate, else 0. They are read again;
/// * the input from the malformation's first byte on;
/// * the text so far, which the function may change in any way.
///
/// `Continue` goes on after the malformation. `Break` stops with a message. An empty message stands for `Invalid
/// character sequence at {position}: {bytes}`, as with [`Strict`](YAMLDecodingTrap::Strict).
#[derive(Clone, Copy)]
pub struct YAMLDecodingTrapFn {
    // What a call may return is said by its own contract.
    pub(crate) function: fn(u8, u8, &[u8], &mut String) -> ControlFlow<String>,
    ghost callable: { IsAlwaysCallable function },
}

/// What becomes of a malformation, which is a sequence of bytes that is no character in the input's
/// encoding.
#[derive(Clone, Copy)]
pub enum YAMLDecodingTrap {
    /// It adds nothing to the text.
    Ignore,
    /// The first one stops decoding, with the message `Invalid character sequence at {position}: {bytes}`. The position
    /// counts bytes from the start of the input, and the bytes are decimal numbers, as in `Invalid character sequence
    /// at 5: [169]`.
    Strict,
    /// It adds U+FFFD, the replacement character.
    Replace,
    /// The function is called, once for each, in order.
    Call(YAMLDecodingTrapFn),
}

impl YAMLDecodingTrapFn {
    /// Keeps a function. Condition: it may be called on everything.
    pub fn new(function: fn(u8, u8, &[u8], &mut String) -> ControlFlow<String>) -> Self
        requires { IsAlwaysCallable function }
        ensures { result.function ≡ function }
    {
        YAMLDecodingTrapFn { function }
    }
}
