//! Why decoding stops.
use std::alloc::AllocError;

/// Why an input has no text.
#[derive(Debug, Drop)]
pub enum Stop {
    /// A malformation stopped decoding, with this message.
    Message(String),
    /// Memory was refused.
    OutOfMemory,
}

impl From<AllocError> for Stop {
    ghost use Rattle.std.specs.Prelude.{◌≡◌};
    ghost use Rattle.yaml_encoding.specs.declared.stop.Stop.TheVariants.{OutOfMemory};

    ghost from_gives = { λ _ stop. stop ≡ OutOfMemory };

    fn from(_: AllocError) -> Stop {
        Stop::OutOfMemory
    }
}
