//! Why no tree is read.

use std::alloc::AllocError;

/// Memory was refused.
#[derive(Clone, Copy, Debug)]
pub struct Refused {
    /// How many bytes of the text were read until then.
    pub read: usize,
}

/// Why no tree is read.
#[derive(Clone, Copy, Debug)]
pub(crate) enum Stop {
    /// The text is not of the class.
    Foreign,
    /// Memory was refused.
    OutOfMemory,
}

impl From<AllocError> for Stop {
    ghost use Rattle.std.specs.Prelude.{◌≡◌};
    ghost use Rattle.yaml_json.specs.declared.stop.Stop.TheVariants.{OutOfMemory};

    ghost from_gives = { λ _ stop. stop ≡ OutOfMemory };

    fn from(_: AllocError) -> Stop {
        Stop::OutOfMemory
    }
}
