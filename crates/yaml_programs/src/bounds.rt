//! The options for limits on what is loaded.
ghost use Rattle.std.specs.Prelude.{◌≡◌};
ghost use Rattle.yaml_programs.specs.Bounds.{IsBoundSet, IsNumberSet, with_number, bound};

use crate::option::ProgramOption;

/// How deep nodes may stand one in another.
pub const MAX_LEVELS: ProgramOption = ProgramOption {
    name: "--max-levels",
    takes: "N",
    help: "how deep nodes may stand one in another, in place of 256",
};

/// How much a file may make.
pub const MAX_SIZE: ProgramOption = ProgramOption {
    name: "--max-size",
    takes: "N",
    help: "how many nodes and bytes in them, in place of 3 for each byte of the file and 100000",
};

/// No limits but those given.
pub const NO_LIMITS: ProgramOption = ProgramOption {
    name: "--no-limits",
    takes: "",
    help: "no limits but those that --max-levels and --max-size give",
};

/// The limits that the arguments ask for.
#[derive(Clone, Copy)]
pub struct Bounds {
    levels: Option<usize>,
    size: Option<usize>,
    are_lifted: bool,
}

impl Bounds {
    /// Those for a text of a stranger.
    pub const USUAL: Bounds = Bounds {
        levels: None,
        size: None,
        are_lifted: false,
    };

    /// Takes an option of the three, and says whether it takes this value.
    pub fn set(&mut self, name: &str, value: &str) -> bool
        ensures { IsBoundSet self.old name.now value.now result self.new }
    {
        if name == NO_LIMITS.name {
            self.are_lifted = true;
            return true;
        }
        self.set_number(name, value)
    }

    fn set_number(&mut self, name: &str, value: &str) -> bool
        ensures { IsNumberSet self.old name.now value.now result self.new }
    {
        match value.parse::<usize>() {
            Ok(number) => {
                *self = self.with_number(name, number);
                true
            }
            Err(_) => false,
        }
    }

    fn with_number(self, name: &str, number: usize) -> Bounds
        ensures { result ≡ with_number self name.now number }
    {
        if name == MAX_LEVELS.name {
            Bounds {
                levels: Some(number),
                ..self
            }
        } else {
            Bounds {
                size: Some(number),
                ..self
            }
        }
    }

    /// The limit on levels, where this one is usual.
    pub fn levels(self, usual: usize) -> usize
        ensures { result ≡ bound self.levels self.are_lifted usual }
    {
        self.bound(self.levels, usual)
    }

    /// The limit on size, where this one is usual.
    pub fn size(self, usual: usize) -> usize
        ensures { result ≡ bound self.size self.are_lifted usual }
    {
        self.bound(self.size, usual)
    }

    fn bound(self, given: Option<usize>, usual: usize) -> usize
        ensures { result ≡ bound given self.are_lifted usual }
    {
        match given {
            Some(given) => given,
            None if self.are_lifted => usize::MAX,
            None => usual,
        }
    }
}
