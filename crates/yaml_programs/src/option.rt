//! The rows of a program's table of options.
ghost use Rattle.std.specs.Prelude.{◌≡◌, map, option_map};
ghost use Rattle.yaml_programs.specs.Arguments.{option_named};
ghost use Rattle.yaml_programs.specs.Reading.{row};

/// An option of a program: a row of its table. The arguments are read by these rows, and the help is made from them.
#[derive(Clone, Copy)]
pub struct ProgramOption {
    /// Its name, with both dashes.
    pub name: &'static str,
    /// What the help calls the word that it takes, as `N`; empty if it takes none.
    pub takes: &'static str,
    /// What it does, in one line.
    pub help: &'static str,
}

/// The option of this name.
pub(crate) fn option_of(options: &[ProgramOption], name: &str) -> Option<ProgramOption>
    ensures { option_map row result ≡ option_named (map row options.now) name.now }
{
    for option in options {
        if option.name == name {
            return Some(*option);
        }
    }
    None
}
