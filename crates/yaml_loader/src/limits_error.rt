//! Why a text is not loaded within limits.
ghost use Rattle.std.specs.Prelude.{◌≡◌};
ghost use Rattle.yaml_loader.specs.Handing.{error_of};

use crate::count::Excess;
use std::error::Error;
use std::fmt;
use yaml_chars::Marker;
use yaml_tokens::ScanError;

/// Why a text is not loaded within limits.
#[derive(Debug, Drop)]
pub enum LimitsError {
    /// The text's fault, as a load without limits returns it, or that memory was refused.
    Scan(ScanError),
    /// A node has too many levels, with those around it: the position of the collection or alias that is one level too
    /// deep.
    Levels(Marker),
    /// There are too many nodes, or their content and tags are too large: the position of the scalar, alias or start of a
    /// collection that is too much. For the copy of a collection with an anchor, the position of its end. Or more tokens of a
    /// flow collection wait than may: the position up to which the text was read.
    Size(Marker),
}

impl From<ScanError> for LimitsError {
    ghost use Rattle.std.specs.Prelude.{◌≡◌};
    ghost use Rattle.yaml_loader.specs.declared.limits_error.LimitsError.TheVariants.{Scan};

    ghost from_gives = { λ fault error. error ≡ Scan fault };

    fn from(fault: ScanError) -> LimitsError {
        LimitsError::Scan(fault)
    }
}

impl Excess {
    pub(crate) fn error(self, mark: Marker) -> LimitsError
        ensures { result ≡ error_of self mark }
    {
        match self {
            Excess::Levels => LimitsError::Levels(mark),
            Excess::Size => LimitsError::Size(mark),
            Excess::OutOfMemory => LimitsError::Scan(ScanError::memory(mark)),
        }
    }
}

impl fmt::Display for LimitsError {
    fn fmt<W: fmt::Write>(&self, f: &mut fmt::Formatter<W>) -> fmt::Result {
        match self {
            LimitsError::Scan(fault) => write!(f, "{fault}"),
            LimitsError::Levels(mark) => write_excess(f, "too many levels", mark),
            LimitsError::Size(mark) => write_excess(f, "too large", mark),
        }
    }
}

fn write_excess<W: fmt::Write>(
    f: &mut fmt::Formatter<W>,
    what: &str,
    mark: &Marker,
) -> fmt::Result {
    let line = mark.line();
    let column = mark.col() + 1;
    write!(f, "{what} at line {line} column {column}")
}

impl Error for LimitsError {}
