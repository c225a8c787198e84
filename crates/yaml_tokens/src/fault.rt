ghost use Rattle.std.specs.Prelude.{◌≡◌, true, string_bytes, IfOk, IsOk};
ghost use Rattle.yaml_tokens.specs.ErrorReport.{fixed_at, memory_at, owned_at};

use std::alloc::{AllocError, Global};
use std::error::Error;
use std::fmt;
use std::marker::Model;
use yaml_chars::Marker;

const OUT_OF_MEMORY: &str = "out of memory";

// A fault's text: most are fixed, so that making and copying them takes no memory.
#[derive(Debug, Drop)]
enum Info {
    Fixed(&'static str),
    Owned(String),
    Memory,
}

/// Why a text could not be read, and where: a fault of scanner, parser or loader, or that memory was refused. It
/// prints as `{info} at byte {index} line {line} column {col + 1}`; the index counts characters. Two are equal if
/// their text, their position and [`is_out_of_memory`](ScanError::is_out_of_memory) are equal.
#[derive(Debug, Drop)]
pub struct ScanError {
    mark: Marker,
    info: Info,
}

/// The result of a call that gives no token.
pub type ScanResult = Result<(), ScanError>;

impl Model for ScanError {
    ghost use Rattle.yaml_tokens.specs.ErrorReport.{ErrorReport};

    ghost Value = { ErrorReport };

    ghost use Rattle.yaml_tokens.specs.Info.{text_of, is_memory, is_fixed};

    ghost view = { λ e. record { position = e.mark; text = text_of e.info; memory = is_memory e.info; fixed = is_fixed e.info } };
}

impl ScanError {
    /// A fault with a copy of this text. An `Err` comes only if memory was refused.
    pub fn new(alloc: Global, loc: Marker, info: &str) -> Result<ScanError, AllocError>
        ensures { IfOk result (λ e. e ≡ owned_at loc info.now) }
    {
        Ok(ScanError::new_string(loc, String::from_str(alloc, info)?))
    }

    /// A fault with this text. It takes no memory.
    pub fn new_string(loc: Marker, info: String) -> ScanError
        ensures { result ≡ owned_at loc (string_bytes info) }
    {
        ScanError {
            mark: loc,
            info: Info::Owned(info),
        }
    }

    /// A fault with a fixed text. It takes no memory.
    pub fn fixed(loc: Marker, info: &'static str) -> ScanError
        ensures { result ≡ fixed_at loc info.now }
    {
        ScanError {
            mark: loc,
            info: Info::Fixed(info),
        }
    }

    /// The fault that memory was refused, at a position. It takes no memory.
    pub fn memory(loc: Marker) -> ScanError
        ensures { result ≡ memory_at loc }
    {
        ScanError {
            mark: loc,
            info: Info::Memory,
        }
    }

    /// Where the fault is.
    pub fn marker(&self) -> &Marker
        ensures { result.now ≡ self.now.position }
    {
        &self.mark
    }

    /// The fault's text, without its position.
    pub fn info(&self) -> &str
        ensures { result.now ≡ self.now.text }
    {
        match &self.info {
            Info::Fixed(text) => text,
            Info::Owned(text) => text.as_str(),
            Info::Memory => OUT_OF_MEMORY,
        }
    }

    /// Whether the fault says that memory was refused. A fault of another kind does not, whatever its text.
    pub fn is_out_of_memory(&self) -> bool
        ensures { result ≡ self.now.memory }
    {
        matches!(self.info, Info::Memory)
    }

    /// A copy, equal to the fault. An `Err` comes only where memory was refused; a fault of fixed text takes none,
    /// nor does one of refused memory.
    pub fn clone(&self, alloc: Global) -> Result<ScanError, AllocError>
        ensures copy { IfOk result (λ e. e ≡ self.now) }
        ensures fixed { self.now.fixed ≡ true → IsOk result }
        ensures memory { self.now.memory ≡ true → IsOk result }
    {
        let info = match &self.info {
            Info::Fixed(text) => Info::Fixed(text),
            Info::Owned(text) => Info::Owned(String::from_str(alloc, text.as_str())?),
            Info::Memory => Info::Memory,
        };
        Ok(ScanError {
            mark: self.mark,
            info,
        })
    }
}

impl fmt::Display for ScanError {
    ghost use Rattle.std.specs.Prelude.{Some};
    ghost use Rattle.yaml_tokens.specs.ErrorReport.{printed};

    ghost output = { λ e. Some (printed e) };

    fn fmt<W: fmt::Write>(&self, f: &mut fmt::Formatter<W>) -> fmt::Result {
        let info = self.info();
        let index = self.mark.index();
        let line = self.mark.line();
        let column = self.mark.col() + 1;
        write!(f, "{info} at byte {index} line {line} column {column}")
    }
}

impl Error for ScanError {}

impl PartialEq for ScanError {
    ghost use Rattle.yaml_tokens.specs.FaultLaws.{fault_eq, fault_eq_equiv};
    ghost use Rattle.std.specs.Cmp.{partial_equiv_from_equiv};

    ghost eq = { fault_eq };

    ghost laws = { partial_equiv_from_equiv fault_eq_equiv };

    fn eq(&self, other: &ScanError) -> bool {
        self.mark == other.mark
            && self.is_out_of_memory() == other.is_out_of_memory()
            && self.info() == other.info()
    }
}

impl Eq for ScanError {
    ghost use Rattle.yaml_tokens.specs.FaultLaws.{fault_eq_equiv};

    ghost laws = { fault_eq_equiv };
}
