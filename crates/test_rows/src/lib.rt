//! What the rows of a test's table got wrong. A test goes over all rows, and then asserts that its report is empty, with the report as
//! the message.
#![tactic(auto)]

ghost use Rattle.std.specs.Prelude.{◌≡◌, ◌≢◌, true, false, not};

use std::alloc::{AllocError, Global};
use std::fmt;

/// The rows that failed, a line each.
#[derive(Drop)]
pub struct Report {
    alloc: Global,
    has_failed: bool,
    lines: String,
}

impl Report {
    /// No row has failed yet. It takes no memory.
    pub fn new(alloc: Global) -> Report
        ensures { result.has_failed ≡ false }
    {
        Report {
            alloc,
            has_failed: false,
            lines: String::new(alloc),
        }
    }

    /// Notes the row of this name if what was found is not what was wanted. `way` says how it was found.
    pub fn compare(
        &mut self,
        name: &str,
        way: &str,
        found: &str,
        want: &str,
    ) -> Result<(), AllocError>
        ensures same { found.now ≡ want.now → self.new ≡ self.old }
        ensures noted { found.now ≢ want.now → self.new.has_failed ≡ true }
    {
        if found != want {
            self.has_failed = true;
            let line = format!(in self.alloc; "{name}, {way}: {found}, not {want}\n")?;
            self.lines.push_str(line.as_str())?;
        }
        Ok(())
    }

    /// Notes the row of this name if this does not hold of it.
    pub fn check(&mut self, name: &str, what: &str, holds: bool) -> Result<(), AllocError>
        ensures same { holds ≡ true → self.new ≡ self.old }
        ensures noted { holds ≡ false → self.new.has_failed ≡ true }
    {
        if !holds {
            self.has_failed = true;
            let line = format!(in self.alloc; "{name}, {what}\n")?;
            self.lines.push_str(line.as_str())?;
        }
        Ok(())
    }

    /// Whether no row has failed.
    pub fn is_empty(&self) -> bool
        ensures { result ≡ not self.now.has_failed }
    {
        !self.has_failed
    }
}

impl fmt::Display for Report {
    fn fmt<W: fmt::Write>(&self, f: &mut fmt::Formatter<W>) -> fmt::Result {
        f.write_str(self.lines.as_str())
    }
}
