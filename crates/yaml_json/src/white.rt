//! White space and commas between items and members (RFC 8259, section 2).
ghost use Rattle.std.specs.Prelude.{◌≡◌, ◌≤◌, ◌^◌, ℕ, Option, None, Some, MatchResult};
ghost use Rattle.defs_layout.specs.JsonText.{deeper, new_line, key_end};
ghost use Rattle.yaml_emitter.specs.Writing.{Writes};
ghost use Rattle.yaml_json.specs.Left.{before_entry, shallower};

use std::fmt;
use yaml_emitter::{Writer, put_ascii, start_line};

/// The white space of a text.
pub(crate) trait Spacing: Copy {
    // `None` where there is none, else the spaces a level.
    ghost indentation: { Self → Option ℕ };

    /// The margin one level deeper, or an `Err` where that would be 2^64 spaces.
    fn deeper(self, margin: usize) -> Result<usize, fmt::Error>
        ensures { MatchResult result (λ n. n ≡ deeper (indentation self) margin) (λ e. 2 ^ 64 ≤ deeper (indentation self) margin) };

    /// The margin one level up.
    fn shallower(self, margin: usize) -> usize
        ensures { result ≡ shallower (indentation self) margin };

    /// Ends the line, where there is an indentation, and begins the next one at the margin.
    fn new_line<W: Writer>(self, out: &mut W, margin: usize) -> fmt::Result
        ensures { Writes W.put_gives W.put_leaves out.old result (new_line (indentation self) margin) out.new };

    /// The colon after a key.
    fn end_key<W: Writer>(self, out: &mut W) -> fmt::Result
        ensures { Writes W.put_gives W.put_leaves out.old result (key_end (indentation self)) out.new };
}

/// No white space.
#[derive(Clone, Copy)]
pub(crate) struct Compact;

impl Spacing for Compact {
    ghost indentation = { λ _. None };

    #[inline(always)]
    fn deeper(self, margin: usize) -> Result<usize, fmt::Error> {
        Ok(margin)
    }

    #[inline(always)]
    fn shallower(self, margin: usize) -> usize {
        margin
    }

    #[inline(always)]
    fn new_line<W: Writer>(self, _out: &mut W, _margin: usize) -> fmt::Result {
        Ok(())
    }

    fn end_key<W: Writer>(self, out: &mut W) -> fmt::Result {
        put_ascii(out, ":")
    }
}

/// Each item and each member on a line of its own.
#[derive(Clone, Copy)]
pub(crate) struct Indented {
    /// The spaces a level.
    pub(crate) width: usize,
}

impl Spacing for Indented {
    ghost indentation = { λ s. Some s.width };

    fn deeper(self, margin: usize) -> Result<usize, fmt::Error> {
        match margin.checked_add(self.width) {
            Some(inner) => Ok(inner),
            None => Err(fmt::Error),
        }
    }

    fn shallower(self, margin: usize) -> usize {
        margin.saturating_sub(self.width)
    }

    fn new_line<W: Writer>(self, out: &mut W, margin: usize) -> fmt::Result {
        start_line(out, margin)
    }

    fn end_key<W: Writer>(self, out: &mut W) -> fmt::Result {
        put_ascii(out, ": ")
    }
}

/// A comma before all but the first entry, and a new line.
pub(crate) fn begin_entry<W: Writer, S: Spacing>(
    out: &mut W,
    spacing: S,
    margin: usize,
    is_first: bool,
) -> fmt::Result
    ensures { Writes W.put_gives W.put_leaves out.old result (before_entry is_first (S.indentation spacing) margin) out.new }
{
    if is_first {
        return spacing.new_line(out, margin);
    }
    put_ascii(out, ",")?;
    spacing.new_line(out, margin)
}
