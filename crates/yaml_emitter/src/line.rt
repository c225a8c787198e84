//! New lines.
ghost use Rattle.std.specs.Prelude.{◌≡◌, ◌≤◌, ◌∷◌, replicate};
ghost use Rattle.yaml_emitter.specs.At.{new_line};
ghost use Rattle.yaml_emitter.specs.Writing.{Writes};

use crate::writer::{Writer, put_ascii};
use std::fmt;

/// The spaces that one call writes.
const MOST: usize = 64;

/// The levels that have so many.
const MOST_LEVELS: usize = MOST / 2;

/// A line feed, and that many spaces.
const LINE: &str = "\n                                                                ";

/// Ends the line, and indents the next one to the level.
pub(crate) fn break_line<W: Writer>(out: &mut W, level: usize) -> fmt::Result
    ensures { Writes W.put_gives W.put_leaves out.old result (new_line level) out.new }
{
    if level <= MOST_LEVELS {
        return put_ascii(out, line(2 * level));
    }
    // A level has two spaces, which may be more than a `usize` counts.
    start_line(out, level)?;
    put_spaces(out, level)
}

/// Ends the line, and begins the next one with so many spaces.
pub fn start_line<W: Writer>(out: &mut W, count: usize) -> fmt::Result
    ensures { Writes W.put_gives W.put_leaves out.old result (10 ∷ replicate count 32) out.new }
{
    if count <= MOST {
        return put_ascii(out, line(count));
    }
    put_ascii(out, LINE)?;
    put_spaces(out, count - MOST)
}

#[tactic(auto, using(crate::proofs::LineLemmas::line_of))]
fn line(count: usize) -> &'static str
    requires { count ≤ 64 }
    ensures { result.now ≡ 10 ∷ replicate count 32 }
{
    let (line, _) = LINE.split_at(1 + count);
    line
}

fn put_spaces<W: Writer>(out: &mut W, count: usize) -> fmt::Result
    ensures { Writes W.put_gives W.put_leaves out.old result (replicate count 32) out.new }
{
    let mut left = count;
    'left: while left > MOST {
        put_ascii(out, spaces(MOST))?;
        left -= MOST;
    }
    put_ascii(out, spaces(left))
}

#[tactic(auto, using(crate::proofs::LineLemmas::break_boundary))]
fn spaces(count: usize) -> &'static str
    requires { count ≤ 64 }
    ensures { result.now ≡ replicate count 32 }
{
    let (_, spaces) = line(count).split_at(1);
    spaces
}
