//! Where a dump goes.
ghost use Rattle.std.specs.Prelude.{ℕ, List, [], ◌∷◌, chars, IsTrue};
ghost use Rattle.yaml_emitter.specs.At.{is_low};
ghost use Rattle.yaml_emitter.specs.Strings.{HasGrown, HasStayed, HasBegun, wrote_to_string, stopped_at_string};
ghost use Rattle.yaml_emitter.specs.Writing.{Wrote, Stopped, Writes};

use std::fmt;

/// Takes the text of a dump, part by part. `String` and `fmt::Formatter` are writers, and [`FmtWriter`](crate::FmtWriter)
/// makes one of any `fmt::Write`.
///
/// For another type implement `put`. Its contract is made of ghost items: `put_gives` says what a call that takes the part
/// does to the writer, and `put_leaves` what a refused call leaves. `calls_give` and `calls_leave` say the same of several
/// calls, and the laws `wrote` and `stopped` show that they follow from the first two.
pub trait Writer {
    // Relates the writer before a call of `put` that returns `Ok`, the characters, and the writer after it.
    ghost put_gives: { Self → List ℕ → Self → Type 0 };

    // The same of a call that returns `Err`.
    ghost put_leaves: { Self → List ℕ → Self → Type 0 };

    // Relates the writer before some calls that all return `Ok`, the characters of all of them, and the writer after
    // them.
    ghost calls_give: { Self → List ℕ → Self → Type 0 };

    // Relates the writer before some calls, a text, and the writer after them, if they wrote a beginning of the text.
    // After these one more call may have been refused.
    ghost calls_leave: { Self → List ℕ → Self → Type 0 };

    /// Appends a text, or refuses it.
    fn put(&mut self, text: &str) -> fmt::Result
        ensures { Writes put_gives put_leaves self.old result (chars text.now) self.new };

    // Several calls that all return `Ok` do together what `calls_give` says.
    ghost wrote: { (w : Self) (text : List ℕ) (v : Self) → Wrote put_gives w text v → calls_give w text v };

    // Calls that stop within the text do together what `calls_leave` says.
    ghost stopped: { (w : Self) (text : List ℕ) (v : Self) → Stopped put_gives put_leaves (Unit {0}) w text v → calls_leave w text v };
}

// A `String` refuses only if memory is refused, and is then as it was.
impl Writer for String {
    ghost put_gives = { HasGrown };

    ghost put_leaves = { HasStayed };

    ghost calls_give = { HasGrown };

    ghost calls_leave = { HasBegun };

    ghost wrote = { wrote_to_string };

    ghost stopped = { stopped_at_string };

    fn put(&mut self, text: &str) -> fmt::Result {
        match self.push_str(text) {
            Ok(()) => Ok(()),
            Err(_) => Err(fmt::Error),
        }
    }
}

pub(crate) fn put_char<W: Writer>(out: &mut W, c: char) -> fmt::Result
    ensures { Writes W.put_gives W.put_leaves out.old result (c ∷ []) out.new }
{
    let mut bytes = [0; 4];
    out.put(c.encode_utf8(&mut bytes))
}

/// Appends a text of ASCII characters alone.
pub fn put_ascii<W: Writer>(out: &mut W, text: &str) -> fmt::Result
    requires { IsTrue (is_low text.now) }
    ensures { Writes W.put_gives W.put_leaves out.old result text.now out.new }
{
    out.put(text)
}
