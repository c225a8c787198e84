//! A fault shown with the line of the text that it is about, and a caret below its column:
//!
//! ```text
//! ports: [80, 443
//!        ^
//! ```
//!
//! Print the fault first: `{fault}`, then `{excerpt}` on a line of its own. Nothing is kept but a part of the text, and no
//! memory is taken.
//!
//! - TABs stand in both lines, so the caret is below its character however wide a TAB is. Each other character counts as
//!   one column; after characters that are shown wider, as those of Chinese, the caret stands too far left.
//! - Control characters, and those that turn the direction of a line, are shown as U+FFFD.
//! - Of a long line at most 80 characters are shown, 60 at most before the caret; `...` stands for what is left out.
ghost use Rattle.std.specs.Prelude.{◌≡◌, chars, codes, encode_utf8_all, map, take, ◌++◌, Some};
ghost use Rattle.yaml_tokens.specs.Excerpt.{excerpt, shown_line, visible, blank};
ghost use Rattle.yaml_tokens.specs.ShownLine.{mark_of, shown_by, WritesText};

use crate::ScanError;
use crate::line::{after, ends_line, first, line_of};
use std::fmt;
use yaml_chars::Marker;

// As many characters of a line as are shown.
const SHOWN: usize = 80;

// As many may stand before the fault; of more the last `KEPT` are shown.
const MOST_BEFORE: usize = 60;

const KEPT: usize = 40;

const LEFT_OUT: &str = "...";

/// The line of a text that a fault is about, and below it a caret under the fault's column. By `{}`.
#[derive(Clone, Copy)]
pub struct Excerpt<'a> {
    // From the first character that is shown.
    line: &'a str,
    // How many of them stand before the fault.
    column: usize,
    is_cut: bool,
}

impl<'a> Excerpt<'a> {
    /// The line of this text that the fault is about. It must be the text that was read; of another text it is some line,
    /// or an empty one.
    pub fn new(text: &'a str, fault: &ScanError) -> Excerpt<'a>
        ensures { shown_by result ≡ excerpt (chars text.now) fault.now.position.index }
    {
        Excerpt::at(text, *fault.marker())
    }

    /// The line of this text in which a position lies: a node's or an event's, for a message of one's own.
    pub fn at(text: &'a str, position: Marker) -> Excerpt<'a>
        ensures { shown_by result ≡ excerpt (chars text.now) position.index }
    {
        let (line, column) = line_of(text, position.index());
        if column <= MOST_BEFORE {
            Excerpt {
                line,
                column,
                is_cut: false,
            }
        } else {
            Excerpt {
                line: after(line, column - KEPT),
                column: KEPT,
                is_cut: true,
            }
        }
    }

    // What stands for the characters that are left out at the line's start.
    fn mark(&self) -> &'static str
        ensures { result.now ≡ mark_of self.now }
    {
        if self.is_cut { LEFT_OUT } else { "" }
    }

    fn below_mark(&self) -> &'static str
        ensures { result.now ≡ map blank (mark_of self.now) }
    {
        if self.is_cut { "   " } else { "" }
    }
}

impl fmt::Display for Excerpt<'_> {
    ghost output = { λ e. Some (encode_utf8_all (shown_by e)) };

    fn fmt<W: fmt::Write>(&self, f: &mut fmt::Formatter<W>) -> fmt::Result {
        f.write_str(self.mark())?;
        write_line(f, self.line)?;
        f.write_str("\n")?;
        f.write_str(self.below_mark())?;
        write_blanks(f, self.line, self.column)?;
        f.write_str("^")
    }
}

// The text up to its first break or NUL, but not more than is shown of a line.
fn write_line<W: fmt::Write>(f: &mut fmt::Formatter<W>, text: &str) -> fmt::Result
    ensures { WritesText W.write_str_gives f.old result (shown_line 80 (chars text.now)) f.new }
{
    let (mut rest, mut left) = (text, SHOWN);
    'shown: while let Some((c, after)) = first(rest) {
        if ends_line(c) {
            return Ok(());
        }
        if left == 0 {
            return f.write_str(LEFT_OUT);
        }
        f.write_char(visible(c))?;
        (rest, left) = (after, left - 1);
    }
    Ok(())
}

// A blank for each of the first characters: a TAB for a TAB, so that what comes next stands below the character after
// them.
fn write_blanks<W: fmt::Write>(f: &mut fmt::Formatter<W>, text: &str, count: usize) -> fmt::Result
    ensures { WritesText W.write_str_gives f.old result (map blank (take count (chars text.now))) f.new }
{
    let (mut rest, mut left) = (text, count);
    'blanks: while left > 0 {
        let Some((c, after)) = first(rest) else {
            return Ok(());
        };
        f.write_char(blank(c))?;
        (rest, left) = (after, left - 1);
    }
    Ok(())
}

fn blank(c: char) -> char
    ensures { result ≡ blank c }
{
    if c == '\t' { '\t' } else { ' ' }
}

// Control characters and those that turn the direction of a line would change what a terminal shows around them.
fn visible(c: char) -> char
    ensures { result ≡ visible c }
{
    match c {
        '\t' => c,
        '\u{0}'..='\u{1F}' | '\u{7F}'..='\u{9F}' => '\u{FFFD}',
        '\u{2028}'..='\u{202E}' | '\u{2066}'..='\u{2069}' | '\u{FEFF}' => '\u{FFFD}',
        _ => c,
    }
}
