//! Runs of ordinary characters of one line, and how far words of them go among bytes that are known to come.
ghost use Rattle.std.specs.Prelude.{◌≡◌, ◌≢◌, ◌+◌, ◌<◌, ◌≤◌, false, true, length, slice_index};
ghost use Rattle.yaml_chars.specs.Run.{stops};
ghost use Rattle.yaml_chars.specs.Words.{stops_beyond, stops_byte, begins_byte, AreWordsUpTo, AreWordsBetween, AreAscii, EndsAtAscii, IsWordBetween, LanesGo};

use crate::class::{is_blank_or_breakz, is_breakz, is_flow};
use crate::lanes::{LANES, has_beyond, line_lanes, word_lanes};

/// A run of ordinary characters of one line. None holds a line break or a NUL.
#[derive(Clone, Copy)]
pub enum Run {
    /// Up to the line's end.
    Line,
    /// In a quoted scalar: up to a blank, this quote or a backslash.
    Quoted(char),
    /// In a plain scalar: up to a blank or a colon, and inside a flow collection up to one of its indicators.
    Plain(bool),
}

/// Where words end among bytes, and whether one of these may be outside ASCII.
#[derive(Clone, Copy)]
pub(crate) struct Found {
    pub end: usize,
    pub beyond: bool,
}

impl Run {
    /// Whether the run ends before this character.
    #[inline(always)]
    #[tactic(auto, unfolding(crate::specs::Run::stops), using(crate::proofs::ClassLemmas::runs_some))]
    pub fn stops(self, c: char) -> bool
        ensures value { result ≡ stops self c }
        ensures some { result ≡ false → c ≢ 0 }
    {
        match self {
            Run::Line => is_breakz(c),
            Run::Quoted(quote) => is_blank_or_breakz(c) || c == quote || c == '\\',
            Run::Plain(flow) => is_blank_or_breakz(c) || c == ':' || flow && is_flow(c),
        }
    }

    /// Whether a byte is of a character of the run, whatever comes after it. Control characters are not looked at further:
    /// of them it says nothing. Bytes outside ASCII are all of the run, or where its quote is outside ASCII, none.
    #[inline(always)]
    #[tactic(auto, using(crate::proofs::WordsLemmas::ordinary_in_line, crate::proofs::WordsLemmas::ordinary_in_quotes, crate::proofs::WordsLemmas::ascii_in_quotes, crate::proofs::WordsLemmas::ordinary_in_plain))]
    fn is_ordinary(self, byte: u8) -> bool
        ensures goes { result ≡ true → stops_byte self byte ≡ false }
        ensures ascii { result ≡ false → stops_beyond self ≡ false → byte < 128 }
    {
        match self {
            Run::Line => byte >= b' ' && byte != 127,
            Run::Quoted(quote) => {
                byte > b' '
                    && byte != 127
                    && char::from(byte) != quote
                    && byte != b'\\'
                    && (byte < 128 || quote < '\u{80}')
            }
            Run::Plain(flow) => {
                byte > b' ' && byte != 127 && byte != b':' && !(flow && is_flow(char::from(byte)))
            }
        }
    }

    /// Whether a byte is of a character with which a word goes on after a lone blank.
    #[inline(always)]
    #[tactic(auto, using(crate::proofs::WordsLemmas::begins_in_line, crate::proofs::WordsLemmas::begins_in_quotes, crate::proofs::WordsLemmas::begins_in_plain))]
    fn is_first(self, byte: u8) -> bool
        ensures { result ≡ true → begins_byte self byte ≡ true }
    {
        match self {
            Run::Plain(_) => Run::Plain(true).is_ordinary(byte) && byte != b'#' && byte != b'-',
            _ => self.is_ordinary(byte),
        }
    }

    /// Where the ordinary characters that begin at a place end.
    #[inline(always)]
    fn word_end(self, bytes: &[u8], start: usize) -> Found
        requires { start ≤ length bytes.now }
        ensures word { IsWordBetween self bytes.now start result.end }
        ensures ascii { result.beyond ≡ false → AreAscii bytes.now start result.end }
        ensures ends { EndsAtAscii self bytes.now result.end }
    {
        let mut at = start;
        let mut beyond = false;
        'word: while at < bytes.len() && self.is_ordinary(bytes[at]) {
            beyond = beyond | (bytes[at] >= 128);
            at += 1;
        }
        Found { end: at, beyond }
    }

    /// With how many of the next sixteen bytes words surely go on.
    #[inline(always)]
    fn lanes_on(self, bytes: &[u8], at: usize) -> usize
        requires { at + 16 < length bytes.now }
        ensures within { result ≤ 16 }
        ensures goes { LanesGo self bytes.now at result }
    {
        match self {
            Run::Line => line_lanes(bytes, at),
            Run::Plain(false) => word_lanes(bytes, at, b':', b':'),
            Run::Quoted('"') => word_lanes(bytes, at, b'"', b'\\'),
            Run::Quoted('\'') => word_lanes(bytes, at, b'\'', b'\\'),
            _ => 0,
        }
    }

    /// How many of the next sixteen bytes are surely characters of words, or lone blanks between words.
    #[inline(always)]
    fn lanes(self, bytes: &[u8], at: usize) -> usize
        requires { at + 16 < length bytes.now }
        ensures within { result ≤ 16 }
        ensures words { AreWordsBetween self bytes.now at (at + result) }
    {
        let count = self.lanes_on(bytes, at);
        // A blank is left for what comes with the character after it.
        if count > 0 && bytes[at + count - 1] == b' ' {
            return count - 1;
        }
        count
    }

    /// The same of all bytes that come next, sixteen at a time.
    #[inline(always)]
    fn blocks(self, bytes: &[u8]) -> Found
        ensures words { AreWordsUpTo self bytes.now result.end }
        ensures ascii { result.beyond ≡ false → AreAscii bytes.now 0 result.end }
    {
        let mut at = 0;
        let mut beyond = false;
        'blocks: while bytes.len() - at > LANES {
            let count = self.lanes(bytes, at);
            beyond = beyond | has_beyond(bytes, at);
            at += count;
            if count + 1 < LANES {
                return Found { end: at, beyond };
            }
        }
        Found { end: at, beyond }
    }

    /// Whether a byte is of a character of the run, or a blank.
    #[inline(always)]
    fn is_near(self, byte: u8) -> bool {
        self.is_ordinary(byte) || byte == b' '
    }

    /// Whether words of four bytes or more may come. Where they do not, nothing more is looked at: a few characters are read
    /// faster one by one.
    #[inline(always)]
    pub(crate) fn may_begin(self, bytes: &[u8]) -> bool {
        bytes.len() >= 4
            && self.is_near(bytes[0])
            && self.is_near(bytes[1])
            && self.is_near(bytes[2])
            && self.is_near(bytes[3])
    }

    /// How many of the bytes that come next are characters of words, or lone blanks between words.
    #[inline(always)]
    pub(crate) fn words(self, bytes: &[u8]) -> Found
        ensures words { AreWordsUpTo self bytes.now result.end }
        ensures ascii { result.beyond ≡ false → AreAscii bytes.now 0 result.end }
        ensures ends { result.end ≢ 0 → EndsAtAscii self bytes.now result.end }
    {
        if !self.may_begin(bytes) {
            return Found {
                end: 0,
                beyond: false,
            };
        }
        let blocks = self.blocks(bytes);
        let first = self.word_end(bytes, blocks.end);
        let mut end = first.end;
        let mut beyond = blocks.beyond | first.beyond;
        'words: while end + 1 < bytes.len() && bytes[end] == b' ' && self.is_first(bytes[end + 1]) {
            let word = self.word_end(bytes, end + 2);
            beyond = beyond | (bytes[end + 1] >= 128) | word.beyond;
            end = word.end;
        }
        Found { end, beyond }
    }
}
