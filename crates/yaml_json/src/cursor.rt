//! A place in a text, and the steps that move it.
ghost use Rattle.std.specs.Prelude.{◌≡◌, ◌<◌, true, false, [], IsTrue, IfSome, chars};
ghost use Rattle.std.specs.List.{list_all};
ghost use Rattle.yaml_json.specs.Runs.{is_ascii};
ghost use Rattle.yaml_json.specs.Reads.{IsAsciiFirst, IsFirst, Skips, Takes, IsGap, TakesBlank, TakesWord, IsRun, IsNumber};

use crate::digits::after_number;
use crate::run::run_length;
use std::marker::Model;

/// How much white space at a text's start is passed over: a text with more is not read as JSON, so that empty lines before another text
/// are not looked at twice.
const FIRST_BLANKS: usize = 64;

/// A place in a text. Clauses see the characters that stand behind it.
#[derive(Drop)]
pub(crate) struct Cursor<'a> {
    rest: &'a str,
}

impl<'a> Model for Cursor<'a> {
    ghost use Rattle.std.specs.Prelude.{List, ℕ, chars, IsUtf8};

    ghost Value = { List ℕ };

    ghost view = { λ c. chars c.rest.now };

    ghost invariant = { λ c. IsUtf8 c.rest.now };
}

impl<'a> Cursor<'a> {
    /// At the start of a text.
    pub(crate) fn new(text: &'a str) -> Cursor<'a>
        ensures { result ≡ chars text.now }
    {
        Cursor { rest: text }
    }

    /// The text that stands behind the place.
    pub(crate) fn rest(&self) -> &'a str {
        self.rest
    }

    /// Whether the text ends here.
    #[tactic(auto, using(crate::proofs::TextLemmas::nothing_left))]
    pub(crate) fn is_at_end(&self) -> bool
        ensures { IsTrue result → self.now ≡ [] }
    {
        self.rest.is_empty()
    }

    /// The next byte, or 0 at the end.
    #[inline(always)]
    pub(crate) fn peek(&self) -> u8
        ensures { 0 < result → result < 128 → IsFirst result self.now }
    {
        match self.rest.as_bytes() {
            [first, ..] => *first,
            [] => 0,
        }
    }

    /// Goes on behind the character of ASCII that stands here.
    #[inline(always)]
    pub(crate) fn skip(&mut self)
        requires { IsAsciiFirst self.old }
        ensures { Skips self.old self.new }
    {
        let (_, rest) = self.rest.split_at(1);
        self.rest = rest;
    }

    /// Goes on behind this character of ASCII, if it stands here. The result tells whether it did.
    #[inline(always)]
    pub(crate) fn take(&mut self, character: u8) -> bool
        requires some { 0 < character }
        requires ascii { character < 128 }
        ensures { Takes result character self.old self.new }
    {
        if self.peek() != character {
            return false;
        }
        self.skip();
        true
    }

    /// Goes on behind the characters that stand as they are in a JSON string, and gives them.
    #[inline(always)]
    pub(crate) fn take_run(&mut self) -> &'a str
        ensures { IsRun (chars result.now) self.old self.new }
    {
        let (run, rest) = self.rest.split_at(run_length(self.rest.as_bytes()));
        self.rest = rest;
        run
    }

    /// Goes on behind the white space that stands here. A TAB is none, unless a line begins before it and nothing but blanks
    /// stands between.
    #[inline(always)]
    pub(crate) fn skip_gap(&mut self)
        ensures { IsGap false self.old self.new }
    {
        if self.peek() > b' ' {
            return;
        }
        self.skip_blanks();
    }

    /// The same at the start of a text, where a line begins; at most the first [`FIRST_BLANKS`] bytes of it.
    #[inline(always)]
    pub(crate) fn skip_first_gap(&mut self)
        ensures { IsGap true self.old self.new }
    {
        if self.peek() > b' ' {
            return;
        }
        self.skip_first_blanks();
    }

    #[inline(never)]
    fn skip_first_blanks(&mut self)
        ensures { IsGap true self.old self.new }
    {
        let mut begins = true;
        'blanks: for _ in 0..FIRST_BLANKS {
            match self.take_blank(begins) {
                Some(next) => begins = next,
                None => return,
            }
        }
    }

    #[inline(never)]
    fn skip_blanks(&mut self)
        ensures { IsGap false self.old self.new }
    {
        let mut begins = false;
        'blanks: while let Some(next) = self.take_blank(begins) {
            begins = next;
        }
    }

    // Goes on behind the blank that stands here, if one does. The result tells whether a line begins behind it.
    #[inline(always)]
    fn take_blank(&mut self, at_beginning: bool) -> Option<bool>
        ensures { TakesBlank result at_beginning self.old self.new }
    {
        if self.take(b' ') {
            return Some(at_beginning);
        }
        if self.take(b'\n') {
            return Some(true);
        }
        if self.take(b'\r') {
            return Some(true);
        }
        if at_beginning && self.take(b'\t') {
            return Some(true);
        }
        None
    }

    /// Goes on behind this word of ASCII, if it stands here. The result tells whether it did.
    #[tactic(auto, using(crate::proofs::TextLemmas::behind_word))]
    pub(crate) fn take_word(&mut self, word: &str) -> bool
        requires { list_all is_ascii word.now ≡ true }
        ensures { TakesWord result word.now self.old self.new }
    {
        match self.rest.strip_prefix(word) {
            Some(rest) => {
                self.rest = rest;
                true
            }
            None => false,
        }
    }

    /// Goes on behind the JSON number that stands here, and gives its text.
    #[inline(always)]
    pub(crate) fn take_number(&mut self) -> Option<&'a str>
        ensures { IfSome result (λ text. IsNumber (chars text.now) self.old self.new) }
    {
        let bytes = self.rest.as_bytes();
        let after = after_number(bytes)?;
        let (number, rest) = self.rest.split_at(bytes.len() - after.len());
        self.rest = rest;
        Some(number)
    }
}
