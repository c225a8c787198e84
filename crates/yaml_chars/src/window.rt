ghost use Rattle.std.specs.Prelude.{◌≡◌, ◌≢◌, ℕ, ◌+◌, ◌-◌, ◌^◌, ◌<◌, ◌≤◌, [], ◌∷◌, ◌++◌, ◌==◌, ◌&&◌, true, false, length, drop, slice_index, IfSome, IfNone, OnSome, OnOk, OnErr};
ghost use Rattle.std.specs.Iterator.{IsFinite, size};
ghost use Rattle.yaml_chars.specs.Run.{stops, ran};
ghost use Rattle.yaml_chars.specs.Source.{CameFrom};
ghost use Rattle.yaml_chars.specs.Words.{TakesWords, PassesWords};
ghost use Rattle.yaml_chars.specs.WindowView.{position_of, Reads, Sees, HasChar, SamePosition, OneOn, after_char, after_break, after_line, HasNoNul};

use crate::characters::Characters;
use crate::marker::Marker;
use crate::ring::Ring;
use crate::run::Run;
use crate::source::{Filling, Ran, Source};
use crate::text_builder::TextBuilder;
use core::mem;
use std::alloc::AllocError;
use std::marker::Model;

/// The next characters of a text, at most 16 at a time. NULs stand after its end.
#[derive(Drop)]
pub struct Window<T: Characters> {
    pub(crate) source: Source<T>,
    pub(crate) ring: Ring,
    pub(crate) index: usize,
    pub(crate) line: usize,
    pub(crate) col: usize,
}

impl<T: Characters> Model for Window<T> {
    ghost use Rattle.std.specs.Prelude.{◌+◌, ◌-◌};
    ghost use Rattle.std.specs.Prelude.{length as list_len};
    ghost use Rattle.yaml_chars.specs.WindowView.{WindowView, Fills};

    ghost Value = { WindowView T };

    ghost view = { λ s. record {
      start = s.source.start;
      taken = s.source.taken;
      done = s.source.done;
      at = s.index;
      ahead = list_len s.ring;
      left = (list_len s.source.taken - s.index) + s.source.left;
      line = s.line;
      col = s.col;
    } };

    ghost invariant = { λ s. Fills s.source s.ring s.index s.line s.col };
}

impl<T: Characters> Window<T> {
    /// A window at the start of a text. Nothing is read yet.
    pub fn new(iter: T) -> Self
        requires can { T.can_next iter }
        requires finite { IsFinite (T.remaining iter) }
        requires few { size (T.remaining iter) < 2 ^ 63 }
        ensures { result ≡ record { start = iter; taken = []; done = false; at = 0; ahead = 0; left = size (T.remaining iter); line = 1; col = 0 } }
    {
        Window {
            source: Source::new(iter),
            ring: Ring::new(),
            index: 0,
            line: 1,
            col: 0,
        }
    }

    /// Sees to it that the next `n` characters are in the window.
    #[inline(always)]
    pub fn lookahead(&mut self, n: usize)
        requires { n ≤ 16 }
        ensures reads { Reads self.old self.new (λ a b. b ≡ a) }
        ensures position { SamePosition self.old self.new }
        ensures ahead { n ≤ self.new.ahead }
    {
        if self.len() >= n {
            return;
        }
        // Mostly one is missing, and is filled in without a call.
        self.fill_one();
        if self.len() < n {
            self.fill_to(n);
        }
    }

    // The same, where some are not in the window yet.
    #[inline(never)]
    fn fill_to(&mut self, n: usize)
        requires { n ≤ 16 }
        ensures reads { Reads self.old self.new (λ a b. b ≡ a) }
        ensures position { SamePosition self.old self.new }
        ensures ahead { n ≤ self.new.ahead }
    {
        while self.len() < n {
            self.fill_one();
        }
    }

    #[inline(always)]
    fn fill_one(&mut self)
        requires { self.old.ahead < 16 }
        ensures reads { Reads self.old self.new (λ a b. b ≡ a) }
        ensures position { SamePosition self.old self.new }
        ensures ahead { self.new.ahead ≡ self.old.ahead + 1 }
    {
        let c = self.source.next();
        self.ring.push(c);
    }

    /// How many characters are in the window.
    pub fn len(&self) -> usize
        ensures value { result ≡ self.now.ahead }
        ensures within { result ≤ 16 }
    {
        self.ring.len()
    }

    /// The character `i` positions on, or NUL after the end.
    pub fn peek(&self, i: usize) -> char
        requires { i < self.now.ahead }
        ensures sees { Sees self.now (λ a. result ≡ slice_index a i) }
        ensures has { result ≢ 0 → self.now.at + i < length self.now.taken }
        ensures ends { result ≡ 0 → Sees self.now (λ a. drop i a ≡ []) }
        ensures done { result ≡ 0 → self.now.done ≡ true }
    {
        self.ring.get(i)
    }

    /// The next character, or NUL after the end.
    pub fn ch(&self) -> char
        requires { 0 < self.now.ahead }
        ensures sees { Sees self.now (λ a. result ≡ slice_index a 0) }
        ensures has { result ≢ 0 → HasChar self.now }
        ensures ends { result ≡ 0 → Sees self.now (λ a. a ≡ []) }
        ensures done { result ≡ 0 → self.now.done ≡ true }
    {
        self.peek(0)
    }

    /// Whether a CR stands here with an LF after it, which are one line break.
    pub fn at_cr_lf(&self) -> bool
        requires { 1 < self.now.ahead }
        ensures sees { Sees self.now (λ a. result ≡ (slice_index a 0 == 13 && slice_index a 1 == 10)) }
        ensures has { result ≡ true → self.now.at + 1 < length self.now.taken }
    {
        self.ch() == '\r' && self.peek(1) == '\n'
    }

    /// The next character, which is then in the window.
    #[inline(always)]
    pub fn look_ch(&mut self) -> char
        ensures reads { Reads self.old self.new (λ a b. (b ≡ a) × (result ≡ slice_index b 0) × (result ≡ 0 → b ≡ [])) }
        ensures position { SamePosition self.old self.new }
        ensures ahead { 0 < self.new.ahead }
        ensures has { result ≢ 0 → HasChar self.new }
        ensures done { result ≡ 0 → self.new.done ≡ true }
    {
        if self.len() < 1 {
            self.fill_one();
        }
        self.ch()
    }

    /// Steps over a character that is no line break.
    pub fn skip(&mut self)
        requires ahead { 0 < self.old.ahead }
        requires has { HasChar self.old }
        ensures state { self.new ≡ after_char self.old }
        ensures less { self.new.left < self.old.left }
        ensures reads { Reads self.old self.new (λ a b. a ≡ slice_index a 0 ∷ b) }
    {
        self.ring.drop_first();
        self.index += 1;
        self.col += 1;
    }

    /// Takes the next character, where the run goes on with it; every other stays.
    #[inline(always)]
    pub fn take(&mut self, run: Run) -> Option<char>
        ensures taken { IfSome result (λ c. (stops run c ≡ false) × Reads self.old self.new (λ a b. a ≡ c ∷ b)) }
        ensures on { OnSome result (OneOn self.old self.new) }
        ensures stays { IfNone result (Reads self.old self.new (λ a b. (b ≡ a) × (stops run (slice_index b 0) ≡ true))) }
        ensures position { IfNone result (SamePosition self.old self.new) }
    {
        if self.len() == 0 {
            return self.take_from_source(run);
        }
        let c = self.ch();
        if run.stops(c) {
            return None;
        }
        self.skip();
        Some(c)
    }

    // The same, where nothing is in the window: the character need not go through it.
    #[inline(always)]
    fn take_from_source(&mut self, run: Run) -> Option<char>
        requires { self.old.ahead ≡ 0 }
        ensures taken { IfSome result (λ c. (stops run c ≡ false) × Reads self.old self.new (λ a b. a ≡ c ∷ b)) }
        ensures on { OnSome result (OneOn self.old self.new) }
        ensures stays { IfNone result (Reads self.old self.new (λ a b. (b ≡ a) × (stops run (slice_index b 0) ≡ true))) }
        ensures position { IfNone result (SamePosition self.old self.new) }
    {
        let c = self.source.next();
        if run.stops(c) {
            self.ring.push(c);
            return None;
        }
        (self.index, self.col) = (self.index + 1, self.col + 1);
        Some(c)
    }

    /// Takes the next character, if it is a space; every other stays.
    #[inline(always)]
    pub fn take_space(&mut self) -> bool
        ensures taken { result ≡ true → Reads self.old self.new (λ a b. a ≡ 32 ∷ b) }
        ensures on { result ≡ true → OneOn self.old self.new }
        ensures stays { result ≡ false → Reads self.old self.new (λ a b. (b ≡ a) × (slice_index b 0 ≢ 32)) }
        ensures position { result ≡ false → SamePosition self.old self.new }
    {
        if self.len() == 0 {
            return self.space_from_source();
        }
        if self.ch() != ' ' {
            return false;
        }
        self.skip();
        true
    }

    // The same, where nothing is in the window.
    #[inline(always)]
    fn space_from_source(&mut self) -> bool
        requires { self.old.ahead ≡ 0 }
        ensures taken { result ≡ true → Reads self.old self.new (λ a b. a ≡ 32 ∷ b) }
        ensures on { result ≡ true → OneOn self.old self.new }
        ensures stays { result ≡ false → Reads self.old self.new (λ a b. (b ≡ a) × (slice_index b 0 ≢ 32)) }
        ensures position { result ≡ false → SamePosition self.old self.new }
    {
        let c = self.source.next();
        if c != ' ' {
            self.ring.push(c);
            return false;
        }
        (self.col, self.index) = (self.col + 1, self.index + 1);
        true
    }

    /// Takes the characters of a run into a text. The one that ends it stays. Worth its while where
    /// runs are long, as a line is; words are taken faster by `take_word`.
    #[inline(always)]
    pub fn take_run(&mut self, run: Run, text: &mut TextBuilder) -> Result<(), AllocError>
        ensures ok { OnOk result (Reads self.old self.new (λ a b. ran run a (position_of self.old) text.old ≡ record { rest = b; position = position_of self.new; text = text.new })) }
        ensures err { OnErr result (Reads self.old self.new (λ _ _. Unit {0})) }
    {
        'held: while self.len() > 0 {
            let Some(c) = self.take(run) else {
                return Ok(());
            };
            text.push(c)?;
        }
        self.run_from_source(run, text)
    }

    // The same, where nothing is in the window.
    #[inline(always)]
    fn run_from_source(&mut self, run: Run, text: &mut TextBuilder) -> Result<(), AllocError>
        requires { self.old.ahead ≡ 0 }
        ensures ok { OnOk result (Reads self.old self.new (λ a b. ran run a (position_of self.old) text.old ≡ record { rest = b; position = position_of self.new; text = text.new })) }
        ensures err { OnErr result (Reads self.old self.new (λ _ _. Unit {0})) }
    {
        let filling = Filling {
            run,
            text: text.take(),
        };
        let ran = mem::replace_with(&mut self.source, filling, Source::run_on);
        let Ran {
            text: after,
            count,
            after: following,
            refused,
        } = ran;
        *text = after;
        self.index += count;
        self.col += count;
        self.ring.push(following);
        if refused {
            return Err(AllocError);
        }
        Ok(())
    }

    // Steps over the next character, where the run goes on with it.
    fn pass_one(&mut self, run: Run)
        ensures { Reads self.old self.new (λ _ _. Unit {0}) }
    {
        let _ = self.take(run);
    }

    /// The same for a word.
    #[inline(always)]
    pub fn take_word(&mut self, run: Run, text: &mut TextBuilder) -> Result<(), AllocError>
        ensures ok { OnOk result (Reads self.old self.new (λ a b. ran run a (position_of self.old) text.old ≡ record { rest = b; position = position_of self.new; text = text.new })) }
        ensures err { OnErr result (Reads self.old self.new (λ _ _. Unit {0})) }
    {
        'held: while self.len() > 0 {
            let Some(c) = self.take(run) else {
                return Ok(());
            };
            text.push(c)?;
        }
        self.word_from_source(run, text)
    }

    // The same, where nothing is in the window.
    #[inline(always)]
    fn word_from_source(&mut self, run: Run, text: &mut TextBuilder) -> Result<(), AllocError>
        requires { self.old.ahead ≡ 0 }
        ensures ok { OnOk result (Reads self.old self.new (λ a b. ran run a (position_of self.old) text.old ≡ record { rest = b; position = position_of self.new; text = text.new })) }
        ensures err { OnErr result (Reads self.old self.new (λ _ _. Unit {0})) }
    {
        let met = self.source.word_on(run, text);
        self.index += met.count;
        self.col += met.count;
        self.ring.push(met.after);
        if met.refused {
            // The character for which memory was refused counts as taken.
            self.pass_one(run);
            return Err(AllocError);
        }
        Ok(())
    }

    /// Takes words, and lone blanks between them, into a text, as far as they are in the window or known to come. It may
    /// take none. The result is whether some were known.
    #[inline(always)]
    pub fn take_words(&mut self, run: Run, text: &mut TextBuilder) -> Result<bool, AllocError>
        ensures ok { OnOk result (Reads self.old self.new (λ a b. TakesWords run a b (position_of self.old) (position_of self.new) text.old text.new)) }
        ensures err { OnErr result (Reads self.old self.new (λ _ _. Unit {0})) }
    {
        'held: while self.len() > 0 {
            let Some(c) = self.take(run) else {
                return Ok(false);
            };
            text.push(c)?;
        }
        self.words_from_source(run, text)
    }

    // The same, where nothing is in the window.
    #[inline(always)]
    fn words_from_source(&mut self, run: Run, text: &mut TextBuilder) -> Result<bool, AllocError>
        requires { self.old.ahead ≡ 0 }
        ensures ok { OnOk result (Reads self.old self.new (λ a b. TakesWords run a b (position_of self.old) (position_of self.new) text.old text.new)) }
        ensures err { OnErr result (Reads self.old self.new (λ _ _. Unit {0})) }
    {
        let count = self.source.words_on(run, text)?;
        self.index += count;
        self.col += count;
        Ok(count > 0)
    }

    /// Steps over words, and lone blanks between them, as far as they are known to come. It may step over none, and does
    /// so where something is in the window.
    #[inline(always)]
    pub fn pass_words(&mut self, run: Run)
        ensures { Reads self.old self.new (λ a b. PassesWords run a b (position_of self.old) (position_of self.new)) }
    {
        if self.len() > 0 {
            return;
        }
        let count = self.source.pass_words(run);
        self.index += count;
        self.col += count;
    }

    /// Steps over a line break.
    pub fn skip_break(&mut self)
        requires ahead { 0 < self.old.ahead }
        requires has { HasChar self.old }
        ensures state { self.new ≡ after_break self.old }
        ensures less { self.new.left < self.old.left }
        ensures reads { Reads self.old self.new (λ a b. a ≡ slice_index a 0 ∷ b) }
    {
        self.ring.drop_first();
        self.index += 1;
        self.line += 1;
        self.col = 0;
    }

    /// Goes on at the beginning of the next line, as if a break ended this one. No character is taken.
    pub fn end_line(&mut self)
        ensures state { self.new ≡ after_line self.old }
        ensures reads { Reads self.old self.new (λ a b. b ≡ a) }
    {
        if self.col != 0 {
            self.line += 1;
            self.col = 0;
        }
    }

    /// Where the window stands.
    pub fn mark(&self) -> Marker
        ensures { result ≡ position_of self.now }
    {
        Marker::new(self.index, self.line, self.col)
    }

    /// What was taken is what the iterator gave, and no NUL is in it.
    pub fn note(&self)
        ensures came { CameFrom T.next_gives self.now.start self.now.taken self.now.done }
        ensures no_nul { HasNoNul self.now.taken }
    {
        self.source.note();
    }
}
