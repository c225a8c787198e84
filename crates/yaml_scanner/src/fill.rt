//! Fetching as far as the next token needs, and handing it out.
ghost use Rattle.std.specs.Prelude.{◌≡◌, ◌≤◌, ◌<◌, ◌||◌, OnOk, IfErr, Ok, Some, None, Bool, true, false};
ghost use Rattle.std.specs.List.{list_any};
ghost use Rattle.defs_text.specs.Position.{Position};
ghost use Rattle.yaml_tokens.specs.Shown.{shown};
ghost use Rattle.yaml_scanner.specs.Follows.{Follows, IsShort};
ghost use Rattle.yaml_scanner.specs.ImplicitKeys.{is_front};
ghost use Rattle.yaml_scanner.specs.Scanned.{inside, HandsOut};
ghost use Rattle.yaml_scanner.specs.Tokens.{waiting, handed};
ghost use Rattle.yaml_scanner.specs.Work.{Fetches, Fills, work};
ghost use Rattle.yaml_scanner.specs.declared.fetcher.Backlog.{Backlog};

use crate::fetcher::{Backlog, Failed, Fetcher};
use yaml_chars::Characters;
use yaml_tokens::{Fault, ScanError, Token};

impl<T: Characters> Fetcher<T> {
    /// Keeps the fault that was met, and whether tokens may wait that could be handed out.
    #[tactic(auto, using(crate::proofs::PairFollows::memory_kept))]
    pub(crate) fn keep(&mut self, early: bool) -> ScanError
        requires follows { (mark : Position) → Follows (record self.old { kept = Some mark; early = early }) }
        ensures kept { (inside self.new).fault ≡ Some result }
        ensures same { inside self.new ≡ record (inside self.old) { fault = Some result; early = early } }
        ensures memory { self.old.fault ≡ Fault.OutOfMemory → result.memory ≡ true }
        ensures follows { Follows self.new }
        ensures window { self.new.window ≡ self.old.window }
    {
        let mark = self.window.mark();
        self.kept = Some(mark);
        self.early = early;
        self.fault.error(mark)
    }

    /// Fetches the next token, or several.
    pub(crate) fn fetch_one(&mut self) -> Result<(), Failed>
        requires kept { self.old.kept ≡ None }
        requires going { self.old.tokens.ended ≡ false }
        requires follows { Follows self.old }
        ensures run { Fetches self.old self.new }
        ensures start { self.new.window.start ≡ self.old.window.start }
        ensures less { OnOk result (work self.new < work self.old) }
        ensures ok { OnOk result (Follows self.new) }
        ensures err { IfErr result (λ _. (mark : Position) (early : Bool) → (early ≡ false → IsShort self.old) → Follows (record self.new { kept = Some mark; early = early })) }
    {
        if !self.started {
            return self.fetch_stream_start();
        }
        self.fetch_next()
    }

    /// Fetches tokens until the next one can be handed out: until no key may come before it. Where more wait before that than
    /// there is room for, the fault is that of refused memory.
    #[inline(always)]
    pub(crate) fn fill(&mut self) -> Result<(), Failed>
        requires kept { self.old.kept ≡ None }
        requires follows { Follows self.old }
        ensures run { Fills self.old self.new }
        ensures start { self.new.window.start ≡ self.old.window.start }
        ensures left { OnOk result (work self.new ≤ work self.old) }
        ensures some { OnOk result (self.new.tokens.ended ≡ false → 0 < waiting self.new.tokens) }
        ensures front { OnOk result (self.new.tokens.ended ≡ false → list_any is_front self.new.keys ≡ false) }
        ensures after { self.old.tokens.ended ≡ true → (result ≡ Ok tt) × (self.new ≡ self.old) }
        ensures ok { OnOk result (Follows self.new) }
        ensures err { IfErr result (λ _. (mark : Position) → Follows (record self.new { kept = Some mark; early = false })) }
    {
        if self.is_ready() {
            return Ok(());
        }
        self.fill_more()
    }

    // The same, where no token is ready.
    #[inline(never)]
    fn fill_more(&mut self) -> Result<(), Failed>
        requires kept { self.old.kept ≡ None }
        requires follows { Follows self.old }
        ensures run { Fills self.old self.new }
        ensures start { self.new.window.start ≡ self.old.window.start }
        ensures left { OnOk result (work self.new ≤ work self.old) }
        ensures some { OnOk result (self.new.tokens.ended ≡ false → 0 < waiting self.new.tokens) }
        ensures front { OnOk result (self.new.tokens.ended ≡ false → list_any is_front self.new.keys ≡ false) }
        ensures after { self.old.tokens.ended ≡ true → (result ≡ Ok tt) × (self.new ≡ self.old) }
        ensures ok { OnOk result (Follows self.new) }
        ensures err { IfErr result (λ _. (mark : Position) → Follows (record self.new { kept = Some mark; early = false })) }
    {
        'tokens: while !self.is_ready() {
            if self.tokens.len() > self.room {
                return Err(self.hold_up());
            }
            if let Err(failed) = self.fetch_one() {
                return Err(failed);
            }
        }
        Ok(())
    }

    /// Notes the tokens that wait, where there is no room for them.
    #[inline(never)]
    fn hold_up(&mut self) -> Failed
        requires kept { self.old.kept ≡ None }
        requires going { self.old.tokens.ended ≡ false }
        requires front { list_any is_front self.old.keys ≡ true }
        requires follows { Follows self.old }
        ensures run { Fills self.old self.new }
        ensures start { self.new.window.start ≡ self.old.window.start }
        ensures err { (mark : Position) → Follows (record self.new { kept = Some mark; early = false }) }
    {
        self.backlog = Some(Backlog {
            mark: self.window.mark(),
            tokens: self.tokens.len(),
        });
        self.fault = Fault::OutOfMemory;
        Failed
    }

    /// Whether the next token can be handed out, since no key may come before it any more, or the stream's end was fetched.
    fn is_ready(&self) -> bool
        ensures ended { result ≡ false → self.now.tokens.ended ≡ false }
        ensures waits { result ≡ false → IsShort self.now }
        ensures some { result ≡ true → self.now.tokens.ended ≡ false → 0 < waiting self.now.tokens }
        ensures front { result ≡ true → self.now.tokens.ended ≡ false → list_any is_front self.now.keys ≡ false }
    {
        self.tokens.has_ended() || self.tokens.len() > 0 && !self.keys.may_precede()
    }

    /// Hands out the next token.
    #[inline(always)]
    pub(crate) fn pop_token(&mut self) -> Token
        requires kept { self.old.kept ≡ None }
        requires going { self.old.tokens.over ≡ false }
        requires some { self.old.tokens.ended ≡ false → 0 < waiting self.old.tokens }
        requires front { self.old.tokens.ended ≡ false → list_any is_front self.old.keys ≡ false }
        requires follows { Follows self.old }
        ensures token { HandsOut (inside self.old) (shown result) (inside self.new) }
        ensures follows { Follows self.new }
        ensures window { self.new.window ≡ self.old.window }
    {
        self.keys.lower();
        let Some(token) = self.tokens.pop() else {
            unreachable!()
        };
        token
    }
}
