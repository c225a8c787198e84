//! The scanner's public calls.
ghost use Rattle.std.specs.Prelude.{◌≡◌, ◌≤◌, ◌<◌, ◌^◌, [], OnOk, OnErr, IfOk, IfErr, IfSome, IfNone, IsNone, IsOk, Ok, Err, Some, None, true, false};
ghost use Rattle.std.specs.Iterator.{at_most, IsFinite, size};
ghost use Rattle.yaml_chars.specs.Source.{CameFrom};
ghost use Rattle.yaml_chars.specs.WindowView.{HasNoNul};
ghost use Rattle.yaml_tokens.specs.Shown.{shown};
ghost use Rattle.yaml_scanner.specs.Scanned.{scanned, HandsOut, HandsBoth, HandsNothing, LeavesNoRow, Refuses, Scans};
ghost use Rattle.yaml_scanner.specs.Next.{GivesNext};
ghost use Rattle.defs_text.specs.Text.{string_chars};
ghost use Rattle.defs_token.specs.Token.{Style, Tok};

use crate::fetcher::{Backlog, Fetcher};
use crate::key_value::PlainNode;
use crate::scanner::Scanner;
use std::alloc::Global;
use yaml_chars::{Characters, Marker};
use yaml_tokens::{ScanError, ScanResult, Token};

#[tactic(auto, using(crate::proofs::FollowLemmas::scans_from))]
impl<T: Characters> Scanner<T> {
    /// A scanner of the characters that an iterator gives, up to its first `None` or NUL. It takes no memory.
    ///
    /// Conditions, which a proof must show: the iterator can be asked, comes to an end, and gives fewer than 2^63 characters.
    /// An iterator over a text in memory, such as `text.chars()`, meets them.
    pub fn new(alloc: Global, iter: T) -> Scanner<T>
        requires can { T.can_next iter }
        requires finite { IsFinite (T.remaining iter) }
        requires few { size (T.remaining iter) < 2 ^ 63 }
        ensures given { (scanned result).given ≡ [] }
        ensures fault { (scanned result).fault ≡ None }
        ensures started { (scanned result).started ≡ false }
        ensures ended { (scanned result).ended ≡ false }
        ensures scans { Scans (scanned result) }
        ensures start { result.start ≡ iter }
    {
        Scanner {
            fetcher: Fetcher::new(alloc, iter),
        }
    }

    /// Leaves room for so many tokens that wait. In a flow collection that may be a key all tokens wait until its bracket
    /// closes: a key may still come before the first of them. Where more tokens wait than there is room for, and another must be
    /// read before the first can be handed out, the fault is that of refused memory, and [`backlog`](Scanner::backlog) tells it
    /// from others.
    pub fn set_room(&mut self, tokens: usize)
        ensures { self.new ≡ self.old }
    {
        self.fetcher.room = tokens;
    }

    /// Where more tokens waited than there was room for, or `None`. It takes no memory.
    pub fn backlog(&self) -> Option<Backlog>
        ensures value { result ≡ (scanned self.now).backlog }
        ensures scans { Scans (scanned self.now) }
    {
        self.fetcher.backlog
    }

    /// The fault that is kept, or `None`. It takes no memory.
    pub fn get_error(&self) -> Option<ScanError>
        ensures { result ≡ (scanned self.now).fault }
    {
        Some(self.fetcher.fault.error(self.fetcher.kept?))
    }

    /// Whether the token of the stream's start was fetched.
    pub fn stream_started(&self) -> bool
        ensures value { result ≡ (scanned self.now).started }
        ensures no_nul { HasNoNul (scanned self.now).taken }
        ensures scans { Scans (scanned self.now) }
    {
        self.fetcher.window.note();
        self.fetcher.started
    }

    /// Whether the token of the stream's end was handed out.
    pub fn stream_ended(&self) -> bool
        ensures { result ≡ (scanned self.now).ended }
    {
        self.fetcher.tokens.is_over()
    }

    /// The position of the scanner: after the characters that it read as tokens so far. Once the stream's end was fetched,
    /// it is where a line begins, after the whole text.
    pub fn mark(&self) -> Marker
        ensures position { result ≡ (scanned self.now).position }
        ensures came { CameFrom T.next_gives self.now.start (scanned self.now).taken (scanned self.now).done }
        ensures no_nul { HasNoNul (scanned self.now).taken }
        ensures scans { Scans (scanned self.now) }
    {
        self.fetcher.window.note();
        self.fetcher.window.mark()
    }

    /// Fetches at least one token, for [`next_token`](Scanner::next_token) to hand out. Once the stream's end was
    /// fetched, it does nothing.
    ///
    /// # Errors
    ///
    /// The text's fault, or memory was refused. Either fault is kept, and tokens that wait are not handed out any more.
    pub fn fetch_next_token(&mut self) -> ScanResult
        ensures given { (scanned self.new).given ≡ (scanned self.old).given }
        ensures ended { (scanned self.new).ended ≡ (scanned self.old).ended }
        ensures ok { OnOk result (((scanned self.old).fault ≡ None) × ((scanned self.new).fault ≡ None)) }
        ensures less { OnOk result ((scanned self.old).stopped ≡ false → (scanned self.new).left < (scanned self.old).left) }
        ensures err { IfErr result (λ e. (scanned self.new).fault ≡ Some e) }
        ensures after { (scanned self.old).fault ≡ None → (scanned self.old).stopped ≡ true → (result ≡ Ok tt) × (self.new ≡ self.old) }
        ensures again { IfSome (scanned self.old).fault (λ f. (result ≡ Err f) × (self.new ≡ self.old)) }
        ensures scans { Scans (scanned self.new) }
        ensures start { self.new.start ≡ self.old.start }
    {
        if let Some(error) = self.get_error() {
            return Err(error);
        }
        if self.fetcher.tokens.has_ended() {
            return Ok(());
        }
        match self.fetcher.fetch_one() {
            Ok(()) => Ok(()),
            Err(_) => Err(self.fetcher.keep(true)),
        }
    }

    /// Fetches tokens until the next one can be handed out, because no `Key` may come before it any more. Once the
    /// stream's end was fetched, it does nothing.
    ///
    /// # Example
    ///
    /// ```
    /// let mut scanner = Scanner::new(alloc, "[a]".chars());
    /// scanner.fetch_next_token()?; // at least one
    /// scanner.fetch_more_tokens()?; // until the next one can be handed out
    /// assert_eq!(rt; scanner.mark().line(), 1);
    /// ```
    ///
    /// # Errors
    ///
    /// The text's fault, or memory was refused. Either fault is kept.
    pub fn fetch_more_tokens(&mut self) -> ScanResult
        ensures given { (scanned self.new).given ≡ (scanned self.old).given }
        ensures ended { (scanned self.new).ended ≡ (scanned self.old).ended }
        ensures left { OnOk result ((scanned self.new).left ≤ (scanned self.old).left) }
        ensures ready { OnOk result ((scanned self.new).stopped ≡ false → 0 < (scanned self.new).waiting) }
        ensures ok { OnOk result (((scanned self.old).fault ≡ None) × ((scanned self.new).fault ≡ None)) }
        ensures err { IfErr result (λ e. (scanned self.new).fault ≡ Some e) }
        ensures settled { OnErr result ((scanned self.old).fault ≡ None → (scanned self.new).early ≡ false) }
        ensures after { (scanned self.old).fault ≡ None → (scanned self.old).stopped ≡ true → (result ≡ Ok tt) × (self.new ≡ self.old) }
        ensures again { IfSome (scanned self.old).fault (λ f. (result ≡ Err f) × (self.new ≡ self.old)) }
        ensures scans { Scans (scanned self.new) }
        ensures start { self.new.start ≡ self.old.start }
    {
        if let Some(error) = self.get_error() {
            return Err(error);
        }
        match self.fetcher.fill() {
            Ok(()) => Ok(()),
            Err(_) => Err(self.fetcher.keep(false)),
        }
    }

    /// Hands out the next token, or `None` once the stream's end was handed out.
    ///
    /// # Errors
    ///
    /// The text's fault, or memory was refused. Either fault is kept: each later call returns it again, and tokens
    /// that were ready are not handed out any more. Once the stream's end was fetched, no fault comes, and no memory
    /// is taken.
    ///
    /// A fault that this call meets comes after all tokens that are settled before it (clause `settled`): those before which no key
    /// may come any more. Where [`fetch_next_token`](Scanner::fetch_next_token) met the fault, some of them may have been left.
    ///
    /// A text with a fault has no row of tokens, by the definitions alone (clause `rowless`). For most kinds of fault they also say
    /// where and why: a row may begin with all pieces up to a place, and there no piece begins, or the one that begins may not
    /// stand, as the fault says.
    pub fn next_token(&mut self) -> Result<Option<Token>, ScanError>
        ensures token { IfOk result (λ o. IfSome o (λ t. HandsOut (scanned self.old) (shown t) (scanned self.new))) }
        ensures none { IfOk result (λ o. IsNone o → HandsNothing (scanned self.old) (scanned self.new)) }
        ensures err { IfErr result (λ e. Refuses (scanned self.old) e (scanned self.new)) }
        ensures rowless { IfErr result (λ e. LeavesNoRow (scanned self.new) e) }
        ensures settled { OnErr result ((scanned self.old).fault ≡ None → (scanned self.new).early ≡ false) }
        ensures over { (scanned self.old).fault ≡ None → (scanned self.old).ended ≡ true → (result ≡ Ok None) × (self.new ≡ self.old) }
        ensures ready { (scanned self.old).fault ≡ None → (scanned self.old).stopped ≡ true → IsOk result }
        ensures again { IfSome (scanned self.old).fault (λ f. (result ≡ Err f) × (self.new ≡ self.old)) }
        ensures came { CameFrom T.next_gives self.new.start (scanned self.new).taken (scanned self.new).done }
        ensures no_nul { HasNoNul (scanned self.new).taken }
        ensures scans { Scans (scanned self.new) }
        ensures start { self.new.start ≡ self.old.start }
    {
        self.fetcher.window.note();
        if let Some(error) = self.get_error() {
            return Err(error);
        }
        if self.fetcher.tokens.is_over() {
            return Ok(None);
        }
        let filled = self.fetcher.fill();
        self.fetcher.window.note();
        match filled {
            Ok(()) => Ok(Some(self.fetcher.pop_token())),
            Err(_) => Err(self.fetcher.keep(false)),
        }
    }

    /// Hands out the `Key` and the scalar of a key of a block mapping by one call, where both are next and the key is a plain
    /// scalar on one line, not the mapping's first, of characters that are known to come. Else it is `None`, and nothing
    /// changes: [`next_token`](Scanner::next_token) then gives the next token, or the fault that is kept.
    ///
    /// # Errors
    ///
    /// Memory was refused. The fault is kept: each later call is `None`, and [`next_token`](Scanner::next_token) gives the fault
    /// again. Where a fault is kept, and once the stream's end was fetched, no fault comes, and no memory is taken.
    pub fn next_key(&mut self) -> Result<Option<PlainNode>, ScanError>
        ensures key { IfOk result (λ o. IfSome o (λ n. HandsBoth (scanned self.old) (record { position = n.indicator; tok = Tok.key }) (record { position = n.mark; tok = Tok.scalar Style.plain (string_chars n.text) }) (scanned self.new))) }
        ensures none { IfOk result (λ o. IfNone o (self.new ≡ self.old)) }
        ensures err { IfErr result (λ e. Refuses (scanned self.old) e (scanned self.new)) }
        ensures memory { IfErr result (λ e. e.memory ≡ true) }
        ensures over { (scanned self.old).ended ≡ true → (result ≡ Ok None) × (self.new ≡ self.old) }
        ensures ready { (scanned self.old).stopped ≡ true → (result ≡ Ok None) × (self.new ≡ self.old) }
        ensures again { IfSome (scanned self.old).fault (λ _. (result ≡ Ok None) × (self.new ≡ self.old)) }
        ensures scans { Scans (scanned self.new) }
        ensures start { self.new.start ≡ self.old.start }
    {
        match self.fetcher.next_key() {
            Ok(node) => Ok(node),
            Err(_) => Err(self.fetcher.keep(true)),
        }
    }

    /// Hands out the `Value` and the scalar of a value of a block mapping by one call, where both are next and the value is a
    /// plain scalar on one line, of characters that are known to come, before a line that is not deeper than the mapping.
    /// Else it is `None`, and nothing changes: [`next_token`](Scanner::next_token) then gives the next token, or the fault that is
    /// kept.
    ///
    /// # Errors
    ///
    /// Memory was refused. The fault is kept: each later call is `None`, and [`next_token`](Scanner::next_token) gives the fault
    /// again. Where a fault is kept, and once the stream's end was fetched, no fault comes, and no memory is taken.
    pub fn next_value(&mut self) -> Result<Option<PlainNode>, ScanError>
        ensures value { IfOk result (λ o. IfSome o (λ n. HandsBoth (scanned self.old) (record { position = n.indicator; tok = Tok.value }) (record { position = n.mark; tok = Tok.scalar Style.plain (string_chars n.text) }) (scanned self.new))) }
        ensures none { IfOk result (λ o. IfNone o (self.new ≡ self.old)) }
        ensures err { IfErr result (λ e. Refuses (scanned self.old) e (scanned self.new)) }
        ensures memory { IfErr result (λ e. e.memory ≡ true) }
        ensures over { (scanned self.old).ended ≡ true → (result ≡ Ok None) × (self.new ≡ self.old) }
        ensures ready { (scanned self.old).stopped ≡ true → (result ≡ Ok None) × (self.new ≡ self.old) }
        ensures again { IfSome (scanned self.old).fault (λ _. (result ≡ Ok None) × (self.new ≡ self.old)) }
        ensures scans { Scans (scanned self.new) }
        ensures start { self.new.start ≡ self.old.start }
    {
        match self.fetcher.next_value() {
            Ok(node) => Ok(node),
            Err(_) => Err(self.fetcher.keep(true)),
        }
    }
}

impl<T: Characters> Iterator for Scanner<T> {
    type Item = Token;

    ghost remaining = { λ s. at_most (scanned s).left };

    ghost next_gives = { λ a r b. GivesNext a r b };

    /// The next token. `None` comes at a fault, which is kept, and after the end of the stream. Where a fault was kept, and
    /// after the end, nothing changes.
    fn next(&mut self) -> Option<Token> {
        match self.next_token() {
            Ok(token) => token,
            Err(_) => None,
        }
    }
}
