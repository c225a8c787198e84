//! Keys of block mappings, and other plain scalars of one line, whose characters are known to come. Each is fetched at once,
//! and a key with the `:` after it.
ghost use Rattle.std.specs.Prelude.{◌≡◌, ◌<◌, ◌≤◌, IfOk, IfErr, IfSome, true, false};
ghost use Rattle.defs_text.specs.Text.{string_chars};
ghost use Rattle.model_scanner.specs.Indents.{unroll_non_block_indents};
ghost use Rattle.yaml_chars.specs.WindowView.{Reads};
ghost use Rattle.yaml_scanner.specs.Awaits.{AwaitsNode, StandsAt};
ghost use Rattle.yaml_scanner.specs.Fetched.{Fetched, fetch_rest, with_key};
ghost use Rattle.yaml_scanner.specs.Runs.{Becomes};
ghost use Rattle.yaml_scanner.specs.Work.{Fetches, Moves};
ghost use Rattle.yaml_scanner.specs.Tokens.{waiting};

use crate::fetcher::{Failed, Fetcher};
use model_scanner::Collection;
use yaml_chars::{BlockLine, Characters, Marker, opens_simple};
use yaml_tokens::{Fault, TScalarStyle, TokenType};

impl<T: Characters> Fetcher<T> {
    /// Whether a key's tokens stand behind so few others that they need no more room than the queue has had since its first token,
    /// which is that of four. A key is three tokens, and a fourth begins its mapping. So no memory is asked for before the tokens
    /// that wait are handed out.
    fn has_room(&self) -> bool
        ensures waits { result ≡ true → waiting self.now.tokens ≤ 1 }
        ensures behind { result ≡ true → 0 < waiting self.now.tokens → StandsAt self.now.window.col true self.now.levels }
    {
        match self.tokens.len() {
            0 => true,
            1 => {
                self.levels.needs_block_end()
                    && self.levels.indent() == self.window.mark().col() + 1
            }
            _ => false,
        }
    }

    /// Where a key may begin here, no token before may still become one, at most one token waits, the next character is one that a
    /// simple text may begin with, and the levels let a key or another scalar begin: the next line ends the scalar if it begins with
    /// fewer spaces than this. It is 0 where only a key may begin; so too where no collection is open, since no line ends a scalar
    /// there by its indentation.
    #[tactic(auto, using(crate::proofs::NodeFollows::stands_deeper, crate::proofs::NodeFollows::stands_there, crate::proofs::NodeFollows::stands_outside, crate::proofs::NodeFollows::stands_open))]
    fn awaits_node(&self) -> Option<usize>
        requires { 0 < self.now.window.ahead }
        ensures { IfSome result (λ limit. AwaitsNode self.now limit) }
    {
        if !self.key_allowed || !opens_simple(self.window.ch()) {
            return None;
        }
        if self.in_flow() || !self.keys.has_none() || !self.has_room() {
            return None;
        }
        let here = self.window.mark().col() + 1;
        let indent = self.levels.indent();
        if indent > here {
            return None;
        }
        if self.levels.needs_block_end() {
            return Some(if indent < here { indent } else { 0 });
        }
        if self.levels.is_empty() {
            return if indent < here { Some(0) } else { None };
        }
        let outer = self.levels.value_level()?;
        if outer < here { Some(outer) } else { None }
    }

    /// Fetches a key that was read, with its `:`, and its mapping's start if the key is the first. The start has the position
    /// of the `:`.
    fn push_key(&mut self, mark: Marker, key: String) -> Result<(), Failed>
        ensures { Becomes (with_key mark (string_chars key)) self.old result self.new 6 }
    {
        let colon = self.window.mark().back();
        self.unroll_non_block_indents();
        self.roll_indent(mark.col(), None, Collection::Mapping, colon)?;
        self.roll_one_col_indent()?;
        self.key_allowed = false;
        self.leading = false;
        self.push_token(mark, TokenType::Key)?;
        self.push_token(mark, TokenType::Scalar(TScalarStyle::Plain, key))?;
        self.push_token(colon, TokenType::Value)
    }

    /// Fetches a key with its `:`, or another plain scalar of one line, where its characters are known to come, and before this
    /// fetch no token waited and none might have become a key (`no_open_key`): else the text is read no further than such a token
    /// needs. The result is whether it did; where not, nothing changed.
    #[inline(always)]
    pub(crate) fn fetch_node(&mut self, no_open_key: bool) -> Result<bool, Failed>
        requires started { self.old.started ≡ true }
        requires going { self.old.tokens.ended ≡ false }
        requires ahead { 0 < self.old.window.ahead }
        ensures does { IfOk result (λ fetched. fetched ≡ true → Fetched fetch_rest self.old result self.new) }
        ensures none { IfOk result (λ fetched. fetched ≡ false → self.new ≡ self.old) }
        ensures memory { IfErr result (λ _. self.new.fault ≡ Fault.OutOfMemory) }
        ensures reads { IfErr result (λ _. Reads self.old.window self.new.window (λ _ _. Unit {0})) }
        ensures bounds { IfOk result (λ fetched. fetched ≡ true → Moves self.old self.new 6 16) }
        ensures run { Fetches self.old self.new }
    {
        if !no_open_key {
            return Ok(false);
        }
        let Some(limit) = self.awaits_node() else {
            return Ok(false);
        };
        let mark = self.window.mark();
        match self.window.take_node(self.alloc, limit) {
            Ok(Some(BlockLine::Key(key))) => {
                self.push_key(mark, key.into_string())?;
                Ok(true)
            }
            Ok(Some(BlockLine::Scalar(text))) => {
                let text = text.into_string();
                self.unroll_non_block_indents();
                // The break after it was read too.
                self.leading = true;
                self.push_token(mark, TokenType::Scalar(TScalarStyle::Plain, text))?;
                Ok(true)
            }
            Ok(None) => Ok(false),
            Err(_) => Err(self.fail(Fault::OutOfMemory)),
        }
    }
}
