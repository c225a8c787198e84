//! Keys and values of block mappings that are plain scalars on one line: each is handed out with the token before it by
//! one call, where its characters are known to come.
ghost use Rattle.std.specs.Prelude.{◌≡◌, ◌<◌, ◌+◌, ◌-◌, ◌++◌, ◌∷◌, [], OnOk, OnErr, IfOk, IfErr, IfSome, IfNone, Some, None, Ok, true, false};
ghost use Rattle.defs_text.specs.Position.{Position};
ghost use Rattle.defs_text.specs.Text.{string_chars};
ghost use Rattle.defs_token.specs.Token.{Style, Tok};
ghost use Rattle.model_scanner.specs.Machine.{past};
ghost use Rattle.model_scanner.specs.State.{token};
ghost use Rattle.model_scanner.specs.Keys.{top_needs_block_end};
ghost use Rattle.model_scanner.specs.Indents.{level};
ghost use Rattle.yaml_chars.specs.WindowView.{position_of};
ghost use Rattle.yaml_scanner.specs.Levels.{ends_open};
ghost use Rattle.yaml_scanner.specs.Tokens.{waiting, handed, key_tokens};
ghost use Rattle.yaml_scanner.specs.Awaits.{IsSettled, AwaitsKey, AwaitsValue, levels_after};
ghost use Rattle.yaml_scanner.specs.Follows.{Follows};
ghost use Rattle.yaml_chars.specs.BlockLines.{TakesKey, TakesValue};
ghost use Rattle.yaml_scanner.specs.Scanned.{inside, HandsBoth};
ghost use Rattle.yaml_scanner.specs.Work.{Fetches};

use crate::fetcher::{Failed, Fetcher};
use std::alloc::{AllocError, Global};
use yaml_chars::text_builder::TextBuilder;
use yaml_chars::{Characters, Marker, Window};
use yaml_tokens::Fault;

/// A plain scalar, and where the token before it stands: a `Key` or a `Value`. For a key both positions are the same.
#[derive(Drop)]
pub struct PlainNode {
    /// Where the `Key` or the `Value` stands.
    pub indicator: Marker,
    /// Where the scalar begins.
    pub mark: Marker,
    /// The scalar's text.
    pub text: String,
}

/// Takes a key and the `:` after it, where their characters are known to come. With the key comes the position of its `:`.
#[inline(always)]
fn take_key<T: Characters>(
    window: &mut Window<T>,
    alloc: Global,
) -> Result<Option<(TextBuilder, Marker)>, AllocError>
    ensures key { IfOk result (λ o. IfSome o (λ k. TakesKey window.old window.new k.0)) }
    ensures colon { IfOk result (λ o. IfSome o (λ k. k.1 ≡ record { index = window.new.at - 1; line = window.new.line; col = window.new.col - 1 })) }
    ensures none { IfOk result (λ o. IfNone o (window.new ≡ window.old)) }
    ensures err { OnErr result (window.new ≡ window.old) }
{
    let Some(key) = window.take_key(alloc)? else {
        return Ok(None);
    };
    let colon = window.mark().back();
    Ok(Some((key, colon)))
}

/// Takes a value between a space and a line feed, and the next line's spaces, fewer than the limit, where their characters
/// are known to come. With the value comes its position.
#[inline(always)]
fn take_value<T: Characters>(
    window: &mut Window<T>,
    alloc: Global,
    limit: usize,
) -> Result<Option<(TextBuilder, Marker)>, AllocError>
    ensures value { IfOk result (λ o. IfSome o (λ v. TakesValue limit window.old window.new v.0)) }
    ensures mark { IfOk result (λ o. IfSome o (λ v. v.1 ≡ past (position_of window.old))) }
    ensures none { IfOk result (λ o. IfNone o (window.new ≡ window.old)) }
    ensures err { OnErr result (window.new ≡ window.old) }
{
    let Some(mark) = window.mark().past() else {
        return Ok(None);
    };
    let Some(value) = window.take_value(alloc, limit)? else {
        return Ok(None);
    };
    Ok(Some((value, mark)))
}

impl<T: Characters> Fetcher<T> {
    /// Whether this is inside the stream and outside flow, no fault is kept, and nothing may be a key.
    fn is_settled(&self) -> bool
        ensures { result ≡ true → IsSettled self.now }
    {
        self.started
            && self.keys.has_none()
            && !self.in_flow()
            && self.kept.is_none()
            && !self.tokens.has_ended()
            && !self.tokens.is_over()
    }

    /// Where no token waits, and a key may begin here, where the innermost block collection stands: whether the key opens a
    /// level for its value. It does not where the value before has left such a level open.
    fn awaits_key(&self) -> Option<bool>
        ensures { IfSome result (λ opens. AwaitsKey self.now opens) }
    {
        if !self.key_allowed || self.tokens.len() > 0 || !self.is_settled() {
            return None;
        }
        let col = self.window.mark().col();
        if self.levels.needs_block_end() {
            return if self.levels.indent() == col + 1 {
                Some(true)
            } else {
                None
            };
        }
        let outer = self.levels.value_level()?;
        if outer != col + 1 || self.levels.indent() != col + 2 {
            return None;
        }
        Some(false)
    }

    /// Where a `Value` alone waits, and what comes next stands deeper than the block collection outside: the position of
    /// the `Value`, and the column of that collection.
    fn awaits_value(&self) -> Option<(Marker, usize)>
        ensures { IfSome result (λ v. AwaitsValue self.now v.0 v.1) }
    {
        if self.key_allowed || !self.is_settled() {
            return None;
        }
        let limit = self.levels.value_level()?;
        let deepest = self.window.mark().col() + 2;
        if limit > deepest || self.levels.indent() > deepest {
            return None;
        }
        let value = self.tokens.lone_value()?;
        Some((value, limit))
    }

    /// Hands out the `Key` and the scalar of a key that was read, and lets its `:` wait. The level of its value is opened,
    /// or is open.
    fn hand_key(
        &mut self,
        mark: Marker,
        key: String,
        colon: Marker,
        opens: bool,
    ) -> Result<String, Failed>
        requires waits { waiting self.old.tokens ≡ 0 }
        requires block { opens ≡ true → top_needs_block_end self.old.levels.indents ≡ true }
        ensures ok { OnOk result (self.new ≡ record self.old { tokens = record self.old.tokens { all = self.old.tokens.all ++ key_tokens mark (string_chars key) colon; given = self.old.tokens.given + 2 }; levels = levels_after opens self.old.levels; key_allowed = false; leading = false }) }
        ensures text { IfOk result (λ t. string_chars t ≡ string_chars key) }
        ensures err { IfErr result (λ _. self.new.fault ≡ Fault.OutOfMemory) }
        ensures run { IfErr result (λ _. Fetches self.old self.new) }
        ensures window { self.new.window ≡ self.old.window }
    {
        if opens {
            if let Err(_) = self.levels.push_open() {
                return Err(self.fail(Fault::OutOfMemory));
            }
        }
        self.key_allowed = false;
        self.leading = false;
        match self.tokens.pass_key(mark, key, colon) {
            Ok(text) => Ok(text),
            Err(_) => Err(self.fail(Fault::OutOfMemory)),
        }
    }

    /// Hands out the `Value` that waits and the scalar of a value that was read, with the break after it.
    fn hand_value(&mut self, mark: Marker, value: String) -> String
        requires waits { (p : Position) × (self.old.tokens.all ≡ handed self.old.tokens ++ token p Tok.value ∷ []) }
        requires opened { ends_open self.old.levels.indents ≡ true }
        ensures held { self.new ≡ record self.old { tokens = record self.old.tokens { all = self.old.tokens.all ++ token mark (Tok.scalar Style.plain (string_chars value)) ∷ []; given = self.old.tokens.given + 2 }; levels = self.new.levels; key_allowed = true; leading = true } }
        ensures levels { self.old.levels.indents ≡ level self.new.levels.indent false ∷ self.new.levels.indents }
        ensures text { string_chars result ≡ string_chars value }
    {
        let _ = self.levels.pop();
        self.key_allowed = true;
        self.leading = true;
        self.tokens.pass_value(mark, value)
    }

    /// Hands out the `Key` and the scalar of a key that stands here, and lets its `:` wait. `None` changes nothing.
    #[inline(always)]
    pub(crate) fn next_key(&mut self) -> Result<Option<PlainNode>, Failed>
        requires { Follows self.old }
        ensures key { IfOk result (λ o. IfSome o (λ n. HandsBoth (inside self.old) (token n.indicator Tok.key) (token n.mark (Tok.scalar Style.plain (string_chars n.text))) (inside self.new))) }
        ensures none { IfOk result (λ o. IfNone o (self.new ≡ self.old)) }
        ensures ok { OnOk result (Follows self.new) }
        ensures run { IfErr result (λ _. Fetches self.old self.new) }
        ensures err { IfErr result (λ _. (mark : Position) → Follows (record self.new { kept = Some mark; early = true })) }
        ensures memory { IfErr result (λ _. self.new.fault ≡ Fault.OutOfMemory) }
        ensures over { self.old.tokens.over ≡ true → (result ≡ Ok None) × (self.new ≡ self.old) }
        ensures ready { self.old.tokens.ended ≡ true → (result ≡ Ok None) × (self.new ≡ self.old) }
        ensures again { IfSome self.old.kept (λ _. (result ≡ Ok None) × (self.new ≡ self.old)) }
        ensures start { self.new.window.start ≡ self.old.window.start }
    {
        let Some(opens) = self.awaits_key() else {
            return Ok(None);
        };
        let mark = self.window.mark();
        match take_key(&mut self.window, self.alloc) {
            Ok(Some((key, colon))) => match self.hand_key(mark, key.into_string(), colon, opens) {
                Ok(text) => Ok(Some(PlainNode {
                    indicator: mark,
                    mark,
                    text,
                })),
                Err(failed) => Err(failed),
            },
            Ok(None) => Ok(None),
            Err(_) => Err(self.fail(Fault::OutOfMemory)),
        }
    }

    /// Hands out the `Value` that waits and the scalar of a value that stands here. `None` changes nothing.
    #[inline(always)]
    pub(crate) fn next_value(&mut self) -> Result<Option<PlainNode>, Failed>
        requires { Follows self.old }
        ensures value { IfOk result (λ o. IfSome o (λ n. HandsBoth (inside self.old) (token n.indicator Tok.value) (token n.mark (Tok.scalar Style.plain (string_chars n.text))) (inside self.new))) }
        ensures none { IfOk result (λ o. IfNone o (self.new ≡ self.old)) }
        ensures ok { OnOk result (Follows self.new) }
        ensures run { IfErr result (λ _. Fetches self.old self.new) }
        ensures err { IfErr result (λ _. (mark : Position) → Follows (record self.new { kept = Some mark; early = true })) }
        ensures memory { IfErr result (λ _. self.new.fault ≡ Fault.OutOfMemory) }
        ensures over { self.old.tokens.over ≡ true → (result ≡ Ok None) × (self.new ≡ self.old) }
        ensures ready { self.old.tokens.ended ≡ true → (result ≡ Ok None) × (self.new ≡ self.old) }
        ensures again { IfSome self.old.kept (λ _. (result ≡ Ok None) × (self.new ≡ self.old)) }
        ensures start { self.new.window.start ≡ self.old.window.start }
    {
        let Some(found) = self.awaits_value() else {
            return Ok(None);
        };
        match take_value(&mut self.window, self.alloc, found.1) {
            Ok(Some((value, mark))) => {
                let text = self.hand_value(mark, value.into_string());
                Ok(Some(PlainNode {
                    indicator: found.0,
                    mark,
                    text,
                }))
            }
            Ok(None) => Ok(None),
            Err(_) => Err(self.fail(Fault::OutOfMemory)),
        }
    }
}
