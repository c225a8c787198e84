ghost use Rattle.std.specs.Prelude.{◌≡◌, ◌≤◌, ◌+◌, ◌∷◌, [], ◌++◌, OnOk, OnErr, IfOk, IfSome, IsNone, IsSome, true, false, ◌||◌, length, map, List, ℕ};
ghost use Rattle.std.specs.List.{insert};
ghost use Rattle.yaml_tokens.specs.Shown.{shown, tok_of};
ghost use Rattle.yaml_scanner.specs.Tokens.{handed, waiting, is_end, end_at, key_tokens};
ghost use Rattle.defs_text.specs.Position.{Position};
ghost use Rattle.defs_text.specs.Text.{string_chars};
ghost use Rattle.defs_token.specs.Token.{Style, Tok};
ghost use Rattle.model_scanner.specs.State.{token};

use std::alloc::{AllocError, Global};
use std::collections::VecDeque;
use std::marker::Model;
use yaml_chars::Marker;
use yaml_chars::ghost_list::GhostList;
use yaml_tokens::{TScalarStyle, Token, TokenType};

/// The tokens that wait to be handed out. Clauses see all tokens so far, also those handed out.
#[derive(Drop)]
pub struct Queue {
    given: GhostList<Token>,
    waiting: VecDeque<Token>,
    ended: bool,
    over: bool,
}

impl Model for Queue {
    ghost use Rattle.std.specs.Prelude.{◌≡◌, ◌++◌, map, true, false};
    ghost use Rattle.std.specs.Prelude.{length as list_len};
    ghost use Rattle.yaml_scanner.specs.Tokens.{Tokens, has_end};
    ghost use Rattle.yaml_tokens.specs.Shown.{shown};

    ghost Value = { Tokens };

    ghost view = { λ q. record { all = map shown q.given.items ++ map shown q.waiting.items; given = list_len q.given.items; ended = q.ended; over = q.over } };

    // While the stream's end was not handed out, it waits.
    ghost invariant = { λ q. q.ended ≡ true → q.over ≡ false → has_end (map shown q.waiting.items) ≡ true };
}

impl Queue {
    /// No token waits. It takes no memory.
    pub fn new(alloc: Global) -> Self
        ensures { result ≡ record { all = []; given = 0; ended = false; over = false } }
    {
        Queue {
            given: GhostList::new(),
            waiting: VecDeque::new(alloc),
            ended: false,
            over: false,
        }
    }

    /// How many tokens wait.
    #[tactic(auto, using(crate::proofs::QueueLemmas::waiting_len))]
    pub fn len(&self) -> usize
        ensures value { self.now.given + result ≡ length self.now.all }
        ensures waiting { result ≡ waiting self.now }
    {
        self.waiting.len()
    }

    /// An `Err` changes nothing.
    #[inline(always)]
    #[tactic(auto, using(crate::proofs::QueueLemmas::push_shown, crate::proofs::QueueLemmas::push_keeps))]
    pub fn push(&mut self, token: Token) -> Result<(), AllocError>
        ensures ok { OnOk result (self.new ≡ record self.old { all = self.old.all ++ shown token ∷ [] }) }
        ensures err { OnErr result (self.new ≡ self.old) }
        ensures handed { handed self.new ≡ handed self.old }
        ensures more { waiting self.new ≤ waiting self.old + 1 }
    {
        self.waiting.try_reserve(1)?;
        self.waiting.push_back_reserved(token);
        Ok(())
    }

    /// Inserts a token before that many that wait. An `Err` changes nothing.
    #[inline(always)]
    #[tactic(auto, using(crate::proofs::QueueLemmas::insert_shown, crate::proofs::QueueLemmas::past_shown, crate::proofs::QueueLemmas::front_shown, crate::proofs::QueueLemmas::insert_keeps, crate::proofs::QueueLemmas::front_keeps, crate::proofs::QueueLemmas::push_keeps))]
    pub fn insert(&mut self, position: usize, token: Token) -> Result<(), AllocError>
        ensures ok { OnOk result (self.new ≡ record self.old { all = insert self.old.all (self.old.given + position) (shown token) }) }
        ensures err { OnErr result (self.new ≡ self.old) }
        ensures handed { handed self.new ≡ handed self.old }
        ensures more { waiting self.new ≤ waiting self.old + 1 }
    {
        self.waiting.try_reserve(1)?;
        let last = self.waiting.len();
        if position >= last {
            self.waiting.push_back_reserved(token);
            return Ok(());
        }
        if position == 0 {
            self.waiting.push_front_reserved(token);
            return Ok(());
        }
        if self.waiting.insert(position, token).is_err() {
            return Err(AllocError);
        }
        Ok(())
    }

    /// Where no token waits, hands out a `Key` and a plain scalar, which stand at the same position, and lets the `Value`
    /// after them wait. The result is the scalar's text. An `Err` changes nothing.
    #[inline(always)]
    #[tactic(auto, using(crate::proofs::QueueLemmas::key_shown, crate::proofs::QueueLemmas::two_more, crate::proofs::QueueLemmas::waiting_len, crate::proofs::QueueLemmas::push_keeps))]
    pub fn pass_key(
        &mut self,
        mark: Marker,
        text: String,
        colon: Marker,
    ) -> Result<String, AllocError>
        requires { waiting self.old ≡ 0 }
        ensures ok { OnOk result (self.new ≡ record self.old { all = self.old.all ++ key_tokens mark (string_chars text) colon; given = self.old.given + 2 }) }
        ensures text { IfOk result (λ t. string_chars t ≡ string_chars text) }
        ensures err { OnErr result (self.new ≡ self.old) }
    {
        self.waiting.try_reserve(1)?;
        self.given.push(&Token(mark, TokenType::Key));
        let text = pass_scalar(&mut self.given, mark, text);
        self.waiting
            .push_back_reserved(Token(colon, TokenType::Value));
        Ok(text)
    }

    /// Where a `Value` alone waits, its position.
    #[tactic(auto, using(crate::proofs::QueueLemmas::alone_shown, crate::proofs::QueueLemmas::waiting_len))]
    pub fn lone_value(&self) -> Option<Marker>
        ensures value { IfSome result (λ m. self.now.all ≡ handed self.now ++ token m Tok.value ∷ []) }
        ensures count { IsSome result → self.now.given + 1 ≡ length self.now.all }
    {
        if self.waiting.len() != 1 {
            return None;
        }
        let Token(mark, TokenType::Value) = self.waiting.front()? else {
            return None;
        };
        Some(*mark)
    }

    /// Hands out the `Value` that alone waits, and a plain scalar after it. The result is the scalar's text.
    #[inline(always)]
    #[tactic(auto, using(crate::proofs::QueueLemmas::value_shown, crate::proofs::QueueLemmas::two_more, crate::proofs::QueueLemmas::waits_alone))]
    pub fn pass_value(&mut self, mark: Marker, text: String) -> String
        requires { (m : Position) × (self.old.all ≡ handed self.old ++ token m Tok.value ∷ []) }
        ensures queue { self.new ≡ record self.old { all = self.old.all ++ token mark (Tok.scalar Style.plain (string_chars text)) ∷ []; given = self.old.given + 2 } }
        ensures text { string_chars result ≡ string_chars text }
    {
        let Some(value) = self.waiting.pop_front() else {
            unreachable!()
        };
        self.given.push(&value);
        pass_scalar(&mut self.given, mark, text)
    }

    /// Ends the stream. An `Err` changes nothing.
    #[tactic(auto, using(crate::proofs::QueueLemmas::push_shown, crate::proofs::QueueLemmas::end_waits))]
    pub fn push_end(&mut self, mark: Marker) -> Result<(), AllocError>
        ensures ok { OnOk result (self.new ≡ record self.old { all = self.old.all ++ end_at mark ∷ []; ended = true }) }
        ensures err { OnErr result (self.new ≡ self.old) }
        ensures handed { handed self.new ≡ handed self.old }
        ensures more { waiting self.new ≤ waiting self.old + 1 }
    {
        self.waiting.try_reserve(1)?;
        self.waiting.push_back_reserved(stream_end(mark));
        self.ended = true;
        Ok(())
    }

    /// Whether the stream's end was fetched.
    pub fn has_ended(&self) -> bool
        ensures { result ≡ self.now.ended }
    {
        self.ended
    }

    /// Whether the stream's end was handed out.
    pub fn is_over(&self) -> bool
        ensures { result ≡ self.now.over }
    {
        self.over
    }

    /// Hands out the next token.
    #[inline(always)]
    #[tactic(auto, using(crate::proofs::QueueLemmas::give_shown, crate::proofs::QueueLemmas::give_len))]
    pub fn pop(&mut self) -> Option<Token>
        ensures none { IsNone result → (self.new ≡ self.old) × (waiting self.old ≡ 0) × (self.old.ended ≡ true → self.old.over ≡ true) }
        ensures some { IfSome result (λ t. self.new ≡ record self.old { given = self.old.given + 1; over = self.old.over || is_end (shown t).tok }) }
        ensures handed { IfSome result (λ t. handed self.new ≡ handed self.old ++ shown t ∷ []) }
        ensures less { IfSome result (λ _. waiting self.new + 1 ≡ waiting self.old) }
    {
        let token = self.waiting.pop_front()?;
        self.given.push(&token);
        if let TokenType::StreamEnd = token.1 {
            self.over = true;
        }
        Some(token)
    }
}

fn stream_end(mark: Marker) -> Token
    ensures { shown result ≡ end_at mark }
{
    Token(mark, TokenType::StreamEnd)
}

/// A plain scalar came. The result is its text.
#[inline(always)]
#[tactic(auto, using(crate::proofs::QueueLemmas::one_shown, crate::proofs::QueueLemmas::give_len))]
fn pass_scalar(given: &mut GhostList<Token>, mark: Marker, text: String) -> String
    ensures items { map shown given.new.items ≡ map shown given.old.items ++ token mark (Tok.scalar Style.plain (string_chars text)) ∷ [] }
    ensures more { length given.new.items ≡ length given.old.items + 1 }
    ensures text { string_chars result ≡ string_chars text }
{
    let scalar = Token(mark, TokenType::Scalar(TScalarStyle::Plain, text));
    given.push(&scalar);
    text_of(scalar)
}

/// The text of a plain scalar.
#[inline(always)]
fn text_of(token: Token) -> String
    requires { (text : List ℕ) × (tok_of token.1 ≡ Tok.scalar Style.plain text) }
    ensures { tok_of token.1 ≡ Tok.scalar Style.plain (string_chars result) }
{
    let Token(_, kind) = token;
    match kind {
        TokenType::Scalar(_, text) => text,
        _ => unreachable!(),
    }
}
