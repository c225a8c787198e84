//! The token that was looked at.
ghost use Rattle.std.specs.Prelude.{◌≡◌, ◌⊎◌, false, Some, None, IsSome, IfSome, IfNone};
ghost use Rattle.defs_text.specs.Text.{string_chars};
ghost use Rattle.defs_token.specs.Token.{Tok};
ghost use Rattle.yaml_tokens.specs.Shown.{tok_of, style_of};
ghost use Rattle.model_parser.specs.declared.kind.Kind.TheVariants as kind;
ghost use Rattle.model_parser.specs.Kinds.{kind_of};
ghost use Rattle.yaml_parser.specs.Kinds.{IsOfKind, IsName};

use crate::kind::kind_of_token;
use model_parser::Kind;
use std::marker::Model;
use std::mem;
use yaml_chars::Marker;
use yaml_tokens::{TScalarStyle, Token, TokenType};

/// The token that was looked at, if there is one. It stays in its place until the next one comes, and only its texts are
/// moved.
#[derive(Drop)]
pub struct Looked {
    // The token, or what is left of the last one that was taken.
    token: Token,
    // Whether it is not yet taken.
    waits: bool,
}

impl Model for Looked {
    ghost use Rattle.std.specs.Prelude.{Option, Some, None, if◌then◌else◌};
    ghost use Rattle.yaml_tokens.specs.declared.token.Token.{Token};

    ghost Value = { Option Token };

    ghost view = { λ l. if l.waits then Some l.token else None };
}

impl Looked {
    /// No token was looked at yet.
    pub fn new(mark: Marker) -> Self
        ensures { result ≡ None }
    {
        Looked {
            token: Token(mark, TokenType::StreamEnd),
            waits: false,
        }
    }

    /// Whether a token was looked at and is not yet taken.
    #[inline(always)]
    pub fn is_there(&self) -> bool
        ensures no { result ≡ false → self.now ≡ None }
    {
        self.waits
    }

    /// What the token is, or `None` if there is none.
    #[inline(always)]
    pub fn kind(&self) -> Option<Kind>
        ensures some { IfSome result (λ k. IsOfKind k self.now) }
        ensures none { IfNone result (self.now ≡ None) }
    {
        if self.waits {
            return Some(kind_of_token(&self.token.1));
        }
        None
    }

    /// Puts the next token here, and gives what it is. The one before is not dropped: it was taken.
    #[inline(always)]
    pub fn put(&mut self, token: Token) -> Kind
        ensures token { self.new ≡ Some token }
        ensures kind { result ≡ kind_of (tok_of token.1) }
    {
        let kind = kind_of_token(&token.1);
        mem::forget(mem::replace(&mut self.token, token));
        self.waits = true;
        kind
    }

    /// The token.
    #[inline(always)]
    pub fn get(&self) -> &Token
        requires { IsSome self.now }
        ensures { self.now ≡ Some result.now }
    {
        &self.token
    }

    /// Takes the token, for its position alone.
    #[inline(always)]
    pub fn skip(&mut self)
        ensures { self.new ≡ None }
    {
        self.waits = false;
    }

    /// Takes an anchor or an alias, and gives its name.
    pub fn take_name(&mut self) -> String
        requires { IsName self.old }
        ensures name { IfSome self.old (λ t. (tok_of t.1 ≡ Tok.alias (string_chars result)) ⊎ (tok_of t.1 ≡ Tok.anchor (string_chars result))) }
        ensures none { self.new ≡ None }
    {
        self.waits = false;
        match &mut self.token.1 {
            TokenType::Alias(name) | TokenType::Anchor(name) => moved(name),
            _ => unreachable!(),
        }
    }

    /// Takes a tag, and gives its handle and suffix.
    pub fn take_tag(&mut self) -> (String, String)
        requires { IsOfKind kind.Tag self.old }
        ensures texts { IfSome self.old (λ t. tok_of t.1 ≡ Tok.tag (string_chars result.0) (string_chars result.1)) }
        ensures none { self.new ≡ None }
    {
        self.waits = false;
        match &mut self.token.1 {
            TokenType::Tag(handle, suffix) => (moved(handle), moved(suffix)),
            _ => unreachable!(),
        }
    }

    /// Takes a `%TAG` directive, and gives its handle and prefix.
    pub fn take_tag_directive(&mut self) -> (String, String)
        requires { IsOfKind kind.TagDirective self.old }
        ensures texts { IfSome self.old (λ t. tok_of t.1 ≡ Tok.tag_directive (string_chars result.0) (string_chars result.1)) }
        ensures none { self.new ≡ None }
    {
        self.waits = false;
        match &mut self.token.1 {
            TokenType::TagDirective(handle, prefix) => (moved(handle), moved(prefix)),
            _ => unreachable!(),
        }
    }

    /// Takes a scalar, and gives its style and text.
    #[inline(always)]
    pub fn take_scalar(&mut self) -> (TScalarStyle, String)
        requires { IsOfKind kind.Scalar self.old }
        ensures texts { IfSome self.old (λ t. tok_of t.1 ≡ Tok.scalar (style_of result.0) (string_chars result.1)) }
        ensures none { self.new ≡ None }
    {
        self.waits = false;
        match &mut self.token.1 {
            TokenType::Scalar(style, text) => (*style, moved(text)),
            _ => unreachable!(),
        }
    }
}

/// Moves a text out, and leaves an empty one.
#[inline(always)]
fn moved(text: &mut String) -> String
    ensures { result ≡ text.old }
{
    let empty = String::new(*text.allocator());
    mem::replace(text, empty)
}
