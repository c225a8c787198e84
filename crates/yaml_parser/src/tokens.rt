ghost use Rattle.std.specs.Prelude.{◌≡◌, ◌⊎◌, ◌+◌, ◌≤◌, List, [], ◌∷◌, ◌++◌, Some, None, IsSome, IfSome, IfNone, IfOk, IfErr, OnOk, OnErr};
ghost use Rattle.yaml_scanner.specs.Scanned.{scanned};
ghost use Rattle.defs_token.specs.Token.{Tok};
ghost use Rattle.defs_text.specs.Text.{string_chars};
ghost use Rattle.yaml_tokens.specs.Shown.{tok_of, style_of};
ghost use Rattle.yaml_tokens.specs.declared.token.TokenType.TheVariants.{Key, Value};
ghost use Rattle.yaml_parser.specs.Kinds.{IsOfKind, IsName};
ghost use Rattle.yaml_parser.specs.Ahead.{left, Skips, SkipsOne, TakesBoth, indicator_of, scalar_of};
ghost use Rattle.yaml_parser.specs.Handed.{IsHanded, IsAwake, IsStopped};
ghost use Rattle.model_parser.specs.declared.kind.Kind.TheVariants as kind;

use crate::looked::Looked;
use model_parser::Kind;
use yaml_chars::ghost_list::GhostList;
use yaml_chars::{Characters, Marker};
use yaml_scanner::{Failed, PlainNode, Scanner};
use yaml_tokens::{TScalarStyle, Token, TokenType};

/// A scanner's tokens. The next one may have been looked at.
#[derive(Drop)]
pub struct Tokens<T: Characters> {
    /// What gives the tokens.
    pub scanner: Scanner<T>,
    /// The token that was looked at, if there is one.
    pub peeked: Looked,
    /// The tokens that were taken, for clauses alone.
    pub taken: GhostList<Token>,
}

impl<T: Characters> Tokens<T> {
    /// The tokens of a scanner.
    pub fn new(scanner: Scanner<T>) -> Self
        ensures scanner { result.scanner ≡ scanner }
        ensures peeked { result.peeked ≡ None }
        ensures taken { result.taken.items ≡ [] }
    {
        let mark = scanner.mark();
        Tokens {
            scanner,
            peeked: Looked::new(mark),
            taken: GhostList::new(),
        }
    }

    /// What the next token is, which stays. An `Err`: none comes, since the scanner keeps a fault, or handed out its last token.
    #[inline(never)]
    pub fn peek(&mut self) -> Result<Kind, Failed>
        ensures looks { IfOk result (λ k. IsOfKind k self.new.peeked) }
        ensures left { OnOk result (left self.new ≤ left self.old) }
        ensures taken { self.new.taken ≡ self.old.taken }
        ensures start { self.new.scanner.start ≡ self.old.scanner.start }
        ensures same { IfSome self.old.peeked (λ t. self.new.peeked ≡ Some t) }
        ensures handed { IsHanded self.old → IsHanded self.new }
        ensures awake { OnOk result (IsAwake self.old → IsAwake self.new) }
        ensures err { IsAwake self.old → OnErr result (IsStopped (scanned self.new.scanner)) }
        ensures none { OnErr result (self.new.peeked ≡ None) }
    {
        if let Some(kind) = self.peeked.kind() {
            return Ok(kind);
        }
        match self.scanner.next_token() {
            Ok(Some(token)) => Ok(self.peeked.put(token)),
            _ => Err(Failed),
        }
    }

    /// Where the token stands that was looked at.
    #[inline(always)]
    pub fn mark(&self) -> Marker
        requires { IsSome self.now.peeked }
        ensures { IfSome self.now.peeked (λ t. t.0 ≡ result) }
    {
        self.peeked.get().0
    }

    /// Takes the token that was looked at, and gives its position.
    #[inline(always)]
    pub fn skip(&mut self) -> Marker
        requires { IsSome self.old.peeked }
        ensures mark { IfSome self.old.peeked (λ t. t.0 ≡ result) }
        ensures skips { SkipsOne self.old self.new }
    {
        let token = self.peeked.get();
        let mark = token.0;
        self.taken.push(token);
        self.peeked.skip();
        mark
    }

    /// Takes an anchor or an alias that was looked at, and gives its name.
    pub fn take_name(&mut self) -> String
        requires { IsName self.old.peeked }
        ensures skips { SkipsOne self.old self.new }
        ensures name { IfSome self.old.peeked (λ t. (tok_of t.1 ≡ Tok.alias (string_chars result)) ⊎ (tok_of t.1 ≡ Tok.anchor (string_chars result))) }
    {
        self.taken.push(self.peeked.get());
        self.peeked.take_name()
    }

    /// Takes a tag that was looked at, and gives its handle and suffix.
    pub fn take_tag(&mut self) -> (String, String)
        requires { IsOfKind kind.Tag self.old.peeked }
        ensures texts { IfSome self.old.peeked (λ t. tok_of t.1 ≡ Tok.tag (string_chars result.0) (string_chars result.1)) }
        ensures skips { SkipsOne self.old self.new }
    {
        self.taken.push(self.peeked.get());
        self.peeked.take_tag()
    }

    /// Takes a `%TAG` directive that was looked at, and gives its handle and prefix.
    pub fn take_tag_directive(&mut self) -> (String, String)
        requires { IsOfKind kind.TagDirective self.old.peeked }
        ensures texts { IfSome self.old.peeked (λ t. tok_of t.1 ≡ Tok.tag_directive (string_chars result.0) (string_chars result.1)) }
        ensures skips { SkipsOne self.old self.new }
    {
        self.taken.push(self.peeked.get());
        self.peeked.take_tag_directive()
    }

    /// Takes a scalar that was looked at, and gives its style and text.
    #[inline(always)]
    pub fn take_scalar(&mut self) -> (TScalarStyle, String)
        requires { IsOfKind kind.Scalar self.old.peeked }
        ensures texts { IfSome self.old.peeked (λ t. tok_of t.1 ≡ Tok.scalar (style_of result.0) (string_chars result.1)) }
        ensures skips { SkipsOne self.old self.new }
    {
        self.taken.push(self.peeked.get());
        self.peeked.take_scalar()
    }

    /// Takes a `Key` and the plain scalar after it at once, or gives `None` and changes nothing.
    #[inline(always)]
    pub fn next_key(&mut self) -> Result<Option<PlainNode>, Failed>
        ensures key { IfOk result (λ o. IfSome o (λ n. TakesBoth self.old Key n self.new)) }
        ensures left { IfOk result (λ o. IfSome o (λ n. left self.new + 2 ≤ left self.old)) }
        ensures none { IfOk result (λ o. IfNone o (self.new ≡ self.old)) }
        ensures start { self.new.scanner.start ≡ self.old.scanner.start }
        ensures err { OnErr result (IsStopped (scanned self.new.scanner)) }
        ensures kept { OnErr result ((self.new.taken ≡ self.old.taken) × (self.new.peeked ≡ self.old.peeked) × (IsHanded self.old → IsHanded self.new)) }
        ensures missing { OnErr result (self.new.peeked ≡ None) }
    {
        if self.peeked.is_there() {
            return Ok(None);
        }
        match self.scanner.next_key() {
            Ok(Some(node)) => Ok(Some(self.note(TokenType::Key, node))),
            Ok(None) => Ok(None),
            Err(_) => Err(Failed),
        }
    }

    /// Takes a `Value` and the plain scalar after it at once, or gives `None` and changes nothing.
    #[inline(always)]
    pub fn next_value(&mut self) -> Result<Option<PlainNode>, Failed>
        ensures value { IfOk result (λ o. IfSome o (λ n. TakesBoth self.old Value n self.new)) }
        ensures left { IfOk result (λ o. IfSome o (λ n. left self.new + 2 ≤ left self.old)) }
        ensures none { IfOk result (λ o. IfNone o (self.new ≡ self.old)) }
        ensures start { self.new.scanner.start ≡ self.old.scanner.start }
        ensures err { OnErr result (IsStopped (scanned self.new.scanner)) }
        ensures kept { OnErr result ((self.new.taken ≡ self.old.taken) × (self.new.peeked ≡ self.old.peeked) × (IsHanded self.old → IsHanded self.new)) }
        ensures missing { OnErr result (self.new.peeked ≡ None) }
    {
        if self.peeked.is_there() {
            return Ok(None);
        }
        match self.scanner.next_value() {
            Ok(Some(node)) => Ok(Some(self.note(TokenType::Value, node))),
            Ok(None) => Ok(None),
            Err(_) => Err(Failed),
        }
    }

    /// Notes that a token of this kind and the plain scalar after it were taken. This takes no time.
    #[inline(always)]
    fn note(&mut self, kind: TokenType, node: PlainNode) -> PlainNode
        ensures same { result ≡ node }
        ensures taken { self.new.taken.items ≡ self.old.taken.items ++ indicator_of kind node ∷ scalar_of node ∷ [] }
        ensures peeked { self.new.peeked ≡ self.old.peeked }
        ensures scanner { self.new.scanner ≡ self.old.scanner }
    {
        let indicator = node.indicator;
        let mark = node.mark;
        let before = Token(indicator, kind);
        self.taken.push(&before);
        let scalar = Token(mark, TokenType::Scalar(TScalarStyle::Plain, node.text));
        self.taken.push(&scalar);
        let Token(_, scalar) = scalar;
        match scalar {
            TokenType::Scalar(_, text) => PlainNode {
                indicator,
                mark,
                text,
            },
            _ => unreachable!(),
        }
    }
}
