//! What tells like tokens apart: the kind of a name, the style of a scalar, and the kind of a collection. And the kinds of escapes.
ghost use Rattle.std.specs.Prelude.{◌≡◌};
ghost use Rattle.defs_text.specs.Text.{string_chars};
ghost use Rattle.yaml_tokens.specs.Shown.{tok_of, style_of};
ghost use Rattle.model_scanner.specs.Kinds.{anchor_token, are_single, quoted_style, is_literal, block_style, block_start, flow_start, flow_end, flow_level};

use crate::level::FlowLevel;
use yaml_tokens::{TScalarStyle, TokenType};

/// The kind of a name.
#[derive(Clone, Copy)]
pub enum NameKind {
    /// After `*`.
    Alias,
    /// After `&`.
    Anchor,
}

impl NameKind {
    /// The token of a name.
    pub fn token(self, name: String) -> TokenType
        ensures { tok_of result ≡ anchor_token self (string_chars name) }
    {
        match self {
            NameKind::Alias => TokenType::Alias(name),
            NameKind::Anchor => TokenType::Anchor(name),
        }
    }
}

/// The quotes of a scalar.
#[derive(Clone, Copy)]
pub enum Quotes {
    /// `'`
    Single,
    /// `"`
    Double,
}

impl Quotes {
    /// Whether they are single quotes.
    pub fn are_single(self) -> bool
        ensures { result ≡ are_single self }
    {
        matches!(self, Quotes::Single)
    }

    /// The style of a scalar between them.
    pub fn style(self) -> TScalarStyle
        ensures { style_of result ≡ quoted_style self }
    {
        match self {
            Quotes::Single => TScalarStyle::SingleQuoted,
            Quotes::Double => TScalarStyle::DoubleQuoted,
        }
    }
}

/// How many hexadecimal digits an escaped code has (YAML 1.2, section 5.7).
#[derive(Clone, Copy)]
pub enum Digits {
    /// After `\x`.
    Two = 2,
    /// After `\u`.
    Four = 4,
    /// After `\U`.
    Eight = 8,
}

/// What stands after a backslash (YAML 1.2, section 5.7).
#[derive(Clone, Copy)]
pub enum Escape {
    /// The name of this character.
    Char(char),
    /// What begins the code of a character.
    Code(Digits),
    /// Nothing that YAML knows.
    Unknown,
}

/// What stands next in a quoted scalar (YAML 1.2, sections 7.3.1 and 7.3.2).
#[derive(Clone, Copy, PartialEq, Eq)]
pub enum QuotedPart {
    /// Its first character.
    First,
    /// The next character of a line.
    Inside,
    /// What comes in a gap of blanks and breaks, or after one.
    Gap,
    /// An escaped break.
    Breaking,
    /// What comes after an escaped break.
    After,
    /// The second of two single quotes.
    Doubled,
    /// What comes after the closing quote.
    Closed,
}

/// The style of a block scalar.
#[derive(Clone, Copy)]
pub enum BlockStyle {
    /// After `|`.
    Literal,
    /// After `>`.
    Folded,
}

impl BlockStyle {
    /// Whether it is a literal one.
    pub fn is_literal(self) -> bool
        ensures { result ≡ is_literal self }
    {
        matches!(self, BlockStyle::Literal)
    }

    /// The style of such a scalar.
    pub fn style(self) -> TScalarStyle
        ensures { style_of result ≡ block_style self }
    {
        match self {
            BlockStyle::Literal => TScalarStyle::Literal,
            BlockStyle::Folded => TScalarStyle::Folded,
        }
    }
}

/// A kind of collection (YAML 1.2, sections 7.4 and 8.2).
#[derive(Clone, Copy, PartialEq, Eq)]
pub enum Collection {
    /// A sequence.
    Sequence,
    /// A mapping.
    Mapping,
}

impl Collection {
    /// The token of the start of a block collection.
    pub fn block_start(self) -> TokenType
        ensures { tok_of result ≡ block_start self }
    {
        match self {
            Collection::Sequence => TokenType::BlockSequenceStart,
            Collection::Mapping => TokenType::BlockMappingStart,
        }
    }

    /// The token of the start of a flow collection.
    pub fn flow_start(self) -> TokenType
        ensures { tok_of result ≡ flow_start self }
    {
        match self {
            Collection::Sequence => TokenType::FlowSequenceStart,
            Collection::Mapping => TokenType::FlowMappingStart,
        }
    }

    /// The token of the end of a flow collection.
    pub fn flow_end(self) -> TokenType
        ensures { tok_of result ≡ flow_end self }
    {
        match self {
            Collection::Sequence => TokenType::FlowSequenceEnd,
            Collection::Mapping => TokenType::FlowMappingEnd,
        }
    }

    /// The state of the first entry of a flow collection.
    pub fn flow_level(self) -> FlowLevel
        ensures { result ≡ flow_level self }
    {
        match self {
            Collection::Sequence => FlowLevel::Entry,
            Collection::Mapping => FlowLevel::Mapping,
        }
    }
}
