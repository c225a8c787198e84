ghost use Rattle.std.specs.Prelude.{◌≡◌, true, IfOk, OnErr};
ghost use Rattle.defs_text.specs.Text.{string_chars};
ghost use Rattle.yaml_tokens.specs.Shown.{shown, tok_of, keeps_text};

use std::alloc::{AllocError, Global};
use yaml_chars::Marker;

/// The encoding of a stream. There is one value, since the scanner gets decoded characters.
#[derive(Clone, Copy, Debug, PartialEq, Eq)]
pub enum TEncoding {
    /// Decoded characters.
    Utf8,
}

/// How a scalar is written (YAML 1.2, sections 7.3 and 8.1).
#[derive(Clone, Copy, Debug, PartialEq, Eq)]
pub enum TScalarStyle {
    /// Without quotes.
    Plain,
    /// In `'`.
    SingleQuoted,
    /// In `"`, with escapes.
    DoubleQuoted,
    /// A block scalar after `|`, which keeps its line breaks.
    Literal,
    /// A block scalar after `>`, whose line breaks are folded.
    Folded,
}

/// Which line breaks at its end a block scalar keeps (YAML 1.2, section 8.1.1.2).
#[derive(PartialEq, Eq, Drop)]
pub enum Chomping {
    /// None.
    Strip,
    /// The break of the last line with content.
    Clip,
    /// All.
    Keep,
}

/// A token, and the position where it begins.
#[derive(Debug, PartialEq, Eq, Drop)]
pub struct Token(pub Marker, pub TokenType);

/// What a token is.
#[derive(Debug, PartialEq, Eq, Drop)]
pub enum TokenType {
    /// The start of the stream, always first.
    StreamStart(TEncoding),
    /// The end of the stream, always last.
    StreamEnd,
    /// `%YAML`: the major and the minor version.
    VersionDirective(u32, u32),
    /// `%TAG`: a handle and its prefix. A directive of another name has two empty texts.
    TagDirective(String, String),
    /// `---`
    DocumentStart,
    /// `...`
    DocumentEnd,
    /// Before the first `-` of a block sequence.
    BlockSequenceStart,
    /// Before the first key of a block mapping, with the position of its `?`, or of its `:` if it has none.
    BlockMappingStart,
    /// The end of the innermost block collection.
    BlockEnd,
    /// `[`
    FlowSequenceStart,
    /// `]`
    FlowSequenceEnd,
    /// `{`, or the start of a pair in a flow sequence.
    FlowMappingStart,
    /// `}`, or the end of a pair in a flow sequence.
    FlowMappingEnd,
    /// `-`
    BlockEntry,
    /// `,`
    FlowEntry,
    /// `?`, or the start of a key without it.
    Key,
    /// `:`
    Value,
    /// `*name`
    Alias(String),
    /// `&name`
    Anchor(String),
    /// A tag as it is written: its handle and its suffix.
    Tag(String, String),
    /// A scalar: its style and its text.
    Scalar(TScalarStyle, String),
}

impl Token {
    /// A copy, equal to the token. An `Err` comes only where memory was refused; a token without a text asks for none.
    pub fn clone(&self, alloc: Global) -> Result<Token, AllocError>
        ensures copy { IfOk result (λ t. shown t ≡ shown self.now) }
        ensures only_for_a_text { OnErr result (keeps_text (shown self.now).tok ≡ true) }
    {
        Ok(Token(self.0, self.1.clone(alloc)?))
    }
}

#[tactic(auto, using(yaml_chars::proofs::TextLemmas::string_chars_same))]
fn copied(alloc: Global, text: &String) -> Result<String, AllocError>
    ensures { IfOk result (λ t. string_chars t ≡ string_chars text.now) }
{
    String::from_str(alloc, text.as_str())
}

impl TokenType {
    /// A copy, equal to the token type. An `Err` comes only where memory was refused; one without a text asks for none.
    pub fn clone(&self, alloc: Global) -> Result<TokenType, AllocError>
        ensures copy { IfOk result (λ t. tok_of t ≡ tok_of self.now) }
        ensures only_for_a_text { OnErr result (keeps_text (tok_of self.now) ≡ true) }
    {
        match self {
            TokenType::StreamStart(encoding) => Ok(TokenType::StreamStart(*encoding)),
            TokenType::StreamEnd => Ok(TokenType::StreamEnd),
            TokenType::VersionDirective(major, minor) => {
                Ok(TokenType::VersionDirective(*major, *minor))
            }
            TokenType::TagDirective(handle, prefix) => {
                Ok(TokenType::TagDirective(copied(alloc, handle)?, copied(alloc, prefix)?))
            }
            TokenType::DocumentStart => Ok(TokenType::DocumentStart),
            TokenType::DocumentEnd => Ok(TokenType::DocumentEnd),
            TokenType::BlockSequenceStart => Ok(TokenType::BlockSequenceStart),
            TokenType::BlockMappingStart => Ok(TokenType::BlockMappingStart),
            TokenType::BlockEnd => Ok(TokenType::BlockEnd),
            TokenType::FlowSequenceStart => Ok(TokenType::FlowSequenceStart),
            TokenType::FlowSequenceEnd => Ok(TokenType::FlowSequenceEnd),
            TokenType::FlowMappingStart => Ok(TokenType::FlowMappingStart),
            TokenType::FlowMappingEnd => Ok(TokenType::FlowMappingEnd),
            TokenType::BlockEntry => Ok(TokenType::BlockEntry),
            TokenType::FlowEntry => Ok(TokenType::FlowEntry),
            TokenType::Key => Ok(TokenType::Key),
            TokenType::Value => Ok(TokenType::Value),
            TokenType::Alias(name) => Ok(TokenType::Alias(copied(alloc, name)?)),
            TokenType::Anchor(name) => Ok(TokenType::Anchor(copied(alloc, name)?)),
            TokenType::Tag(handle, suffix) => {
                Ok(TokenType::Tag(copied(alloc, handle)?, copied(alloc, suffix)?))
            }
            TokenType::Scalar(style, text) => Ok(TokenType::Scalar(*style, copied(alloc, text)?)),
        }
    }
}
