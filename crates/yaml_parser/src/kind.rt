ghost use Rattle.std.specs.Prelude.{◌≡◌};
ghost use Rattle.yaml_tokens.specs.Shown.{tok_of};
ghost use Rattle.model_parser.specs.Kinds.{kind_of};

use model_parser::Kind;
use yaml_tokens::TokenType;

/// What a token is, without its texts.
pub fn kind_of_token(token: &TokenType) -> Kind
    ensures { result ≡ kind_of (tok_of token.now) }
{
    match token {
        TokenType::StreamStart(_) => Kind::StreamStart,
        TokenType::StreamEnd => Kind::StreamEnd,
        TokenType::VersionDirective(_, _) => Kind::VersionDirective,
        TokenType::TagDirective(_, _) => Kind::TagDirective,
        TokenType::DocumentStart => Kind::DocumentStart,
        TokenType::DocumentEnd => Kind::DocumentEnd,
        TokenType::BlockSequenceStart => Kind::BlockSequenceStart,
        TokenType::BlockMappingStart => Kind::BlockMappingStart,
        TokenType::BlockEnd => Kind::BlockEnd,
        TokenType::FlowSequenceStart => Kind::FlowSequenceStart,
        TokenType::FlowSequenceEnd => Kind::FlowSequenceEnd,
        TokenType::FlowMappingStart => Kind::FlowMappingStart,
        TokenType::FlowMappingEnd => Kind::FlowMappingEnd,
        TokenType::BlockEntry => Kind::BlockEntry,
        TokenType::FlowEntry => Kind::FlowEntry,
        TokenType::Key => Kind::Key,
        TokenType::Value => Kind::Value,
        TokenType::Alias(_) => Kind::Alias,
        TokenType::Anchor(_) => Kind::Anchor,
        TokenType::Tag(_, _) => Kind::Tag,
        TokenType::Scalar(_, _) => Kind::Scalar,
    }
}
