//! The tree of a scalar.
ghost use Rattle.std.specs.Prelude.{◌≡◌, chars};
ghost use Rattle.defs_text.specs.Text.{string_chars};
ghost use Rattle.yaml_tokens.specs.Shown.{style_of};
ghost use Rattle.defs_event.specs.Scalar.{scalar_tree, tagged_tree, as_boolean, as_integer, as_real, as_null};
ghost use Rattle.yaml_tree.specs.View.{view};
ghost use Rattle.yaml_parser.specs.Shown.{tag_of, perhaps_tag_of};

use yaml_parser::Tag;
use yaml_tokens::TScalarStyle;
use yaml_tree::{Yaml, is_real};

// The tags of the core schema begin so (YAML 1.2, section 10.3).
const CORE_PREFIX: &str = "tag:yaml.org,2002:";

/// The tree of a scalar. A scalar that is not plain is a string. A plain one is read by its tag, if it has one.
pub(crate) fn scalar_tree(text: String, style: TScalarStyle, tag: Option<Tag>) -> Yaml
    ensures { view result ≡ scalar_tree (string_chars text) (style_of style) (perhaps_tag_of tag) }
{
    if style != TScalarStyle::Plain {
        return Yaml::String(text);
    }
    match tag {
        None => Yaml::from_string(text),
        Some(tag) => tagged_tree(&tag, text),
    }
}

fn tagged_tree(tag: &Tag, text: String) -> Yaml
    ensures { view result ≡ tagged_tree (tag_of tag.now) (string_chars text) }
{
    if tag.handle.as_str() != CORE_PREFIX {
        return Yaml::String(text);
    }
    match tag.suffix.as_str() {
        "bool" => boolean_of(text.as_str()),
        "int" => integer_of(text.as_str()),
        "float" => real_of(text),
        "null" => null_of(text.as_str()),
        _ => Yaml::String(text),
    }
}

fn boolean_of(text: &str) -> Yaml
    ensures { view result ≡ as_boolean (chars text.now) }
{
    match text {
        "true" | "True" | "TRUE" => Yaml::Boolean(true),
        "false" | "False" | "FALSE" => Yaml::Boolean(false),
        _ => Yaml::BadValue,
    }
}

fn integer_of(text: &str) -> Yaml
    ensures { view result ≡ as_integer (chars text.now) }
{
    match text.parse::<i64>() {
        Ok(number) => Yaml::Integer(number),
        Err(_) => Yaml::BadValue,
    }
}

fn real_of(text: String) -> Yaml
    ensures { view result ≡ as_real (string_chars text) }
{
    if is_real(text.as_str()) {
        Yaml::Real(text)
    } else {
        Yaml::BadValue
    }
}

fn null_of(text: &str) -> Yaml
    ensures { view result ≡ as_null (chars text.now) }
{
    match text {
        "~" | "null" => Yaml::Null,
        _ => Yaml::BadValue,
    }
}
