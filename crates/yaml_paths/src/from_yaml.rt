//! Types that nodes are read as.
ghost use Rattle.std.specs.Prelude.{◌≡◌, ◌≢◌, IfSome, IfNone, chars};
ghost use Rattle.defs_tree.specs.Tree.{Tree, boolean, integer, string};
ghost use Rattle.yaml_paths.specs.Kinds.{kind_of};
ghost use Rattle.yaml_paths.specs.declared.kind.Kind as kinds;
ghost use Rattle.yaml_paths.specs.declared.kind.Kind.TheVariants as kind;
ghost use Rattle.yaml_tree.specs.View.{view};

use crate::kind::Kind;
use yaml_tree::Yaml;

/// A type that nodes of one kind are read as: `bool`, `i64`, and `&str`.
pub trait FromYaml<'a>: Copy {
    // The tree of the node that is read as this value.
    ghost tree: { Self → Tree };

    // The kind of all these nodes.
    ghost wanted: { kinds.Kind };

    /// The kind of the nodes that are read as this type.
    fn kind() -> Kind
        ensures { result ≡ wanted };

    /// The value of a node, or `None` if it is of another kind.
    fn from_yaml(node: &'a Yaml) -> Option<Self>
        ensures value { IfSome result (λ v. view node.now ≡ tree v) }
        ensures wanted { IfSome result (λ v. kind_of (tree v) ≡ wanted) }
        ensures other { IfNone result (kind_of (view node.now) ≢ wanted) };
}

impl<'a> FromYaml<'a> for bool {
    ghost tree = { boolean };

    ghost wanted = { kind.Boolean };

    fn kind() -> Kind {
        Kind::Boolean
    }

    fn from_yaml(node: &'a Yaml) -> Option<bool> {
        match node {
            Yaml::Boolean(truth) => Some(*truth),
            _ => None,
        }
    }
}

impl<'a> FromYaml<'a> for i64 {
    ghost tree = { integer };

    ghost wanted = { kind.Integer };

    fn kind() -> Kind {
        Kind::Integer
    }

    fn from_yaml(node: &'a Yaml) -> Option<i64> {
        match node {
            Yaml::Integer(number) => Some(*number),
            _ => None,
        }
    }
}

impl<'a> FromYaml<'a> for &'a str {
    ghost tree = { λ s. string (chars s.now) };

    ghost wanted = { kind.String };

    fn kind() -> Kind
        ensures { result ≡ kind.String }
    {
        Kind::String
    }

    #[tactic(auto, unfolding(defs_text::specs::Text::string_chars))]
    fn from_yaml(node: &'a Yaml) -> Option<&'a str>
        ensures value { IfSome result (λ s. view node.now ≡ string (chars s.now)) }
        ensures wanted { IfSome result (λ s. kind_of (string (chars s.now)) ≡ kind.String) }
        ensures other { IfNone result (kind_of (view node.now) ≢ kind.String) }
    {
        match node {
            Yaml::String(text) => Some(text.as_str()),
            _ => None,
        }
    }
}
