//! Kinds of nodes.
ghost use Rattle.std.specs.Prelude.{◌≡◌};
ghost use Rattle.yaml_tree.specs.View.{view};

use thiserror::Error;
use yaml_tree::Yaml;

/// What a node is.
#[derive(Clone, Copy, Debug, Error)]
pub enum Kind {
    /// `Yaml::Real`.
    #[error("a real")]
    Real,
    /// `Yaml::Integer`.
    #[error("an integer")]
    Integer,
    /// `Yaml::String`.
    #[error("a string")]
    String,
    /// `Yaml::Boolean`.
    #[error("a boolean")]
    Boolean,
    /// `Yaml::Array`.
    #[error("an array")]
    Array,
    /// `Yaml::Hash`.
    #[error("a hash")]
    Hash,
    /// `Yaml::Alias`.
    #[error("an alias")]
    Alias,
    /// `Yaml::Null`.
    #[error("null")]
    Null,
    /// `Yaml::BadValue`.
    #[error("a bad value")]
    BadValue,
}

impl Kind {
    ghost use Rattle.yaml_paths.specs.Kinds.{kind_of};

    /// The kind of a node.
    pub fn of(node: &Yaml) -> Kind
        ensures { result ≡ kind_of (view node.now) }
    {
        match node {
            Yaml::Real(_) => Kind::Real,
            Yaml::Integer(_) => Kind::Integer,
            Yaml::String(_) => Kind::String,
            Yaml::Boolean(_) => Kind::Boolean,
            Yaml::Array(_) => Kind::Array,
            Yaml::Hash(_) => Kind::Hash,
            Yaml::Alias(_) => Kind::Alias,
            Yaml::Null => Kind::Null,
            Yaml::BadValue => Kind::BadValue,
        }
    }
}
