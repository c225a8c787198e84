//! The node of a plain text.
ghost use Rattle.std.specs.Prelude.{◌≡◌, true, IfOk, OnErr, chars};
ghost use Rattle.defs_tree.specs.Typing.{typing};
ghost use Rattle.defs_text.specs.Text.{string_chars};
ghost use Rattle.yaml_tree.specs.Node.{takes_memory};
ghost use Rattle.yaml_tree.specs.View.{view};

use crate::yaml::Yaml;
use crate::{Meaning, stands_for};
use std::alloc::{AllocError, Global};

impl Yaml {
    /// What the text stands for as a plain scalar, nearly as in the core schema (YAML 1.2, section 10.3.2;
    /// docs/DIFFERENCES.md has the exceptions): an integer of 64 bits, in base 10, or in base 16 or 8 after `0x` or
    /// `0o`; `Null`; a `Boolean`; a `Real`, which keeps the text as it is; else the `String` of the text. Only a kept
    /// text takes memory, and an `Err` comes only if that was refused.
    pub fn from_str(alloc: Global, text: &str) -> Result<Yaml, AllocError>
        ensures value { IfOk result (λ y. view y ≡ typing (chars text.now)) }
        ensures only_for_a_text { OnErr result (takes_memory (typing (chars text.now)) ≡ true) }
    {
        match stands_for(text) {
            Meaning::Integer(number) => Ok(Yaml::Integer(number)),
            Meaning::Boolean(truth) => Ok(Yaml::Boolean(truth)),
            Meaning::Null => Ok(Yaml::Null),
            Meaning::Real => Ok(Yaml::Real(String::from_str(alloc, text)?)),
            Meaning::String => Ok(Yaml::String(String::from_str(alloc, text)?)),
        }
    }

    /// The same as `from_str`, of an owned text. It takes no memory.
    #[tactic(auto, unfolding(defs_text::specs::Text::string_chars))]
    pub fn from_string(text: String) -> Yaml
        ensures { view result ≡ typing (string_chars text) }
    {
        match stands_for(text.as_str()) {
            Meaning::Integer(number) => Yaml::Integer(number),
            Meaning::Boolean(truth) => Yaml::Boolean(truth),
            Meaning::Null => Yaml::Null,
            Meaning::Real => Yaml::Real(text),
            Meaning::String => Yaml::String(text),
        }
    }
}
