//! Steps of a path.
ghost use Rattle.std.specs.Prelude.{◌≡◌, option_map};
ghost use Rattle.yaml_paths.specs.Path.{step_from, step_view};
ghost use Rattle.yaml_tree.specs.View.{view};

use std::fmt;
use yaml_emitter::write_double_quoted;
use yaml_tree::Yaml;

/// A step from a node down to a node in it. It is shown as `["port"]` or `[1]`.
#[derive(Clone, Copy, Debug)]
pub enum Step<'a> {
    /// To the value of the key `String` with this text, in a `Hash`.
    Key(&'a str),
    /// To the item at this place, counted from 0, in an `Array`.
    Index(usize),
}

impl<'a> fmt::Display for Step<'a> {
    fn fmt<W: fmt::Write>(&self, f: &mut fmt::Formatter<W>) -> fmt::Result {
        f.write_str("[")?;
        match self {
            Step::Key(key) => write_double_quoted(f, key)?,
            Step::Index(index) => write!(f, "{index}")?,
        }
        f.write_str("]")
    }
}

/// The node at the end of a step.
pub(crate) fn part<'a>(node: &'a Yaml, step: Step<'_>) -> Option<&'a Yaml>
    ensures { option_map (λ y. view y.now) result ≡ step_from (step_view step.entry) (view node.now) }
{
    match step {
        Step::Key(key) => node.get_key(key),
        Step::Index(index) => node.as_vec()?.get(index),
    }
}
