//! Scalars on one line (YAML 1.2, section 10.3 and chapter 7).
ghost use Rattle.std.specs.Prelude.{chars};
ghost use Rattle.defs_tree.specs.Spelling.{string_spelling, boolean_spelling, spelling};
ghost use Rattle.yaml_tree.specs.View.{view};
ghost use Rattle.yaml_emitter.specs.ValidTree.{IsValidScalar};
ghost use Rattle.yaml_emitter.specs.Writing.{Writes};

use crate::escape::write_double_quoted;
use crate::number::write_integer;
use crate::quoting::needs_quotes;
use crate::writer::{Writer, put_ascii};
use std::fmt;
use yaml_tree::Yaml;

/// Writes a scalar on one line, and `[]` or `{}` for an array or hash.
#[tactic(auto, unfolding(defs_text::specs::Text::string_chars))]
pub(crate) fn write_spelling<W: Writer>(out: &mut W, node: &Yaml) -> fmt::Result
    ensures text { Writes W.put_gives W.put_leaves out.old result (spelling (view node.now)) out.new }
    ensures valid { IsValidScalar (view node.now) }
{
    match node {
        Yaml::Real(text) => put_text(out, text.as_str()),
        Yaml::Integer(number) => write_integer(out, *number),
        Yaml::String(text) => write_string(out, text.as_str()),
        Yaml::Boolean(truth) => write_boolean(out, *truth),
        Yaml::Array(_) => put_ascii(out, "[]"),
        Yaml::Hash(_) => put_ascii(out, "{}"),
        Yaml::Alias(_) => Ok(()),
        Yaml::Null | Yaml::BadValue => put_ascii(out, "~"),
    }
}

fn write_boolean<W: Writer>(out: &mut W, truth: bool) -> fmt::Result
    ensures { Writes W.put_gives W.put_leaves out.old result (boolean_spelling truth) out.new }
{
    if truth {
        put_ascii(out, "true")
    } else {
        put_ascii(out, "false")
    }
}

pub(crate) fn write_string<W: Writer>(out: &mut W, text: &str) -> fmt::Result
    ensures { Writes W.put_gives W.put_leaves out.old result (string_spelling (chars text.now)) out.new }
{
    if needs_quotes(text) {
        write_double_quoted(out, text)
    } else {
        out.put(text)
    }
}

// A text as it stands.
#[inline(never)]
fn put_text<W: Writer>(out: &mut W, text: &str) -> fmt::Result
    ensures { Writes W.put_gives W.put_leaves out.old result (chars text.now) out.new }
{
    out.put(text)
}
