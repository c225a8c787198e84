//! Nests: arrays of one item each, one within the other (RFC 8259, section 5).
ghost use Rattle.std.specs.Prelude.{IfSome, IfOk, OnErr};
ghost use Rattle.defs_layout.specs.HasJson.{nesting};
ghost use Rattle.defs_layout.specs.JsonText.{json_text};
ghost use Rattle.yaml_emitter.specs.Writing.{Stopped, Writes};
ghost use Rattle.yaml_json.specs.Left.{IsTooWide};
ghost use Rattle.yaml_json.specs.Nest.{IsOnlyItem, Opens, nest_end};
ghost use Rattle.yaml_tree.specs.View.{view};

use crate::white::Spacing;
use std::fmt;
use yaml_emitter::{Writer, put_ascii};
use yaml_tree::Yaml;

/// The most arrays that are opened at once: a nest that is deeper is written as several.
const MOST: usize = 64;

/// A nest of which the beginnings of all arrays were written.
#[derive(Clone, Copy)]
pub(crate) struct Nest<'a> {
    /// How many arrays there are.
    pub(crate) levels: usize,
    /// The margin of what stands in the innermost one.
    pub(crate) margin: usize,
    /// What stands there.
    pub(crate) inner: &'a Yaml,
}

/// The item of an array that has one alone.
#[inline(always)]
pub(crate) fn only_item(node: &Yaml) -> Option<&Yaml>
    ensures { IfSome result (λ item. IsOnlyItem (view item.now) (view node.now)) }
{
    let Yaml::Array(items) = node else {
        return None;
    };
    match items.as_slice() {
        [only] => Some(only),
        _ => None,
    }
}

/// Writes the beginnings of the arrays of a nest.
pub(crate) fn open_nest<'a, W: Writer, S: Spacing>(
    out: &mut W,
    spacing: S,
    margin: usize,
    node: &'a Yaml,
) -> Result<Nest<'a>, fmt::Error>
    ensures opened { IfOk result (λ n. Opens W.put_gives (S.indentation spacing) margin out.old (view node.now) out.new n.levels n.margin (view n.inner.now)) }
    ensures stopped { OnErr result (Stopped W.put_gives W.put_leaves (IsTooWide (S.indentation spacing) margin (nesting (view node.now))) out.old
        (json_text (S.indentation spacing) margin (view node.now)) out.new) }
{
    let mut levels = 0;
    let mut deepest = margin;
    let mut inner = node;
    'levels: while levels < MOST {
        let Some(only) = only_item(inner) else {
            return Ok(Nest {
                levels,
                margin: deepest,
                inner,
            });
        };
        let deeper = spacing.deeper(deepest)?;
        put_ascii(out, "[")?;
        spacing.new_line(out, deeper)?;
        levels += 1;
        deepest = deeper;
        inner = only;
    }
    Ok(Nest {
        levels,
        margin: deepest,
        inner,
    })
}

/// Writes the ends of so many arrays, where what stands in the innermost one has this margin.
pub(crate) fn close_nest<W: Writer, S: Spacing>(
    out: &mut W,
    spacing: S,
    margin: usize,
    levels: usize,
) -> fmt::Result
    ensures { Writes W.put_gives W.put_leaves out.old result (nest_end (S.indentation spacing) margin levels) out.new }
{
    let mut left = levels;
    let mut outer = margin;
    'left: while left > 0 {
        outer = spacing.shallower(outer);
        spacing.new_line(out, outer)?;
        put_ascii(out, "]")?;
        left -= 1;
    }
    Ok(())
}
