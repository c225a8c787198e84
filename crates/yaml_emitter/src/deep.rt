//! Arrays and hashes below the levels that calls write, in block style (YAML 1.2, section 8.2). What is left to write of
//! them stands in memory and not on the stack, however deep the tree is.
ghost use Rattle.std.specs.Prelude.{◌≡◌, ◌<◌, ◌+◌, ◌*◌, ◌++◌, ◌∷◌, Bool, true, false, OnOk};
ghost use Rattle.defs_tree.specs.Box.{box, is_block};
ghost use Rattle.yaml_tree.specs.View.{view};
ghost use Rattle.yaml_tree.specs.Weight.{nodes};
ghost use Rattle.yaml_emitter.specs.At.{stacked};
ghost use Rattle.yaml_emitter.specs.Deep.{value_text, rest_text, rests_text, rest_weight, rests_weight, IsRestValid, AreRestsValid, GoesOn, WritesFirst};
ghost use Rattle.yaml_emitter.specs.ValidTree.{IsValid};
ghost use Rattle.yaml_emitter.specs.Writing.{WritesUnless};
ghost use Rattle.yaml_emitter.specs.declared.deep.Rest.TheVariants.{Items, Pairs, Value};

use crate::line::break_line;
use crate::node::{
    Mark, Settings, begin_block, begin_entry, has_parts, is_scalar, put_spaced, write_scalar,
};
use crate::scalar::write_spelling;
use crate::writer::Writer;
use std::alloc::Global;
use std::fmt;
use yaml_tree::{Levels, Yaml};

/// The deepest level of an array or hash with parts: the parts stand one level deeper.
const DEEPEST: usize = (1 << 62) - 2;

/// What is left to write at a level.
#[derive(Clone, Copy)]
pub(crate) enum Rest<'a> {
    /// Items of an array, and whether they are all of its items.
    Items {
        level: usize,
        is_first: bool,
        items: &'a [Yaml],
    },
    /// Keys and values of a hash, in turn, and whether they are all of them.
    Pairs {
        level: usize,
        is_first: bool,
        row: &'a [Yaml],
    },
    /// The value of a complex key.
    Value {
        level: usize,
        node: &'a Yaml,
    },
}

impl<'a> Rest<'a> {
    // An array or hash with parts, whole.
    fn of(level: usize, block: &'a Yaml) -> Rest<'a>
        requires { is_block (view block.now) ≡ true }
        ensures text { (c m : Bool) → stacked level (box c m false (view block.now)) ≡ rest_text c m result }
        ensures weight { rest_weight result < 2 * nodes (view block.now) }
        ensures valid { IsRestValid result → IsValid (view block.now) }
    {
        match block {
            Yaml::Array(items) => Rest::Items {
                level,
                is_first: true,
                items: items.as_slice(),
            },
            Yaml::Hash(pairs) => Rest::Pairs {
                level,
                is_first: true,
                row: pairs.row(),
            },
            _ => unreachable!(),
        }
    }
}

/// Writes an array or hash with parts that starts at the level. An `Err` comes only if the writer refused a part of the
/// text, if memory was refused, or if a part would stand at level 2^62.
#[inline(never)]
pub(crate) fn write_deep<W: Writer>(
    out: &mut W,
    settings: &Settings,
    level: usize,
    block: &Yaml,
) -> fmt::Result
    requires { is_block (view block.now) ≡ true }
    ensures text { WritesUnless (Unit {0}) W.put_gives W.put_leaves out.old result
        (stacked level (box settings.now.compact settings.now.multiline false (view block.now))) out.new }
    ensures valid { OnOk result (IsValid (view block.now)) }
{
    let whole = Rest::of(level, block);
    let mut rests = Levels::new(allocator(block), whole);
    rests.push(whole)?;
    'rests: while let Some(rest) = rests.pop() {
        write_first(out, settings, rest, &mut rests)?;
    }
    Ok(())
}

// Where the memory of a block is from.
fn allocator(block: &Yaml) -> Global
    requires { is_block (view block.now) ≡ true }
{
    match block {
        Yaml::Array(items) => *items.allocator(),
        Yaml::Hash(pairs) => pairs.allocator(),
        _ => unreachable!(),
    }
}

// Writes the first part of what is left, and puts what is then left of it on top of the others.
fn write_first<'a, W: Writer>(
    out: &mut W,
    settings: &Settings,
    rest: Rest<'a>,
    outer: &mut Levels<Rest<'a>>,
) -> fmt::Result
    ensures { WritesFirst settings.now.compact settings.now.multiline W.put_gives W.put_leaves out.old (rest.entry ∷ outer.old) result out.new outer.new }
{
    match rest {
        Rest::Items {
            level,
            is_first,
            items,
        } => write_item(out, settings, level, is_first, items, outer),
        Rest::Pairs {
            level,
            is_first,
            row,
        } => write_pair(out, settings, level, is_first, row, outer),
        Rest::Value { level, node } => {
            break_line(out, level)?;
            begin_value(
                out,
                settings,
                level,
                Mark::Colon,
                !settings.compact,
                node,
                outer,
            )
        }
    }
}

fn write_item<'a, W: Writer>(
    out: &mut W,
    settings: &Settings,
    level: usize,
    is_first: bool,
    items: &'a [Yaml],
    outer: &mut Levels<Rest<'a>>,
) -> fmt::Result
    ensures { WritesFirst settings.now.compact settings.now.multiline W.put_gives W.put_leaves out.old (Items level is_first items.entry ∷ outer.old) result out.new outer.new }
{
    let Some((item, items)) = items.split_first() else {
        return Ok(());
    };
    begin_entry(out, level, is_first)?;
    outer.push(Rest::Items {
        level,
        is_first: false,
        items,
    })?;
    begin_value(
        out,
        settings,
        level,
        Mark::Dash,
        !settings.compact,
        item,
        outer,
    )
}

fn write_pair<'a, W: Writer>(
    out: &mut W,
    settings: &Settings,
    level: usize,
    is_first: bool,
    row: &'a [Yaml],
    outer: &mut Levels<Rest<'a>>,
) -> fmt::Result
    ensures { WritesFirst settings.now.compact settings.now.multiline W.put_gives W.put_leaves out.old (Pairs level is_first row.entry ∷ outer.old) result out.new outer.new }
{
    let Some((key, row)) = row.split_first() else {
        return Ok(());
    };
    let Some((value, row)) = row.split_first() else {
        return Ok(());
    };
    begin_entry(out, level, is_first)?;
    outer.push(Rest::Pairs {
        level,
        is_first: false,
        row,
    })?;
    if is_scalar(key) {
        write_spelling(out, key)?;
        return begin_value(out, settings, level, Mark::Colon, true, value, outer);
    }
    outer.push(Rest::Value { level, node: value })?;
    begin_value(
        out,
        settings,
        level,
        Mark::Question,
        !settings.compact,
        key,
        outer,
    )
}

// A mark at the level, and its value. A value with parts is only put on top of what is left.
fn begin_value<'a, W: Writer>(
    out: &mut W,
    settings: &Settings,
    level: usize,
    mark: Mark,
    blocks_lower: bool,
    node: &'a Yaml,
    outer: &mut Levels<Rest<'a>>,
) -> fmt::Result
    ensures { GoesOn settings.now.compact settings.now.multiline W.put_gives W.put_leaves out.old
        (value_text settings.now.compact settings.now.multiline level mark blocks_lower (view node.now) ++ rests_text settings.now.compact settings.now.multiline outer.old)
        (2 * nodes (view node.now) + rests_weight outer.old) (IsValid (view node.now) × AreRestsValid outer.old) result out.new outer.new }
{
    if level >= DEEPEST {
        return Err(fmt::Error);
    }
    if has_parts(node) {
        begin_block(out, level, mark, blocks_lower)?;
        outer.push(Rest::of(level + 1, node))?;
        return Ok(());
    }
    put_spaced(out, mark)?;
    write_scalar(out, settings.multiline, false, level + 1, node)
}
