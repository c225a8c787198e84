//! Deep trees by loops, which take no stack for a level.
ghost use Rattle.std.specs.Prelude.{◌≡◌, ◌+◌, ◌^◌, ◌≤◌, ◌++◌, None, true, false, length, IfOk, IfErr, IfSome, IfNone, OnOk, OnErr};
ghost use Rattle.defs_layout.specs.Fault.{first_fault};
ghost use Rattle.defs_layout.specs.HasJson.{HasJson, nesting};
ghost use Rattle.defs_layout.specs.JsonText.{deeper, new_line, json_text};
ghost use Rattle.defs_tree.specs.Box.{is_block};
ghost use Rattle.yaml_emitter.specs.Writing.{Stopped, WritesUnless, Wrote};
ghost use Rattle.yaml_json.specs.Given.{IsGiven};
ghost use Rattle.yaml_json.specs.Left.{IsTooWide, parts_left, opening, closing, shallower};
ghost use Rattle.yaml_json.specs.Level.{left_in, tree_left};
ghost use Rattle.yaml_json.specs.Outcome.{IsDeep, Leaves};
ghost use Rattle.yaml_json.specs.Parts.{Ends, Stops};
ghost use Rattle.yaml_tree.specs.View.{view};

use crate::error::JsonError;
use crate::find::count_levels;
use crate::level::Level;
use crate::value::{write_flat, write_key};
use crate::white::{Spacing, begin_entry};
use std::alloc::Global;
use std::fmt;
use yaml_emitter::{Writer, has_parts, put_ascii};
use yaml_tree::Yaml;

/// Writes a deep tree, or answers which node has no JSON text. What waits at a level takes memory. There is a place for
/// each level before anything is written.
#[inline(never)]
#[tactic(auto, using(crate::proofs::GivenLemmas::has_json))]
pub(crate) fn write_deep<W: Writer, S: Spacing>(
    alloc: Global,
    tree: &Yaml,
    spacing: S,
    out: &mut W,
) -> Result<(), JsonError>
    requires deep { first_fault (view tree.now) ≡ None → IsDeep (view tree.now) }
    ensures has_json { OnOk result (HasJson (view tree.now)) }
    ensures written { OnOk result (W.calls_give out.old (json_text (S.indentation spacing) 0 (view tree.now)) out.new) }
    ensures err { IfErr result (Leaves W.put_gives W.put_leaves W.calls_leave (IsTooWide (S.indentation spacing) 0 (nesting (view tree.now))) (view tree.now)
        (json_text (S.indentation spacing) 0 (view tree.now)) out.old out.new) }
{
    let levels = count_levels(alloc, tree)?;
    let Ok(mut places) = vec![in alloc; Level::of(tree); levels] else {
        return Err(JsonError::OutOfMemory);
    };
    match write_levels(out, spacing, tree, &mut places) {
        Ok(()) => Ok(()),
        Err(error) => Err(JsonError::Refused(error)),
    }
}

// Writes an array or object that has parts. The places are for the levels around the one that is written.
fn write_levels<'a, W: Writer, S: Spacing>(
    out: &mut W,
    spacing: S,
    node: &'a Yaml,
    places: &mut [Level<'a>],
) -> fmt::Result
    requires parts { is_block (view node.now) ≡ true }
    requires room { nesting (view node.now) ≤ length places.old + 1 }
    ensures text { WritesUnless (IsTooWide (S.indentation spacing) 0 (nesting (view node.now))) W.put_gives W.put_leaves out.old result
        (json_text (S.indentation spacing) 0 (view node.now)) out.new }
    ensures given { OnOk result (IsGiven (view node.now)) }
{
    let mut level = Level::of(node);
    let mut margin = begin_level(out, spacing, 0, level)?;
    let mut is_first = true;
    let mut waiting = 0;
    'levels: loop {
        match write_entries(out, spacing, margin, is_first, level)? {
            Some(stop) => {
                level.passed = stop.passed;
                places[waiting] = level;
                waiting += 1;
                level = Level::of(stop.inner);
                margin = begin_level(out, spacing, margin, level)?;
                is_first = true;
            }
            None => {
                margin = end_level(out, spacing, margin, level)?;
                if waiting == 0 {
                    return Ok(());
                }
                waiting -= 1;
                level = places[waiting];
                is_first = false;
            }
        }
    }
}

// Writes the bracket before a level's parts, and returns their margin.
fn begin_level<W: Writer, S: Spacing>(
    out: &mut W,
    spacing: S,
    margin: usize,
    level: Level<'_>,
) -> Result<usize, fmt::Error>
    ensures margin { IfOk result (λ n. n ≡ deeper (S.indentation spacing) margin) }
    ensures wrote { OnOk result (Wrote W.put_gives out.old (opening (tree_left level.entry)) out.new) }
    ensures stopped { OnErr result (Stopped W.put_gives W.put_leaves (2 ^ 64 ≤ deeper (S.indentation spacing) margin) out.old (opening (tree_left level.entry)) out.new) }
{
    let inner = spacing.deeper(margin)?;
    put_ascii(out, level.opening())?;
    Ok(inner)
}

// Writes the bracket after a level's parts, and returns its own margin.
fn end_level<W: Writer, S: Spacing>(
    out: &mut W,
    spacing: S,
    margin: usize,
    level: Level<'_>,
) -> Result<usize, fmt::Error>
    ensures margin { IfOk result (λ n. n ≡ shallower (S.indentation spacing) margin) }
    ensures wrote { OnOk result (Wrote W.put_gives out.old
        (new_line (S.indentation spacing) (shallower (S.indentation spacing) margin) ++ closing (tree_left level.entry)) out.new) }
    ensures stopped { OnErr result (Stopped W.put_gives W.put_leaves ⊥ out.old
        (new_line (S.indentation spacing) (shallower (S.indentation spacing) margin) ++ closing (tree_left level.entry)) out.new) }
{
    let outer = spacing.shallower(margin);
    spacing.new_line(out, outer)?;
    put_ascii(out, level.closing())?;
    Ok(outer)
}

/// A part of a level that has parts itself.
#[derive(Clone, Copy)]
struct Stop<'a> {
    inner: &'a Yaml,
    /// How many nodes of the level's row are passed with it.
    passed: usize,
}

// Writes a level up to the next part that has parts itself, and what stands before that one, or to the end.
fn write_entries<'a, W: Writer, S: Spacing>(
    out: &mut W,
    spacing: S,
    margin: usize,
    is_first: bool,
    level: Level<'a>,
) -> Result<Option<Stop<'a>>, fmt::Error>
    ensures stop { IfOk result (λ o. IfSome o (λ s. Stops W.put_gives (S.indentation spacing) margin out.old is_first (tree_left level.entry) out.new (view s.inner.now)
        (left_in level.entry.is_hash level.entry.row.now s.passed))) }
    ensures end { IfOk result (λ o. IfNone o (Ends W.put_gives (S.indentation spacing) margin out.old is_first (tree_left level.entry) out.new)) }
    ensures stopped { OnErr result (Stopped W.put_gives W.put_leaves ⊥ out.old (parts_left is_first (S.indentation spacing) margin (tree_left level.entry)) out.new) }
{
    if level.is_hash {
        write_members_from(out, spacing, margin, is_first, level.row, level.passed)
    } else {
        write_items_from(out, spacing, margin, is_first, level.row, level.passed)
    }
}

fn write_items_from<'a, W: Writer, S: Spacing>(
    out: &mut W,
    spacing: S,
    margin: usize,
    is_first: bool,
    row: &'a [Yaml],
    passed: usize,
) -> Result<Option<Stop<'a>>, fmt::Error>
    ensures stop { IfOk result (λ o. IfSome o (λ s. Stops W.put_gives (S.indentation spacing) margin out.old is_first (left_in false row.now passed) out.new (view s.inner.now)
        (left_in false row.now s.passed))) }
    ensures end { IfOk result (λ o. IfNone o (Ends W.put_gives (S.indentation spacing) margin out.old is_first (left_in false row.now passed) out.new)) }
    ensures stopped { OnErr result (Stopped W.put_gives W.put_leaves ⊥ out.old (parts_left is_first (S.indentation spacing) margin (left_in false row.now passed)) out.new) }
{
    let mut at = passed;
    let mut comes_first = is_first;
    'at: while at < row.len() {
        let item = &row[at];
        at += 1;
        begin_entry(out, spacing, margin, comes_first)?;
        comes_first = false;
        if has_parts(item) {
            return Ok(Some(Stop {
                inner: item,
                passed: at,
            }));
        }
        write_flat(out, item)?;
    }
    Ok(None)
}

fn write_members_from<'a, W: Writer, S: Spacing>(
    out: &mut W,
    spacing: S,
    margin: usize,
    is_first: bool,
    row: &'a [Yaml],
    passed: usize,
) -> Result<Option<Stop<'a>>, fmt::Error>
    ensures stop { IfOk result (λ o. IfSome o (λ s. Stops W.put_gives (S.indentation spacing) margin out.old is_first (left_in true row.now passed) out.new (view s.inner.now)
        (left_in true row.now s.passed))) }
    ensures end { IfOk result (λ o. IfNone o (Ends W.put_gives (S.indentation spacing) margin out.old is_first (left_in true row.now passed) out.new)) }
    ensures stopped { OnErr result (Stopped W.put_gives W.put_leaves ⊥ out.old (parts_left is_first (S.indentation spacing) margin (left_in true row.now passed)) out.new) }
{
    let mut at = passed;
    let mut comes_first = is_first;
    'at: while at < row.len() {
        if at + 1 == row.len() {
            return Ok(None);
        }
        let key = &row[at];
        let value = &row[at + 1];
        at += 2;
        begin_entry(out, spacing, margin, comes_first)?;
        comes_first = false;
        write_key(out, key)?;
        spacing.end_key(out)?;
        if has_parts(value) {
            return Ok(Some(Stop {
                inner: value,
                passed: at,
            }));
        }
        write_flat(out, value)?;
    }
    Ok(None)
}
