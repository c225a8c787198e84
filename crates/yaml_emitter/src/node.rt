//! Nodes: scalars, and arrays and hashes in block style (YAML 1.2, chapter 8).
ghost use Rattle.std.specs.Prelude.{◌≡◌, ◌<◌, ◌+◌, ◌^◌, ◌++◌, max, chars, codes, true, false, if◌then◌else◌, OnOk};
ghost use Rattle.defs_tree.specs.Box.{box, item_boxes, pair_boxes, is_block, string_box};
ghost use Rattle.defs_tree.specs.DumpText.{dump_text};
ghost use Rattle.defs_tree.specs.Literal.{is_literal_text, is_root_literal};
ghost use Rattle.defs_tree.specs.Spelling.{is_scalar};
ghost use Rattle.defs_tree.specs.Tree.{array, hash, items_of, pairs_of};
ghost use Rattle.defs_tree.specs.Writable.{levels};
ghost use Rattle.yaml_tree.specs.View.{view, array_tree, hash_tree};
ghost use Rattle.yaml_emitter.specs.At.{stacked};
ghost use Rattle.yaml_emitter.specs.Entries.{mark_text, before_block, after_mark, before_entry, complex_text, pair_text, entries_text, scalar_box};
ghost use Rattle.yaml_emitter.specs.ValidTree.{IsValid, IsValidScalar};
ghost use Rattle.yaml_emitter.specs.Writing.{Writes, WritesUnless};

use crate::deep::write_deep;
use crate::line::break_line;
use crate::literal::{is_literal_text, is_root_literal, write_literal};
use crate::scalar::{write_spelling, write_string};
use crate::writer::{Writer, put_ascii};
use std::fmt;
use yaml_tree::{Array, Hash, Yaml};

/// How many levels are written by recursive calls, which take a frame of the stack each. What stands deeper is written by
/// a loop, in memory: so a shallow dump is as quick as calls are, and a deep one does not end the program. A block goes
/// from one to the other in `write_block` alone.
const SHALLOW: usize = 128;

/// The settings of an emitter.
#[derive(Clone, Copy)]
pub(crate) struct Settings {
    /// A block may start on the line of a dash, a question mark or the colon of a complex key.
    pub(crate) compact: bool,
    /// Strings of several lines are written as literal blocks, where they may be.
    pub(crate) multiline: bool,
}

/// Writes the line `---` and the document's root below it.
pub(crate) fn write_document<W: Writer>(
    out: &mut W,
    settings: &Settings,
    root: &Yaml,
) -> fmt::Result
    ensures text { WritesUnless (128 < levels (view root.now)) W.put_gives W.put_leaves out.old result
        (dump_text settings.now.compact settings.now.multiline (view root.now)) out.new }
    ensures valid { OnOk result (IsValid (view root.now)) }
{
    put_ascii(out, "---\n")?;
    write_node(out, settings, true, 0, root)
}

// A node that starts at the level.
fn write_node<W: Writer>(
    out: &mut W,
    settings: &Settings,
    at_root: bool,
    level: usize,
    node: &Yaml,
) -> fmt::Result
    requires { level < 2 ^ 62 }
    ensures text { WritesUnless (128 < level + levels (view node.now)) W.put_gives W.put_leaves out.old result
        (stacked level (box settings.now.compact settings.now.multiline at_root (view node.now))) out.new }
    ensures valid { OnOk result (IsValid (view node.now)) }
{
    if has_parts(node) {
        write_block(out, settings, level, node)
    } else {
        write_scalar(out, settings.multiline, at_root, level, node)
    }
}

// An array or hash with parts that starts at the level.
#[cycle(write)]
fn write_block<W: Writer>(
    out: &mut W,
    settings: &Settings,
    level: usize,
    node: &Yaml,
) -> fmt::Result
    requires level { level < 2 ^ 62 }
    requires block { is_block (view node.now) ≡ true }
    ensures text { WritesUnless (128 < level + levels (view node.now)) W.put_gives W.put_leaves out.old result
        (stacked level (box settings.now.compact settings.now.multiline false (view node.now))) out.new }
    ensures valid { OnOk result (IsValid (view node.now)) }
{
    if level >= SHALLOW {
        return write_deep(out, settings, level, node);
    }
    match node {
        Yaml::Array(items) => write_items(out, settings, level, items),
        Yaml::Hash(pairs) => write_pairs(out, settings, level, pairs),
        _ => unreachable!(),
    }
}

/// What stands before a value.
#[derive(Clone, Copy)]
pub(crate) enum Mark {
    /// The dash of an item.
    Dash,
    /// The question mark of a complex key.
    Question,
    /// The colon of a value.
    Colon,
}

// A mark at the level, and its value.
#[cycle(write)]
#[inline(always)]
fn write_value<W: Writer>(
    out: &mut W,
    settings: &Settings,
    level: usize,
    mark: Mark,
    blocks_lower: bool,
    node: &Yaml,
) -> fmt::Result
    requires { level + 1 < 2 ^ 62 }
    ensures text { WritesUnless (128 < level + 1 + levels (view node.now)) W.put_gives W.put_leaves out.old result
        (mark_text mark ++ after_mark blocks_lower level (view node.now) (box settings.now.compact settings.now.multiline false (view node.now))) out.new }
    ensures valid { OnOk result (IsValid (view node.now)) }
{
    if !has_parts(node) {
        put_spaced(out, mark)?;
        return write_scalar(out, settings.multiline, false, level + 1, node);
    }
    begin_block(out, level, mark, blocks_lower)?;
    write_block(out, settings, level + 1, node)
}

/// A mark, and a space or a new line for a block that goes lower. It is a call of its own, so that a level of a dump takes
/// less stack.
#[inline(never)]
#[tactic(auto, using(crate::proofs::WritingLemmas::calls_in_a_row))]
pub(crate) fn begin_block<W: Writer>(
    out: &mut W,
    level: usize,
    mark: Mark,
    blocks_lower: bool,
) -> fmt::Result
    requires { level < 2 ^ 62 }
    ensures { Writes W.put_gives W.put_leaves out.old result (mark_text mark ++ before_block blocks_lower level) out.new }
{
    if !blocks_lower {
        return put_spaced(out, mark);
    }
    put_mark(out, mark)?;
    break_line(out, level + 1)
}

fn put_mark<W: Writer>(out: &mut W, mark: Mark) -> fmt::Result
    ensures { Writes W.put_gives W.put_leaves out.old result (mark_text mark) out.new }
{
    match mark {
        Mark::Dash => put_ascii(out, "-"),
        Mark::Question => put_ascii(out, "?"),
        Mark::Colon => put_ascii(out, ":"),
    }
}

/// A mark and a space: for the same reason a call of its own.
#[inline(never)]
#[tactic(auto, using(crate::proofs::WritingLemmas::calls_in_a_row))]
pub(crate) fn put_spaced<W: Writer>(out: &mut W, mark: Mark) -> fmt::Result
    ensures { Writes W.put_gives W.put_leaves out.old result (mark_text mark ++ codes " ") out.new }
{
    put_mark(out, mark)?;
    put_ascii(out, " ")
}

/// Whether a node is an array or a hash that is not empty.
pub fn has_parts(node: &Yaml) -> bool
    ensures { result ≡ is_block (view node.now) }
{
    match node {
        Yaml::Array(items) => !items.is_empty(),
        Yaml::Hash(pairs) => !pairs.is_empty(),
        _ => false,
    }
}

#[cycle(write)]
fn write_items<W: Writer>(
    out: &mut W,
    settings: &Settings,
    level: usize,
    items: &Array,
) -> fmt::Result
    requires { level + 1 < 2 ^ 62 }
    ensures text { WritesUnless (128 < level + levels (array_tree items.now)) W.put_gives W.put_leaves out.old result
        (entries_text true level (item_boxes settings.now.compact settings.now.multiline (items_of items.now))) out.new }
    ensures valid { OnOk result (IsValid (array_tree items.now)) }
{
    let mut is_first = true;
    'items: for item in items {
        begin_entry(out, level, is_first)?;
        is_first = false;
        write_value(out, settings, level, Mark::Dash, !settings.compact, item)?;
    }
    Ok(())
}

#[cycle(write)]
fn write_pairs<W: Writer>(
    out: &mut W,
    settings: &Settings,
    level: usize,
    pairs: &Hash,
) -> fmt::Result
    requires { level + 1 < 2 ^ 62 }
    ensures text { WritesUnless (128 < level + levels (hash_tree pairs.now)) W.put_gives W.put_leaves out.old result
        (entries_text true level (pair_boxes settings.now.compact settings.now.multiline (pairs_of pairs.now))) out.new }
    ensures valid { OnOk result (IsValid (hash_tree pairs.now)) }
{
    let mut is_first = true;
    'pairs: for (key, value) in pairs.iter() {
        begin_entry(out, level, is_first)?;
        is_first = false;
        write_pair(out, settings, level, key, value)?;
    }
    Ok(())
}

/// The first entry starts where the array or hash does.
pub(crate) fn begin_entry<W: Writer>(out: &mut W, level: usize, is_first: bool) -> fmt::Result
    ensures { Writes W.put_gives W.put_leaves out.old result (before_entry is_first level) out.new }
{
    if is_first {
        return Ok(());
    }
    break_line(out, level)
}

#[cycle(write)]
fn write_pair<W: Writer>(
    out: &mut W,
    settings: &Settings,
    level: usize,
    key: &Yaml,
    value: &Yaml,
) -> fmt::Result
    requires { level + 1 < 2 ^ 62 }
    ensures text { WritesUnless (128 < level + 1 + max (levels (view key.now)) (levels (view value.now))) W.put_gives W.put_leaves
        out.old result (pair_text settings.now.compact settings.now.multiline level (view key.now) (view value.now)) out.new }
    ensures valid { OnOk result (IsValid (view key.now) × IsValid (view value.now)) }
{
    if is_scalar(key) {
        write_spelling(out, key)?;
        return write_value(out, settings, level, Mark::Colon, true, value);
    }
    write_complex_pair(out, settings, level, key, value)
}

// The colon after a complex key stands on a line of its own.
#[cycle(write)]
fn write_complex_pair<W: Writer>(
    out: &mut W,
    settings: &Settings,
    level: usize,
    key: &Yaml,
    value: &Yaml,
) -> fmt::Result
    requires { level + 1 < 2 ^ 62 }
    ensures text { WritesUnless (128 < level + 1 + max (levels (view key.now)) (levels (view value.now))) W.put_gives W.put_leaves
        out.old result (complex_text settings.now.compact settings.now.multiline level (view key.now) (view value.now)) out.new }
    ensures valid { OnOk result (IsValid (view key.now) × IsValid (view value.now)) }
{
    write_value(out, settings, level, Mark::Question, !settings.compact, key)?;
    break_line(out, level)?;
    write_value(out, settings, level, Mark::Colon, !settings.compact, value)
}

/// Whether a node is neither an array nor a hash.
pub(crate) fn is_scalar(node: &Yaml) -> bool
    ensures { result ≡ is_scalar (view node.now) }
{
    !matches!(node, Yaml::Array(_) | Yaml::Hash(_))
}

/// A scalar that is no key: a string of several lines may be a literal block.
#[tactic(auto, unfolding(defs_text::specs::Text::string_chars))]
pub(crate) fn write_scalar<W: Writer>(
    out: &mut W,
    multiline: bool,
    at_root: bool,
    level: usize,
    node: &Yaml,
) -> fmt::Result
    ensures text { Writes W.put_gives W.put_leaves out.old result
        (stacked level (scalar_box multiline at_root (view node.now))) out.new }
    ensures valid { IsValidScalar (view node.now) }
{
    if let Yaml::String(text) = node {
        return write_string_node(out, multiline, at_root, level, text.as_str());
    }
    write_spelling(out, node)
}

fn write_string_node<W: Writer>(
    out: &mut W,
    multiline: bool,
    at_root: bool,
    level: usize,
    text: &str,
) -> fmt::Result
    ensures { Writes W.put_gives W.put_leaves out.old result
        (stacked level (string_box multiline at_root (chars text.now))) out.new }
{
    if multiline && may_be_literal(text, at_root) {
        write_literal(out, level, text)
    } else {
        write_string(out, text)
    }
}

fn may_be_literal(text: &str, at_root: bool) -> bool
    ensures { result ≡ (if at_root then is_root_literal (chars text.now) else is_literal_text (chars text.now)) }
{
    if at_root {
        is_root_literal(text)
    } else {
        is_literal_text(text)
    }
}
