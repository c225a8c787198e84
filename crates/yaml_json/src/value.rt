//! Values (RFC 8259, sections 3 to 6).
ghost use Rattle.std.specs.Prelude.{◌≡◌, true, chars, OnOk};
ghost use Rattle.defs_layout.specs.HasJson.{nesting, item_nesting, member_nesting};
ghost use Rattle.defs_layout.specs.JsonText.{json_text, key_text};
ghost use Rattle.defs_tree.specs.Box.{is_block};
ghost use Rattle.defs_tree.specs.Spelling.{boolean_spelling};
ghost use Rattle.defs_tree.specs.Tree.{items_of, pairs_of};
ghost use Rattle.yaml_emitter.specs.Writing.{Writes, WritesUnless};
ghost use Rattle.yaml_json.specs.Left.{IsTooWide, items_left, members_left, parts_left, part_nesting, opening, closing, flat_text};
ghost use Rattle.yaml_json.specs.Given.{IsGiven, IsFlatGiven, IsKeyGiven};
ghost use Rattle.yaml_tree.specs.View.{view, array_tree, hash_tree};

use crate::integer::write_integer;
use crate::nest::{close_nest, only_item, open_nest};
use crate::white::{Spacing, begin_entry};
use std::fmt;
use yaml_emitter::{Writer, has_parts, put_ascii, write_double_quoted};
use yaml_tree::{Array, Hash, Yaml};

/// Writes a value. An alias and a bad value have no text, nor has a key that is no string.
#[cycle(write)]
pub(crate) fn write_value<W: Writer, S: Spacing>(
    out: &mut W,
    spacing: S,
    margin: usize,
    node: &Yaml,
) -> fmt::Result
    ensures text { WritesUnless (IsTooWide (S.indentation spacing) margin (nesting (view node.now))) W.put_gives W.put_leaves out.old result
        (json_text (S.indentation spacing) margin (view node.now)) out.new }
    ensures given { OnOk result (IsGiven (view node.now)) }
{
    if !has_parts(node) {
        return write_flat(out, node);
    }
    match only_item(node) {
        Some(_) => write_nest(out, spacing, margin, node),
        None => write_node(out, spacing, margin, node),
    }
}

// A nest is written without a recursion for each of its arrays.
#[cycle(write)]
fn write_nest<W: Writer, S: Spacing>(
    out: &mut W,
    spacing: S,
    margin: usize,
    node: &Yaml,
) -> fmt::Result
    ensures text { WritesUnless (IsTooWide (S.indentation spacing) margin (nesting (view node.now))) W.put_gives W.put_leaves out.old result
        (json_text (S.indentation spacing) margin (view node.now)) out.new }
    ensures given { OnOk result (IsGiven (view node.now)) }
{
    let nest = open_nest(out, spacing, margin, node)?;
    write_node(out, spacing, nest.margin, nest.inner)?;
    close_nest(out, spacing, nest.margin, nest.levels)
}

#[cycle(write)]
fn write_node<W: Writer, S: Spacing>(
    out: &mut W,
    spacing: S,
    margin: usize,
    node: &Yaml,
) -> fmt::Result
    ensures text { WritesUnless (IsTooWide (S.indentation spacing) margin (nesting (view node.now))) W.put_gives W.put_leaves out.old result
        (json_text (S.indentation spacing) margin (view node.now)) out.new }
    ensures given { OnOk result (IsGiven (view node.now)) }
{
    if !has_parts(node) {
        return write_flat(out, node);
    }
    let (opening, closing) = brackets(node);
    let inner = spacing.deeper(margin)?;
    put_ascii(out, opening)?;
    write_parts(out, spacing, inner, node)?;
    spacing.new_line(out, margin)?;
    put_ascii(out, closing)
}

fn brackets(node: &Yaml) -> (&'static str, &'static str)
    ensures opening { result.0.now ≡ opening (view node.now) }
    ensures closing { result.1.now ≡ closing (view node.now) }
{
    match node {
        Yaml::Array(_) => ("[", "]"),
        _ => ("{", "}"),
    }
}

/// Writes a scalar, or an array or object that is empty.
#[tactic(auto, using(crate::proofs::GivenLemmas::text_given), unfolding(defs_text::specs::Text::string_chars))]
pub(crate) fn write_flat<W: Writer>(out: &mut W, node: &Yaml) -> fmt::Result
    ensures given { IsFlatGiven (view node.now) }
    ensures text { Writes W.put_gives W.put_leaves out.old result (flat_text (view node.now)) out.new }
{
    match node {
        Yaml::Real(text) => put_text(out, text.as_str()),
        Yaml::Integer(number) => write_integer(out, *number),
        Yaml::String(text) => write_double_quoted(out, text.as_str()),
        Yaml::Boolean(true) => put_ascii(out, "true"),
        Yaml::Boolean(false) => put_ascii(out, "false"),
        Yaml::Null => put_ascii(out, "null"),
        Yaml::Array(_) => put_ascii(out, "[]"),
        Yaml::Hash(_) => put_ascii(out, "{}"),
        Yaml::Alias(_) | Yaml::BadValue => Ok(()),
    }
}

// A text as it stands.
#[inline(never)]
fn put_text<W: Writer>(out: &mut W, text: &str) -> fmt::Result
    ensures { Writes W.put_gives W.put_leaves out.old result (chars text.now) out.new }
{
    out.put(text)
}

#[cycle(write)]
fn write_parts<W: Writer, S: Spacing>(
    out: &mut W,
    spacing: S,
    margin: usize,
    node: &Yaml,
) -> fmt::Result
    requires { is_block (view node.now) ≡ true }
    ensures text { WritesUnless (IsTooWide (S.indentation spacing) margin (part_nesting (view node.now))) W.put_gives W.put_leaves out.old result
        (parts_left true (S.indentation spacing) margin (view node.now)) out.new }
    ensures given { OnOk result (IsGiven (view node.now)) }
{
    match node {
        Yaml::Array(items) => write_items(out, spacing, margin, items),
        Yaml::Hash(pairs) => write_members(out, spacing, margin, pairs),
        _ => unreachable!(),
    }
}

#[cycle(write)]
fn write_items<W: Writer, S: Spacing>(
    out: &mut W,
    spacing: S,
    margin: usize,
    items: &Array,
) -> fmt::Result
    ensures text { WritesUnless (IsTooWide (S.indentation spacing) margin (item_nesting (items_of items.now))) W.put_gives W.put_leaves out.old result
        (items_left true (S.indentation spacing) margin (items_of items.now)) out.new }
    ensures given { OnOk result (IsGiven (array_tree items.now)) }
{
    let mut is_first = true;
    'items: for item in items {
        begin_entry(out, spacing, margin, is_first)?;
        is_first = false;
        write_value(out, spacing, margin, item)?;
    }
    Ok(())
}

#[cycle(write)]
fn write_members<W: Writer, S: Spacing>(
    out: &mut W,
    spacing: S,
    margin: usize,
    pairs: &Hash,
) -> fmt::Result
    ensures text { WritesUnless (IsTooWide (S.indentation spacing) margin (member_nesting (pairs_of pairs.now))) W.put_gives W.put_leaves out.old result
        (members_left true (S.indentation spacing) margin (pairs_of pairs.now)) out.new }
    ensures given { OnOk result (IsGiven (hash_tree pairs.now)) }
{
    let mut is_first = true;
    'pairs: for (key, value) in pairs.iter() {
        begin_entry(out, spacing, margin, is_first)?;
        is_first = false;
        write_key(out, key)?;
        spacing.end_key(out)?;
        write_value(out, spacing, margin, value)?;
    }
    Ok(())
}

/// Writes a key that is a string.
#[tactic(auto, using(crate::proofs::GivenLemmas::text_given), unfolding(defs_text::specs::Text::string_chars))]
pub(crate) fn write_key<W: Writer>(out: &mut W, key: &Yaml) -> fmt::Result
    ensures given { IsKeyGiven (view key.now) }
    ensures text { Writes W.put_gives W.put_leaves out.old result (key_text (view key.now)) out.new }
{
    match key {
        Yaml::String(text) => write_double_quoted(out, text.as_str()),
        _ => Ok(()),
    }
}
