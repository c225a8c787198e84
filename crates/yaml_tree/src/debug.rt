//! How trees print for a programmer: as `Array([Integer(1), String("a")])`. What is half printed stands in memory and not
//! on the stack, however deep the tree is.
ghost use Rattle.std.specs.Prelude.{◌≡◌, ◌+◌, ◌<◌, IfOk, IfSome};
ghost use Rattle.yaml_tree.specs.Copying.{source_tree};
ghost use Rattle.yaml_tree.specs.Printing.{unprinted};
ghost use Rattle.yaml_tree.specs.View.{view};
ghost use Rattle.yaml_tree.specs.Weight.{nodes};

use crate::array::Array;
use crate::copy::Source;
use crate::hash::Hash;
use crate::levels::Levels;
use crate::lines::Lines;
use crate::yaml::Yaml;
use std::fmt::{self, Write};

/// An array or a hash of which some parts are printed.
#[derive(Clone, Copy)]
struct Level<'a> {
    // The items that are left, or the keys and values.
    rest: &'a [Yaml],
    is_hash: bool,
}

impl<'a> Level<'a> {
    fn new(source: Source<'a>) -> Level<'a>
        ensures { unprinted result < nodes (source_tree source.entry) }
    {
        let rest = source.row();
        let is_hash = matches!(source, Source::Pairs(_));
        Level { rest, is_hash }
    }

    // Whether the key before the next node awaits its value.
    fn awaits_value(&self) -> bool {
        self.is_hash && self.rest.len() % 2 == 1
    }

    fn opener(&self) -> &'static str {
        if self.is_hash { "{" } else { "[" }
    }

    fn closer(&self) -> &'static str {
        if self.is_hash { "}" } else { "]" }
    }
}

// Prints a scalar. Of an array or a hash it prints the name, and gives it back.
fn begin<'a, W: fmt::Write>(
    lines: &mut Lines<'_, W>,
    node: &'a Yaml,
) -> Result<Option<Source<'a>>, fmt::Error>
    ensures { IfOk result (λ o. IfSome o (λ s. source_tree s ≡ view node.now)) }
{
    match node {
        Yaml::Real(text) => lines.write_variant("Real", text)?,
        Yaml::Integer(n) => lines.write_variant("Integer", n)?,
        Yaml::String(text) => lines.write_variant("String", text)?,
        Yaml::Boolean(b) => lines.write_variant("Boolean", b)?,
        Yaml::Array(items) => {
            lines.begin_variant("Array")?;
            return Ok(Some(Source::Items(items)));
        }
        Yaml::Hash(pairs) => {
            lines.begin_variant("Hash")?;
            return Ok(Some(Source::Pairs(pairs)));
        }
        Yaml::Alias(n) => lines.write_variant("Alias", n)?,
        Yaml::Null => lines.write_str("Null")?,
        Yaml::BadValue => lines.write_str("BadValue")?,
    }
    Ok(None)
}

// Prints the bracket before the parts of an array or a hash.
fn enter<'a, W: fmt::Write>(
    lines: &mut Lines<'_, W>,
    source: Source<'a>,
) -> Result<Level<'a>, fmt::Error>
    ensures { IfOk result (λ l. unprinted l < nodes (source_tree source.entry)) }
{
    let level = Level::new(source);
    lines.begin_entries(level.opener(), level.rest.is_empty())?;
    Ok(level)
}

// Prints what stands behind a part of an array or a hash.
fn end_part<W: fmt::Write>(lines: &mut Lines<'_, W>, level: &Level<'_>) -> fmt::Result {
    if level.awaits_value() {
        return lines.write_str(": ");
    }
    lines.end_entry(level.rest.is_empty())
}

// Prints the parts before the next array or hash that has parts, and the beginning of that one, which it gives, or `None`
// at the end.
fn print_scalars<'a, W: fmt::Write>(
    lines: &mut Lines<'_, W>,
    level: &mut Level<'a>,
) -> Result<Option<Level<'a>>, fmt::Error>
    ensures { IfOk result (λ o. IfSome o (λ i. unprinted i + unprinted level.new < unprinted level.old)) }
{
    while let Some((node, rest)) = level.rest.split_first() {
        if !level.awaits_value() {
            lines.begin_entry();
        }
        level.rest = rest;
        if let Some(source) = begin(lines, node)? {
            let inner = enter(lines, source)?;
            if !inner.rest.is_empty() {
                return Ok(Some(inner));
            }
            lines.write_str(inner.closer())?;
            lines.end_variant()?;
        }
        end_part(lines, level)?;
    }
    Ok(None)
}

fn print<W: fmt::Write>(lines: &mut Lines<'_, W>, source: Source<'_>) -> fmt::Result {
    let mut level = enter(lines, source)?;
    let mut outer = Levels::new(source.allocator(), level);
    'levels: loop {
        match print_scalars(lines, &mut level)? {
            Some(inner) => {
                outer.push(level)?;
                level = inner;
            }
            None => {
                lines.write_str(level.closer())?;
                let Some(around) = outer.pop() else {
                    return Ok(());
                };
                level = around;
                lines.end_variant()?;
                end_part(lines, &level)?;
            }
        }
    }
}

impl fmt::Debug for Yaml {
    fn fmt<W: fmt::Write>(&self, f: &mut fmt::Formatter<W>) -> fmt::Result {
        let mut lines = Lines::new(f);
        match begin(&mut lines, self)? {
            Some(source) => {
                print(&mut lines, source)?;
                lines.end_variant()
            }
            None => Ok(()),
        }
    }
}

impl fmt::Debug for Array {
    fn fmt<W: fmt::Write>(&self, f: &mut fmt::Formatter<W>) -> fmt::Result {
        print(&mut Lines::new(f), Source::Items(self))
    }
}

impl fmt::Debug for Hash {
    fn fmt<W: fmt::Write>(&self, f: &mut fmt::Formatter<W>) -> fmt::Result {
        print(&mut Lines::new(f), Source::Pairs(self))
    }
}
