//! A JSON value, with all that stands in it.
ghost use Rattle.std.specs.Prelude.{◌≡◌, ◌<◌, ◌≤◌, ℕ, List, ◌++◌, ◌∷◌, [], length, IfOk, OnOk};
ghost use Rattle.defs_layout.specs.Marks.{left_brace, left_bracket};
ghost use Rattle.yaml_tree.specs.View.{view};
ghost use Rattle.yaml_json.specs.Reads.{IsValue};
ghost use Rattle.yaml_json.specs.Opened.{AreOpen, HasValue, Begins, Ends, PutsLast};

use crate::cursor::Cursor;
use crate::open::{Open, read_key};
use crate::scalar::read_scalar;
use crate::stop::Stop;
use std::alloc::{AllocError, Global};
use yaml_tree::{Array, Hash, Yaml};

/// How many levels of arrays and objects there may be.
pub(crate) const LEVELS: usize = 255;

/// The value that stands here.
pub(crate) fn read_value(alloc: Global, cursor: &mut Cursor<'_>) -> Result<Yaml, Stop>
    ensures { IfOk result (λ tree. IsValue (view tree) 255 cursor.old cursor.new) }
{
    let mut opened = Vec::new(alloc);
    'values: loop {
        if let Some(tree) = read_next(alloc, &mut opened, cursor)? {
            return Ok(tree);
        }
    }
}

// Goes on to where the next value stands, or behind the end of the outermost one.
#[inline(always)]
fn read_next(
    alloc: Global,
    opened: &mut Vec<Open>,
    cursor: &mut Cursor<'_>,
) -> Result<Option<Yaml>, Stop>
    ensures read { IfOk result (λ ended. (text : List ℕ) → AreOpen opened.old.items 255 text cursor.old → Ends ended opened.new.items text cursor.new) }
    ensures nearer { OnOk result (length cursor.new < length cursor.old) }
{
    match begin_value(alloc, opened, cursor)? {
        Some(value) => end_value(alloc, opened, value, cursor),
        None => Ok(None),
    }
}

// A value that is whole, or none: then one more collection is open, and its first value stands here.
#[inline(always)]
fn begin_value(
    alloc: Global,
    opened: &mut Vec<Open>,
    cursor: &mut Cursor<'_>,
) -> Result<Option<Yaml>, Stop>
    ensures begins { IfOk result (λ begun. (text : List ℕ) → AreOpen opened.old.items 255 text cursor.old → Begins begun opened.new.items text cursor.new) }
    ensures nearer { OnOk result (length cursor.new < length cursor.old) }
{
    if cursor.take(b'{') {
        return begin_object(alloc, opened, cursor);
    }
    if cursor.take(b'[') {
        return begin_array(alloc, opened, cursor);
    }
    let value = read_scalar(alloc, cursor)?;
    Ok(Some(value))
}

// The same of an array, behind its bracket.
#[inline(always)]
fn begin_array(
    alloc: Global,
    opened: &mut Vec<Open>,
    cursor: &mut Cursor<'_>,
) -> Result<Option<Yaml>, Stop>
    ensures begins { IfOk result (λ begun. (text : List ℕ) → AreOpen opened.old.items 255 text (left_bracket ∷ cursor.old) → Begins begun opened.new.items text cursor.new) }
    ensures nearer { OnOk result (length cursor.new ≤ length cursor.old) }
{
    if opened.len() >= LEVELS {
        return Err(Stop::Foreign);
    }
    cursor.skip_gap();
    if cursor.take(b']') {
        return Ok(Some(Yaml::Array(Array::new(alloc))));
    }
    push_open(opened, Open::Array(Array::new(alloc)))?;
    Ok(None)
}

// The same of an object, behind its brace.
#[inline(always)]
fn begin_object(
    alloc: Global,
    opened: &mut Vec<Open>,
    cursor: &mut Cursor<'_>,
) -> Result<Option<Yaml>, Stop>
    ensures begins { IfOk result (λ begun. (text : List ℕ) → AreOpen opened.old.items 255 text (left_brace ∷ cursor.old) → Begins begun opened.new.items text cursor.new) }
    ensures nearer { OnOk result (length cursor.new ≤ length cursor.old) }
{
    if opened.len() >= LEVELS {
        return Err(Stop::Foreign);
    }
    cursor.skip_gap();
    if cursor.take(b'}') {
        return Ok(Some(Yaml::Hash(Hash::new(alloc))));
    }
    let key = read_key(alloc, cursor)?;
    push_open(opened, Open::Object(Hash::new(alloc), key))?;
    Ok(None)
}

#[inline(always)]
fn push_open(opened: &mut Vec<Open>, collection: Open) -> Result<(), AllocError>
    ensures { OnOk result (opened.new.items ≡ opened.old.items ++ collection ∷ []) }
{
    opened.reserve(1)?;
    opened.push_reserved(collection);
    Ok(())
}

// The value that stands before the place goes into the innermost collection. Where that ends, it is a value too, and so on.
#[inline(always)]
fn end_value(
    alloc: Global,
    opened: &mut Vec<Open>,
    value: Yaml,
    cursor: &mut Cursor<'_>,
) -> Result<Option<Yaml>, Stop>
    ensures ends { IfOk result (λ ended. (text : List ℕ) → HasValue opened.old.items (view value) text cursor.old → Ends ended opened.new.items text cursor.new) }
    ensures nearer { OnOk result (length cursor.new ≤ length cursor.old) }
{
    let mut value = value;
    'levels: while !opened.is_empty() {
        if !put_last(alloc, opened, value, cursor)? {
            return Ok(None);
        }
        let Some(collection) = opened.pop() else {
            return Err(Stop::Foreign);
        };
        value = collection.into_tree();
    }
    Ok(Some(value))
}

// The innermost collection takes the value.
#[inline(always)]
fn put_last(
    alloc: Global,
    opened: &mut Vec<Open>,
    value: Yaml,
    cursor: &mut Cursor<'_>,
) -> Result<bool, Stop>
    ensures puts { IfOk result (λ ended. PutsLast opened.old.items opened.new.items (view value) ended cursor.old cursor.new) }
    ensures nearer { OnOk result (length cursor.new ≤ length cursor.old) }
{
    match opened.last_mut() {
        Some(innermost) => innermost.put(alloc, value, cursor),
        None => Err(Stop::Foreign),
    }
}
