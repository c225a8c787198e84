//! Arrays and objects that are open.
ghost use Rattle.std.specs.Prelude.{◌≡◌, ◌<◌, ◌≤◌, length, IfOk, OnOk};
ghost use Rattle.defs_layout.specs.Marks.{double_quote};
ghost use Rattle.yaml_tree.specs.View.{view};
ghost use Rattle.yaml_json.specs.Reads.{IsKey};
ghost use Rattle.yaml_json.specs.Opened.{Puts, PutsItem, PutsMember, Adds, tree_in};

use crate::cursor::Cursor;
use crate::stop::Stop;
use crate::string::read_string;
use std::alloc::Global;
use std::mem;
use yaml_tree::{Array, Hash, Yaml};

/// An array or an object that is open where a value stands.
#[derive(Drop)]
pub(crate) enum Open {
    /// The values before.
    Array(Array),
    /// The members before, and the value's key.
    Object(Hash, Yaml),
}

/// A key, its colon, and the white space behind each.
#[inline(always)]
#[tactic(auto, using(crate::proofs::Collections::key_read))]
pub(crate) fn read_key(alloc: Global, cursor: &mut Cursor<'_>) -> Result<Yaml, Stop>
    ensures { IfOk result (λ key. IsKey (view key) cursor.old cursor.new) }
{
    if !cursor.take(b'"') {
        return Err(Stop::Foreign);
    }
    let key = read_string(alloc, cursor)?;
    cursor.skip_gap();
    if !cursor.take(b':') {
        return Err(Stop::Foreign);
    }
    cursor.skip_gap();
    Ok(Yaml::String(key))
}

impl Open {
    /// Takes the value that stands before the place, and goes on to the next one, or behind the collection's end. The result
    /// tells whether it ended.
    #[inline(always)]
    pub(crate) fn put(
        &mut self,
        alloc: Global,
        value: Yaml,
        cursor: &mut Cursor<'_>,
    ) -> Result<bool, Stop>
        ensures puts { IfOk result (λ ended. Puts self.old (view value) ended self.new cursor.old cursor.new) }
        ensures nearer { OnOk result (length cursor.new ≤ length cursor.old) }
    {
        match self {
            Open::Array(items) => put_item(items, value, cursor),
            Open::Object(pairs, key) => put_member(alloc, pairs, key, value, cursor),
        }
    }

    /// The collection, which has ended.
    pub(crate) fn into_tree(self) -> Yaml
        ensures { view result ≡ tree_in self }
    {
        match self {
            Open::Array(items) => Yaml::Array(items),
            Open::Object(pairs, _) => Yaml::Hash(pairs),
        }
    }
}

#[inline(always)]
fn put_item(items: &mut Array, value: Yaml, cursor: &mut Cursor<'_>) -> Result<bool, Stop>
    ensures puts { IfOk result (λ ended. PutsItem items.old (view value) ended items.new cursor.old cursor.new) }
    ensures nearer { OnOk result (length cursor.new ≤ length cursor.old) }
{
    if items.push(value).is_err() {
        return Err(Stop::OutOfMemory);
    }
    cursor.skip_gap();
    if cursor.take(b',') {
        cursor.skip_gap();
        return Ok(false);
    }
    if cursor.take(b']') {
        return Ok(true);
    }
    Err(Stop::Foreign)
}

#[inline(always)]
fn put_member(
    alloc: Global,
    pairs: &mut Hash,
    key: &mut Yaml,
    value: Yaml,
    cursor: &mut Cursor<'_>,
) -> Result<bool, Stop>
    ensures puts { IfOk result (λ ended. PutsMember pairs.old (view key.old) (view value) ended pairs.new (view key.new) cursor.old cursor.new) }
    ensures nearer { OnOk result (length cursor.new ≤ length cursor.old) }
{
    cursor.skip_gap();
    if cursor.take(b',') {
        cursor.skip_gap();
        let next = read_key(alloc, cursor)?;
        let last = mem::replace(key, next);
        insert_pair(pairs, last, value)?;
        return Ok(false);
    }
    if cursor.take(b'}') {
        let last = mem::replace(key, Yaml::Null);
        insert_pair(pairs, last, value)?;
        return Ok(true);
    }
    Err(Stop::Foreign)
}

// A JSON text of the class has no key twice.
#[inline(never)]
#[tactic(auto, using(crate::proofs::Collections::pair_added))]
fn insert_pair(pairs: &mut Hash, key: Yaml, value: Yaml) -> Result<(), Stop>
    ensures { OnOk result (Adds pairs.old (view key) (view value) pairs.new) }
{
    match pairs.insert(key, value) {
        Ok(None) => Ok(()),
        Ok(Some(_)) => Err(Stop::Foreign),
        Err(_) => Err(Stop::OutOfMemory),
    }
}
