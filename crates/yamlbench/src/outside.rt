//! Calls that are no loads: decoding, pairs put into a hash, and what else goes through a tree.

use crate::last_document;
use overlay::merge_keys::merge;
use overlay::overlay;
use std::alloc::{AllocError, Global};
use std::fmt::Write as _;
use std::{fmt, str};
use yaml_encoding::{YAMLDecodingTrap, text_of};
use yaml_json::write_json;
use yaml_rust2::emitter::FmtWriter;
use yaml_rust2::laws::laid_out;
use yaml_rust2::yaml::{Array, Hash};
use yaml_rust2::{Yaml, YamlLoader};

/// Decodes bytes so many times, with malformations left out (0) or replaced (1): the bytes of the text, or -1 where memory is
/// refused.
#[unsafe(no_mangle)]
pub extern "C" fn yamlbench_decode(alloc: Global, bytes: &[u8], replace: bool, rounds: u32) -> i64 {
    let mut length = 0;
    for _ in 0..rounds {
        let trap = if replace {
            YAMLDecodingTrap::Replace
        } else {
            YAMLDecodingTrap::Ignore
        };
        let Ok(text) = text_of(alloc, bytes, trap) else {
            return -1;
        };
        length = i64::try_from(text.len()).unwrap_or(i64::MAX);
    }
    length
}

/// What is done with the keys of a hash.
#[derive(Clone, Copy)]
struct Deed {
    // Each key is put in once more.
    again: bool,
    // Each key is removed and put in again.
    removed: bool,
    // Each key is looked up.
    found: bool,
    // The keys are strings.
    strings: bool,
}

/// Fills a hash with so many integers, so many times, and then does what the bits of `deed` say: 1 puts each key in once more,
/// 2 removes it and puts it in again, 4 looks it up; with 8 the keys are strings. They come in order, or by steps of `step`: the
/// pairs of the last hash, or -1 where memory is refused.
#[unsafe(no_mangle)]
pub extern "C" fn yamlbench_fill(
    alloc: Global,
    count: u32,
    step: u32,
    deed: u32,
    rounds: u32,
) -> i64 {
    let deed = Deed {
        again: deed & 1 != 0,
        removed: deed & 2 != 0,
        found: deed & 4 != 0,
        strings: deed & 8 != 0,
    };
    let mut length = 0;
    for _ in 0..rounds {
        match filled(alloc, count, step, deed) {
            Ok(pairs) => length = i64::try_from(pairs.len()).unwrap_or(i64::MAX),
            Err(_) => return -1,
        }
    }
    length
}

fn filled(alloc: Global, count: u32, step: u32, deed: Deed) -> Result<Hash, AllocError> {
    let mut pairs = Hash::new(alloc);
    for i in 0..count {
        put(&mut pairs, key(alloc, i, step, count, deed.strings)?)?;
    }
    if !deed.again && !deed.removed && !deed.found {
        return Ok(pairs);
    }
    for i in 0..count {
        do_with(&mut pairs, key(alloc, i, step, count, deed.strings)?, deed)?;
    }
    Ok(pairs)
}

// The key number `i`: by steps through as many keys as there are.
fn key(alloc: Global, i: u32, step: u32, count: u32, is_string: bool) -> Result<Yaml, AllocError> {
    let number = u64::from(i).wrapping_mul(u64::from(step));
    let number = number % u64::from(count.max(1));
    if is_string {
        return Ok(Yaml::String(format!(in alloc; "key-{number:05}")?));
    }
    Ok(Yaml::Integer(number as i64))
}

fn put(pairs: &mut Hash, key: Yaml) -> Result<(), AllocError> {
    match pairs.insert(key, Yaml::Null) {
        Ok(_) => Ok(()),
        Err(_) => Err(AllocError),
    }
}

fn do_with(pairs: &mut Hash, key: Yaml, deed: Deed) -> Result<(), AllocError> {
    if deed.found && pairs.get(&key).is_none() {
        return Err(AllocError);
    }
    if deed.removed {
        let _ = pairs.remove(&key);
        return put(pairs, key);
    }
    if deed.again {
        return put(pairs, key);
    }
    Ok(())
}

/// How many documents a text has whose characters come one by one, or -1 where it is refused. The trees are made and dropped.
#[unsafe(no_mangle)]
pub extern "C" fn yamlbench_load_from_iter(alloc: Global, text: &[u8]) -> i64 {
    let Ok(text) = str::from_utf8(text) else {
        return -1;
    };
    match YamlLoader::load_from_iter(alloc, text.chars()) {
        Ok(documents) => i64::try_from(documents.len()).unwrap_or(i64::MAX),
        Err(_) => -1,
    }
}

/// How many bytes the JSON text takes of a tree that has a level for each byte, the innermost first: `[` is an array of one item,
/// `,` one with an item after that, `{` a hash of one pair, and any other one with a pair after that. -1 where memory is refused.
#[unsafe(no_mangle)]
pub extern "C" fn yamlbench_json_of_levels(alloc: Global, levels: &[u8]) -> i64 {
    let Ok(tree) = nested(alloc, levels) else {
        return -1;
    };
    let mut writer = FmtWriter::new(Counter { bytes: 0 });
    if write_json(alloc, &tree, &mut writer).is_err() {
        return -1;
    }
    i64::try_from(writer.into_inner().bytes).unwrap_or(i64::MAX)
}

fn nested(alloc: Global, levels: &[u8]) -> Result<Yaml, AllocError> {
    let mut tree = Yaml::Null;
    for level in levels {
        tree = match *level {
            b'[' => Yaml::Array(array_around(alloc, tree)?),
            b',' => {
                let mut items = array_around(alloc, tree)?;
                items.push(Yaml::Integer(1)).map_err(|_| AllocError)?;
                Yaml::Array(items)
            }
            b'{' => Yaml::Hash(hash_around(alloc, tree)?),
            _ => {
                let mut pairs = hash_around(alloc, tree)?;
                insert(alloc, &mut pairs, "b", Yaml::Integer(1))?;
                Yaml::Hash(pairs)
            }
        };
    }
    Ok(tree)
}

fn array_around(alloc: Global, tree: Yaml) -> Result<Array, AllocError> {
    let mut items = Array::new(alloc);
    items.push(tree).map_err(|_| AllocError)?;
    Ok(items)
}

fn hash_around(alloc: Global, tree: Yaml) -> Result<Hash, AllocError> {
    let mut pairs = Hash::new(alloc);
    insert(alloc, &mut pairs, "a", tree)?;
    Ok(pairs)
}

fn insert(alloc: Global, pairs: &mut Hash, key: &str, value: Yaml) -> Result<(), AllocError> {
    let key = Yaml::from_str(alloc, key)?;
    match pairs.insert(key, value) {
        Ok(_) => Ok(()),
        Err(_) => Err(AllocError),
    }
}

/// Carries out the merge keys of a text's last document: 1, or -1 where that is refused.
#[unsafe(no_mangle)]
pub extern "C" fn yamlbench_merge(alloc: Global, text: &[u8]) -> i64 {
    let Some(tree) = last_document(alloc, text) else {
        return -1;
    };
    if merge(alloc, &tree).is_ok() { 1 } else { -1 }
}

/// Lays a text's last document over itself: 1, or -1 where memory is refused.
#[unsafe(no_mangle)]
pub extern "C" fn yamlbench_overlay_itself(alloc: Global, text: &[u8]) -> i64 {
    let Some(tree) = last_document(alloc, text) else {
        return -1;
    };
    if overlay(alloc, &tree, &tree).is_ok() {
        1
    } else {
        -1
    }
}

/// Visits a text's last document by the law `laid_out`: 1, or -1 where the text is refused.
#[unsafe(no_mangle)]
pub extern "C" fn yamlbench_laid_out(alloc: Global, text: &[u8]) -> i64 {
    let Some(tree) = last_document(alloc, text) else {
        return -1;
    };
    laid_out(&tree, true, false);
    1
}

/// How many bytes `Debug` prints of a text's last document, or -1 where the text is refused.
#[unsafe(no_mangle)]
pub extern "C" fn yamlbench_debug_length(alloc: Global, text: &[u8]) -> i64 {
    let Some(tree) = last_document(alloc, text) else {
        return -1;
    };
    let mut counter = Counter { bytes: 0 };
    if write!(&mut counter, "{tree:?}").is_err() {
        return -1;
    }
    i64::try_from(counter.bytes).unwrap_or(i64::MAX)
}

/// Counts what is written, and keeps none of it.
#[derive(Drop)]
pub(crate) struct Counter {
    pub(crate) bytes: u64,
}

impl fmt::Write for Counter {
    fn write_str(&mut self, text: &str) -> fmt::Result {
        self.bytes = self.bytes.wrapping_add(text.len() as u64);
        Ok(())
    }
}
