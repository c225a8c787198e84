//! What C programs measure: loads of a text, and what is done with its trees.
#![tactic(auto)]

mod calls;
mod faults;
mod outside;

use crate::calls::{End, call_all, load_by_parser};
use crate::outside::Counter;
use overlay::overlay;
use std::alloc::{AllocError, Global};
use std::hash::{DefaultHasher, Hash as _, Hasher};
use std::{slice, str};
use yaml_json::write_json;
use yaml_loader::documents::Documents;
use yaml_loader::limits::{Limits, LimitsError, load_with_limits};
use yaml_loader::marked::load_marked;
use yaml_rust2::emitter::FmtWriter;
use yaml_rust2::{Yaml, YamlEmitter, YamlLoader};

/// How many documents a text has, or -1 where it is refused. The trees are made and dropped.
#[unsafe(no_mangle)]
pub extern "C" fn yamlbench_load(alloc: Global, text: &[u8]) -> i64 {
    match str::from_utf8(text) {
        Ok(text) => load(alloc, text),
        Err(_) => -1,
    }
}

fn load(alloc: Global, text: &str) -> i64 {
    match YamlLoader::load_from_str(alloc, text) {
        Ok(documents) => i64::try_from(documents.len()).unwrap_or(i64::MAX),
        Err(_) => -1,
    }
}

/// How many documents a text has, or -1 where it is refused. Each tree is made after the one before was dropped.
#[unsafe(no_mangle)]
pub extern "C" fn yamlbench_load_in_turn(alloc: Global, text: &[u8]) -> i64 {
    match str::from_utf8(text) {
        Ok(text) => load_in_turn(alloc, text),
        Err(_) => -1,
    }
}

fn load_in_turn(alloc: Global, text: &str) -> i64 {
    let mut count = 0_i64;
    for document in Documents::new(alloc, text) {
        if document.is_err() {
            return -1;
        }
        count = count.saturating_add(1);
    }
    count
}

/// How many documents a text has, or -1 where it is refused. The trees are made with the positions of their nodes, and
/// dropped.
#[unsafe(no_mangle)]
pub extern "C" fn yamlbench_load_marked(alloc: Global, text: &[u8]) -> i64 {
    match str::from_utf8(text) {
        Ok(text) => marked_load(alloc, text),
        Err(_) => -1,
    }
}

fn marked_load(alloc: Global, text: &str) -> i64 {
    match load_marked(alloc, text) {
        Ok(documents) => i64::try_from(documents.len()).unwrap_or(i64::MAX),
        Err(_) => -1,
    }
}

/// How many documents a text has, or -1 where it is refused, or -2 where it exceeds the limits for a text of its length.
#[unsafe(no_mangle)]
pub extern "C" fn yamlbench_load_with_limits(alloc: Global, text: &[u8]) -> i64 {
    match str::from_utf8(text) {
        Ok(text) => limited_load(alloc, text, Limits::for_text(text)),
        Err(_) => -1,
    }
}

/// The same within so many levels and this size.
#[unsafe(no_mangle)]
pub extern "C" fn yamlbench_load_within(alloc: Global, text: &[u8], limit: usize) -> i64 {
    let limits = Limits {
        levels: limit,
        size: limit,
    };
    match str::from_utf8(text) {
        Ok(text) => limited_load(alloc, text, limits),
        Err(_) => -1,
    }
}

fn limited_load(alloc: Global, text: &str, limits: Limits) -> i64 {
    match load_with_limits(alloc, text, limits) {
        Ok(documents) => i64::try_from(documents.len()).unwrap_or(i64::MAX),
        Err(LimitsError::Scan(_)) => -1,
        Err(_) => -2,
    }
}

/// Loads a text within limits, and calls what goes through its documents: comparison, hashing, `Debug`, dump, overlay and
/// copy. It gives 1, or -1 or -2 as [`yamlbench_load_with_limits`].
#[unsafe(no_mangle)]
pub extern "C" fn yamlbench_use_within_limits(alloc: Global, text: &[u8]) -> i64 {
    let Ok(text) = str::from_utf8(text) else {
        return -1;
    };
    match load_with_limits(alloc, text, Limits::for_text(text)) {
        Ok(documents) => {
            call_on_each(alloc, documents.as_slice());
            1
        }
        Err(LimitsError::Scan(_)) => -1,
        Err(_) => -2,
    }
}

// What these calls give does not matter here: only that they return.
fn call_on_each(alloc: Global, documents: &[Yaml]) {
    for document in documents {
        call_on(alloc, document);
    }
}

fn call_on(alloc: Global, document: &Yaml) {
    let Ok(copy) = document.clone(alloc) else {
        return;
    };
    let _equal = *document == copy;
    let mut hasher = DefaultHasher::new();
    document.hash(&mut hasher);
    let _hash = hasher.finish();
    let _laid = overlay(alloc, document, &copy).is_ok();
    let _dumped = dump(alloc, slice::from_ref(document), true, false).is_some();
    let _shown = shown(alloc, document).is_ok();
}

fn shown(alloc: Global, document: &Yaml) -> Result<String, AllocError> {
    format!(in alloc; "{document:?}")
}

/// Loads a text, and dumps its documents so many times: the bytes of a dump, or -1 where a text or memory is refused.
#[unsafe(no_mangle)]
pub extern "C" fn yamlbench_dump(
    alloc: Global,
    text: &[u8],
    compact: bool,
    multiline: bool,
    rounds: u32,
) -> i64 {
    dump_all(alloc, text, compact, multiline, rounds)
        .and_then(|bytes| i64::try_from(bytes).ok())
        .unwrap_or(-1)
}

fn dump_all(
    alloc: Global,
    text: &[u8],
    compact: bool,
    multiline: bool,
    rounds: u32,
) -> Option<usize> {
    let text = str::from_utf8(text).ok()?;
    let documents = YamlLoader::load_from_str(alloc, text).ok()?;
    let mut bytes = 0;
    for _ in 0..rounds {
        bytes = dump(alloc, documents.as_slice(), compact, multiline)?.len();
    }
    Some(bytes)
}

fn dump(alloc: Global, documents: &[Yaml], compact: bool, multiline: bool) -> Option<String> {
    let mut dumps = String::new(alloc);
    for document in documents {
        let mut emitter = YamlEmitter::new(&mut dumps);
        emitter.compact(compact);
        emitter.multiline_strings(multiline);
        emitter.dump(document).ok()?;
    }
    Some(dumps)
}

/// Loads a text, and writes its documents as JSON so many times: the bytes written, or -1 where a text or memory is
/// refused, or a document has no JSON text.
#[unsafe(no_mangle)]
pub extern "C" fn yamlbench_write_json(alloc: Global, text: &[u8], rounds: u32) -> i64 {
    write_json_all(alloc, text, rounds)
        .and_then(|bytes| i64::try_from(bytes).ok())
        .unwrap_or(-1)
}

fn write_json_all(alloc: Global, text: &[u8], rounds: u32) -> Option<usize> {
    let text = str::from_utf8(text).ok()?;
    let documents = YamlLoader::load_from_str(alloc, text).ok()?;
    let mut bytes = 0;
    for _ in 0..rounds {
        bytes = as_json(alloc, documents.as_slice())?.len();
    }
    Some(bytes)
}

fn as_json(alloc: Global, documents: &[Yaml]) -> Option<String> {
    let mut texts = String::new(alloc);
    for document in documents {
        write_json(alloc, document, &mut texts).ok()?;
    }
    Some(texts)
}

/// Lays the last document of one text over that of another: 1, or -1 where a text or memory is refused.
#[unsafe(no_mangle)]
pub extern "C" fn yamlbench_overlay(alloc: Global, below: &[u8], above: &[u8]) -> i64 {
    match (last_document(alloc, below), last_document(alloc, above)) {
        (Some(below), Some(above)) => {
            if overlay(alloc, &below, &above).is_ok() {
                1
            } else {
                -1
            }
        }
        _ => -1,
    }
}

/// Makes each call that takes memory with a text: 1, or -1 where the text or memory is refused, or -2 where an answer is
/// wrong.
#[unsafe(no_mangle)]
pub extern "C" fn yamlbench_calls(alloc: Global, text: &[u8]) -> i64 {
    let Ok(text) = str::from_utf8(text) else {
        return -1;
    };
    match call_all(alloc, text) {
        Ok(()) => 1,
        Err(End::Refused) => -1,
        Err(End::Wrong) => -2,
    }
}

/// Loads a text where declared handles are kept: 1, or 0 where it has a fault of its own, or -1 where memory is refused.
#[unsafe(no_mangle)]
pub extern "C" fn yamlbench_load_with_kept_handles(alloc: Global, text: &[u8]) -> i64 {
    let Ok(text) = str::from_utf8(text) else {
        return 0;
    };
    match load_by_parser(alloc, text) {
        Ok(_) => 1,
        Err(End::Refused) => -1,
        Err(End::Wrong) => 0,
    }
}

fn last_document(alloc: Global, text: &[u8]) -> Option<Yaml> {
    let text = str::from_utf8(text).ok()?;
    YamlLoader::load_from_str(alloc, text).ok()?.pop()
}

/// The lowest bit of the hash of a text's last document, or -1 where the text is refused.
#[unsafe(no_mangle)]
pub extern "C" fn yamlbench_hash(alloc: Global, text: &[u8]) -> i64 {
    let Some(tree) = last_document(alloc, text) else {
        return -1;
    };
    let mut hasher = DefaultHasher::new();
    tree.hash(&mut hasher);
    (hasher.finish() % 2) as i64
}

/// How many bytes a dump of a text's last document takes, or -1 where the text is refused. They are not kept.
#[unsafe(no_mangle)]
pub extern "C" fn yamlbench_dump_length(alloc: Global, text: &[u8]) -> i64 {
    let Some(tree) = last_document(alloc, text) else {
        return -1;
    };
    let mut writer = FmtWriter::new(Counter { bytes: 0 });
    if YamlEmitter::new(&mut writer).dump(&tree).is_err() {
        return -1;
    }
    i64::try_from(writer.into_inner().bytes).unwrap_or(i64::MAX)
}
