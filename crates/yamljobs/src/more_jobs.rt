//! What is done with trees, and beside them.

use crate::digest::Digest;
use crate::files::{Subject, put_file};
use crate::jobs::add_fault;
use crate::json::{Dump, put_dump};
use crate::maker::Maker;
use crate::random::Random;
use crate::results::{add_event, add_positions};
use crate::settings::put_settings;
use overlay::overlay;
use std::alloc::{AllocError, Global};
use yaml_json::{write_json, write_json_indented};
use yaml_loader::documents::Documents;
use yaml_loader::marked::load_marked;
use yaml_rust2::parser::{Event, Parser};
use yaml_rust2::{Yaml, YamlEmitter, YamlLoader};

/// Loads a file, changes it, and dumps it in three settings.
pub fn format_file(alloc: Global, random: Random, digest: &mut Digest) -> Result<(), AllocError> {
    let mut file = Maker::new(alloc, random);
    put_file(&mut file, Subject::Calls, 20_000)?;
    reformat(alloc, file.text(), digest)?;
    let mut file = Maker::new(alloc, random);
    put_file(&mut file, Subject::Changes, 20_000)?;
    reformat(alloc, file.text(), digest)?;
    let mut file = Maker::new(alloc, random);
    put_file(&mut file, Subject::Messages, 20_000)?;
    reformat(alloc, file.text(), digest)?;
    let mut file = Maker::new(alloc, random);
    put_file(&mut file, Subject::Machines, 20_000)?;
    reformat(alloc, file.text(), digest)
}

fn reformat(alloc: Global, text: &str, digest: &mut Digest) -> Result<(), AllocError> {
    match YamlLoader::load_from_str(alloc, text) {
        Ok(documents) => {
            for document in documents.iter() {
                change(alloc, document, digest)?;
            }
            Ok(())
        }
        Err(fault) => add_fault(digest, &fault),
    }
}

fn change(alloc: Global, document: &Yaml, digest: &mut Digest) -> Result<(), AllocError> {
    let mut other = document.clone(alloc)?;
    if let Some(pairs) = other.as_mut_hash() {
        let key = Yaml::String(String::from_str(alloc, "changed")?);
        pairs
            .insert(key, Yaml::Boolean(true))
            .map_err(|_| AllocError)?;
    }
    let changed = overlay(alloc, document, &other)?;
    dump(alloc, &changed, (true, false), digest)?;
    dump(alloc, &changed, (false, false), digest)?;
    dump(alloc, &changed, (true, true), digest)
}

fn dump(
    alloc: Global,
    tree: &Yaml,
    settings: (bool, bool),
    digest: &mut Digest,
) -> Result<(), AllocError> {
    let mut text = String::new(alloc);
    let mut emitter = YamlEmitter::new(&mut text);
    emitter.compact(settings.0);
    emitter.multiline_strings(settings.1);
    emitter.dump(tree).map_err(|_| AllocError)?;
    digest.add_text(text.as_str());
    Ok(())
}

/// What other tools ask for: events, positions, JSON.
pub fn tools(alloc: Global, random: Random, digest: &mut Digest) -> Result<(), AllocError> {
    let mut file = Maker::new(alloc, random);
    put_file(&mut file, Subject::Calls, 40_000)?;
    add_events(alloc, file.text(), digest)?;
    let mut file = Maker::new(alloc, random);
    put_file(&mut file, Subject::Machines, 40_000)?;
    add_marks(alloc, file.text(), digest)?;
    let mut file = Maker::new(alloc, random);
    put_file(&mut file, Subject::Rules, 40_000)?;
    add_json(alloc, file.text(), digest)?;
    let mut file = Maker::new(alloc, random);
    put_dump(&mut file, Dump::Records, 40_000)?;
    add_json(alloc, file.text(), digest)
}

fn add_events(alloc: Global, text: &str, digest: &mut Digest) -> Result<(), AllocError> {
    let mut parser = Parser::new_from_str(alloc, text);
    for _ in 0..u64::MAX {
        match parser.next_token() {
            Ok((Event::StreamEnd, _)) => return Ok(()),
            Ok((event, mark)) => {
                add_event(digest, &event);
                digest.add_mark(mark);
            }
            Err(fault) => return add_fault(digest, &fault),
        }
    }
    Ok(())
}

fn add_marks(alloc: Global, text: &str, digest: &mut Digest) -> Result<(), AllocError> {
    match load_marked(alloc, text) {
        Ok(documents) => {
            for i in 0..documents.len() {
                if let Some(root) = documents.get(i) {
                    add_positions(alloc, root, digest)?;
                }
            }
            digest.add_trees(documents.documents());
            Ok(())
        }
        Err(fault) => add_fault(digest, &fault),
    }
}

fn add_json(alloc: Global, text: &str, digest: &mut Digest) -> Result<(), AllocError> {
    match YamlLoader::load_from_str(alloc, text) {
        Ok(documents) => {
            for document in documents.iter() {
                write_both(alloc, document, digest)?;
            }
            Ok(())
        }
        Err(fault) => add_fault(digest, &fault),
    }
}

fn write_both(alloc: Global, tree: &Yaml, digest: &mut Digest) -> Result<(), AllocError> {
    let mut text = String::new(alloc);
    write_json(alloc, tree, &mut text).map_err(|_| AllocError)?;
    digest.add_text(text.as_str());
    let mut text = String::new(alloc);
    write_json_indented(alloc, tree, 2, &mut text).map_err(|_| AllocError)?;
    digest.add_text(text.as_str());
    Ok(())
}

/// Reads a log, one small document after another.
pub fn log(alloc: Global, random: Random, digest: &mut Digest) -> Result<(), AllocError> {
    let mut file = Maker::new(alloc, random);
    for _ in 0..60 {
        file.put("---\n")?;
        put_settings(&mut file)?;
    }
    for document in Documents::new(alloc, file.text()) {
        match document {
            Ok(tree) => digest.add_tree(&tree),
            Err(fault) => return add_fault(digest, &fault),
        }
    }
    Ok(())
}

/// Loads one mapping of very many keys, looks each of them up, and copies it.
pub fn keys(alloc: Global, text: &str, digest: &mut Digest) -> Result<(), AllocError> {
    let documents = match YamlLoader::load_from_str(alloc, text) {
        Ok(documents) => documents,
        Err(fault) => return add_fault(digest, &fault),
    };
    for document in documents.iter() {
        look_up(document, digest);
        let copy = document.clone(alloc)?;
        digest.add_number(u64::from(copy == *document));
    }
    Ok(())
}

fn look_up(document: &Yaml, digest: &mut Digest) {
    let Some(pairs) = document.as_hash() else {
        return;
    };
    for (key, _) in pairs.iter() {
        if let Some(found) = pairs.get(key) {
            digest.add_tree(found);
        }
    }
}
