//! The jobs, each on texts of its own.

use crate::awkward::{
    put_anchors, put_carriage_returns, put_comments, put_deep_flow, put_foreign_texts,
    put_shuffled_keys,
};
use crate::digest::Digest;
use crate::files::{Subject, put_file};
use crate::json::{Dump, put_dump};
use crate::maker::Maker;
use crate::more_jobs::{format_file, keys, log, tools};
use crate::random::Random;
use crate::settings::put_settings;
use std::alloc::{AllocError, Global};
use std::io;
use yaml_loader::limits::{Limits, LimitsError, load_with_limits};
use yaml_rust2::yaml::{LoadError, YamlDecoder};
use yaml_rust2::{ScanError, YamlLoader};

/// Does a job once.
pub fn run(alloc: Global, job: &str, random: Random, digest: &mut Digest) -> io::Result<()> {
    match job {
        "settings" => check_settings(alloc, random, digest)?,
        "files" => load_files(alloc, random, digest)?,
        "json" => load_json(alloc, random, digest)?,
        "format" => format_file(alloc, random, digest)?,
        "tools" => tools(alloc, random, digest)?,
        "awkward" => load_awkward(alloc, random, digest)?,
        "all" => do_all(alloc, random, digest)?,
        _ => return Err(io::Error::from(io::ErrorKind::InvalidInput)),
    }
    Ok(())
}

fn do_all(alloc: Global, random: Random, digest: &mut Digest) -> Result<(), AllocError> {
    check_settings(alloc, random, digest)?;
    load_files(alloc, random, digest)?;
    load_json(alloc, random, digest)?;
    format_file(alloc, random, digest)?;
    tools(alloc, random, digest)?;
    load_awkward(alloc, random, digest)
}

// Two small files: one from a stranger, within limits, and one of one's own.
fn check_settings(alloc: Global, random: Random, digest: &mut Digest) -> Result<(), AllocError> {
    let mut file = Maker::new(alloc, random);
    put_settings(&mut file)?;
    let text = file.text();
    match load_with_limits(alloc, text, Limits::for_text(text)) {
        Ok(documents) => digest.add_trees(documents.as_slice()),
        Err(error) => add_refusal(digest, &error)?,
    }
    let mut random = random;
    let mut file = Maker::new(alloc, Random::new(random.next()));
    put_settings(&mut file)?;
    load(alloc, file.text(), digest)
}

fn add_refusal(digest: &mut Digest, error: &LimitsError) -> Result<(), AllocError> {
    match error {
        LimitsError::Scan(fault) => add_fault(digest, fault),
        LimitsError::Levels(mark) => {
            digest.add_number(1);
            digest.add_mark(*mark);
            Ok(())
        }
        LimitsError::Size(mark) => {
            digest.add_number(2);
            digest.add_mark(*mark);
            Ok(())
        }
    }
}

/// Adds a fault; refused memory is an error here.
pub fn add_fault(digest: &mut Digest, fault: &ScanError) -> Result<(), AllocError> {
    if fault.is_out_of_memory() {
        return Err(AllocError);
    }
    digest.add_text(fault.info());
    digest.add_mark(*fault.marker());
    Ok(())
}

/// Loads a text.
pub fn load(alloc: Global, text: &str, digest: &mut Digest) -> Result<(), AllocError> {
    match YamlLoader::load_from_str(alloc, text) {
        Ok(documents) => digest.add_trees(documents.as_slice()),
        Err(fault) => add_fault(digest, &fault)?,
    }
    Ok(())
}

/// A text of a large file or of a JSON text, by the name of what it holds.
pub fn text(alloc: Global, name: &str, random: Random) -> io::Result<Maker> {
    let mut file = Maker::new(alloc, random);
    match name {
        "messages" => put_file(&mut file, Subject::Messages, 60_000)?,
        "translations" => put_file(&mut file, Subject::Translations, 60_000)?,
        "calls" => put_file(&mut file, Subject::Calls, 200_000)?,
        "changes" => put_file(&mut file, Subject::Changes, 80_000)?,
        "machines" => put_file(&mut file, Subject::Machines, 100_000)?,
        "rules" => put_file(&mut file, Subject::Rules, 60_000)?,
        "records" => put_dump(&mut file, Dump::Records, 120_000)?,
        "lock" => put_dump(&mut file, Dump::Lock, 80_000)?,
        "numbers" => put_dump(&mut file, Dump::Numbers, 40_000)?,
        "escapes" => put_dump(&mut file, Dump::Escapes, 40_000)?,
        _ => return Err(io::Error::from(io::ErrorKind::InvalidInput)),
    }
    Ok(file)
}

// One large file of each subject, from bytes.
fn load_files(alloc: Global, random: Random, digest: &mut Digest) -> Result<(), AllocError> {
    load_file(alloc, random, Subject::Messages, 60_000, digest)?;
    load_file(alloc, random, Subject::Translations, 60_000, digest)?;
    load_file(alloc, random, Subject::Calls, 200_000, digest)?;
    load_file(alloc, random, Subject::Changes, 80_000, digest)?;
    load_file(alloc, random, Subject::Machines, 100_000, digest)?;
    load_file(alloc, random, Subject::Rules, 60_000, digest)
}

fn load_file(
    alloc: Global,
    random: Random,
    subject: Subject,
    bytes: usize,
    digest: &mut Digest,
) -> Result<(), AllocError> {
    let mut file = Maker::new(alloc, random);
    put_file(&mut file, subject, bytes)?;
    match YamlDecoder::read(alloc, file.text().as_bytes()).decode() {
        Ok(documents) => digest.add_trees(documents.as_slice()),
        Err(LoadError::Scan(fault)) => add_fault(digest, &fault)?,
        Err(LoadError::Decode(message)) => digest.add_text(message.as_str()),
        Err(LoadError::IO(_)) => return Err(AllocError),
    }
    Ok(())
}

// JSON texts of each kind.
fn load_json(alloc: Global, random: Random, digest: &mut Digest) -> Result<(), AllocError> {
    load_dump(alloc, random, Dump::Records, 120_000, digest)?;
    load_dump(alloc, random, Dump::Lock, 80_000, digest)?;
    load_dump(alloc, random, Dump::Numbers, 40_000, digest)?;
    load_dump(alloc, random, Dump::Escapes, 40_000, digest)
}

fn load_dump(
    alloc: Global,
    random: Random,
    dump: Dump,
    bytes: usize,
    digest: &mut Digest,
) -> Result<(), AllocError> {
    let mut file = Maker::new(alloc, random);
    put_dump(&mut file, dump, bytes)?;
    load(alloc, file.text(), digest)
}

// Awkward texts: one of each kind, a log, and one mapping of very many keys.
fn load_awkward(alloc: Global, random: Random, digest: &mut Digest) -> Result<(), AllocError> {
    let mut file = Maker::new(alloc, random);
    put_deep_flow(&mut file, 40, 200)?;
    load(alloc, file.text(), digest)?;
    let mut file = Maker::new(alloc, random);
    put_foreign_texts(&mut file, 300)?;
    load(alloc, file.text(), digest)?;
    let mut file = Maker::new(alloc, random);
    put_comments(&mut file, 2000)?;
    load(alloc, file.text(), digest)?;
    let mut file = Maker::new(alloc, random);
    put_carriage_returns(&mut file, 1000)?;
    file.put("- \"open\n")?;
    load(alloc, file.text(), digest)?;
    let mut file = Maker::new(alloc, random);
    put_anchors(&mut file, 1000)?;
    load(alloc, file.text(), digest)?;
    let mut file = Maker::new(alloc, random);
    put_shuffled_keys(&mut file, 8000)?;
    keys(alloc, file.text(), digest)?;
    log(alloc, random, digest)
}
