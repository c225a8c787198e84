//! Every call that takes memory, so that each of its requests can be refused.
use std::alloc::Global;
use std::io::Read;
use yaml_rust2::parser::{Event, Parser};
use yaml_rust2::scanner::{ScanError, Scanner};
use yaml_rust2::yaml::{Hash, YamlDecoder};
use yaml_rust2::{Yaml, YamlEmitter, YamlLoader};

/// Why calls end early: memory was refused, or an answer is wrong.
#[derive(Clone, Copy, Drop)]
pub enum End {
    /// Memory was refused.
    Refused,
    /// An answer is wrong.
    Wrong,
}

// A refusal, where a fault is one of memory.
fn end_of(fault: &ScanError) -> End {
    if fault.is_out_of_memory() {
        End::Refused
    } else {
        End::Wrong
    }
}

/// Makes each call with a text that loads.
pub fn call_all(alloc: Global, text: &str) -> Result<(), End> {
    load_by_iterator(alloc, text)?;
    decode(alloc, text.as_bytes())?;
    copy_tokens(alloc, text)?;
    copy_events(alloc, text)?;
    copy_faults(alloc, text)?;
    let _ = Yaml::from_str(alloc, text).map_err(|_| End::Refused)?;
    let documents = load_by_parser(alloc, text)?;
    for document in &documents {
        dump_again(alloc, document)?;
    }
    insert_all(alloc, documents.as_slice())
}

fn load_by_iterator(alloc: Global, text: &str) -> Result<(), End> {
    match YamlLoader::load_from_iter(alloc, text.chars()) {
        Ok(_) => Ok(()),
        Err(fault) => Err(end_of(&fault)),
    }
}

/// Loads a text where declared handles are kept.
pub fn load_by_parser(alloc: Global, text: &str) -> Result<Vec<Yaml>, End> {
    let mut parser = Parser::new_from_str(alloc, text).keep_tags(true);
    match YamlLoader::load_from_parser(alloc, &mut parser) {
        Ok(documents) => Ok(documents),
        Err(fault) => Err(end_of(&fault)),
    }
}

fn decode<T: Read + Drop>(alloc: Global, input: T) -> Result<(), End> {
    match YamlDecoder::read(alloc, input).decode().err() {
        None => Ok(()),
        Some(error) => {
            if error.is_out_of_memory() {
                Err(End::Refused)
            } else {
                Err(End::Wrong)
            }
        }
    }
}

fn copy_tokens(alloc: Global, text: &str) -> Result<(), End> {
    let mut scanner = Scanner::new(alloc, text.chars());
    for _ in 0..u64::MAX {
        match scanner.next_token() {
            Ok(Some(token)) => {
                let copy = token.clone(alloc).map_err(|_| End::Refused)?;
                if copy != token {
                    return Err(End::Wrong);
                }
            }
            Ok(None) => return Ok(()),
            Err(fault) => return Err(again(scanner.get_error(), &fault)),
        }
    }
    Ok(())
}

// How a fault of a scanner ends the calls, which must keep it.
fn again(kept: Option<ScanError>, fault: &ScanError) -> End {
    match kept {
        Some(same) if same == *fault => end_of(fault),
        _ => End::Wrong,
    }
}

fn copy_events(alloc: Global, text: &str) -> Result<(), End> {
    let mut parser = Parser::new_from_str(alloc, text).keep_tags(true);
    for _ in 0..u64::MAX {
        match parser.next_token() {
            Ok((Event::StreamEnd, _)) => return Ok(()),
            Ok((event, _)) => {
                let copy = event.clone(alloc).map_err(|_| End::Refused)?;
                if copy != event {
                    return Err(End::Wrong);
                }
            }
            Err(fault) => return Err(again(parser.next_token().err(), &fault)),
        }
    }
    Ok(())
}

fn copy_faults(alloc: Global, text: &str) -> Result<(), End> {
    let mark = Scanner::new(alloc, "".chars()).mark();
    let fault = ScanError::new(alloc, mark, text).map_err(|_| End::Refused)?;
    let copy = fault.clone(alloc).map_err(|_| End::Refused)?;
    if copy == fault {
        Ok(())
    } else {
        Err(End::Wrong)
    }
}

// Dumps a tree, and once more where memory was refused: what stood then is a beginning of the text.
fn dump_again(alloc: Global, tree: &Yaml) -> Result<(), End> {
    let mut text = String::new(alloc);
    if YamlEmitter::new(&mut text).dump(tree).is_ok() {
        return Ok(());
    }
    let mut whole = String::new(alloc);
    if YamlEmitter::new(&mut whole).dump(tree).is_ok()
        && !whole.as_str().starts_with(text.as_str())
    {
        return Err(End::Wrong);
    }
    Err(End::Refused)
}

// Puts copies of trees into a hash. A pair that finds no memory comes back, and the hash is as it was.
fn insert_all(alloc: Global, documents: &[Yaml]) -> Result<(), End> {
    let mut pairs = Hash::new(alloc);
    for document in documents {
        for number in 0..5 {
            let copy = document.clone(alloc).map_err(|_| End::Refused)?;
            let before = pairs.clone(alloc).map_err(|_| End::Refused)?;
            if let Err((key, value)) = pairs.insert(Yaml::Integer(number), copy) {
                let is_back = key == Yaml::Integer(number) && value == *document;
                return Err(if is_back && pairs == before {
                    End::Refused
                } else {
                    End::Wrong
                });
            }
        }
    }
    Ok(())
}
