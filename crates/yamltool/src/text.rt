//! The texts of files, and what is loaded of them.
use crate::failure::{Failure, Trouble};
use std::alloc::Global;
use std::rt::Files;
use yaml_encoding::{Stop, YAMLDecodingTrap, text_of};
use yaml_loader::YamlLoader;
use yaml_loader::limits::{Limits, LimitsError, load_with_limits};
use yaml_programs::{read, without_byte_order_mark};
use yaml_tree::Yaml;

/// The text of a file in UTF-8, or with a byte order mark in UTF-16. A mark in UTF-8 is still in the text.
pub fn text_of_file<'a, R: Files>(
    rt: &R,
    alloc: Global,
    path: &'a str,
) -> Result<String, Failure<'a>> {
    let bytes = read(rt, alloc, path)?;
    if !is_marked_utf_16(bytes.as_slice()) {
        return match String::from_utf8(bytes) {
            Ok(text) => Ok(text),
            Err(_) => Err(Failure::NotUtf8(path)),
        };
    }
    match text_of(alloc, bytes.as_slice(), YAMLDecodingTrap::Strict) {
        Ok(text) => Ok(text),
        Err(Stop::Message(_)) => Err(Failure::NotUtf8(path)),
        Err(Stop::OutOfMemory) => Err(Failure::OutOfMemory),
    }
}

fn is_marked_utf_16(bytes: &[u8]) -> bool {
    matches!(bytes, [0xFE, 0xFF, ..] | [0xFF, 0xFE, ..])
}

/// The documents of a file, within the limits for a stranger's text or any.
pub fn load<'a, R: Files>(
    rt: &R,
    alloc: Global,
    is_limited: bool,
    path: &'a str,
) -> Result<Vec<Yaml>, Failure<'a>> {
    let text = text_of_file(rt, alloc, path)?;
    match documents_of(alloc, is_limited, without_byte_order_mark(text.as_str())) {
        Ok(documents) => Ok(documents),
        Err(fault) => Err(Failure::Other(path, Trouble::Fault(fault))),
    }
}

fn documents_of(alloc: Global, is_limited: bool, text: &str) -> Result<Vec<Yaml>, LimitsError> {
    if is_limited {
        return load_with_limits(alloc, text, Limits::for_text(text));
    }
    match YamlLoader::load_from_str(alloc, text) {
        Ok(documents) => Ok(documents),
        Err(fault) => Err(LimitsError::Scan(fault)),
    }
}
