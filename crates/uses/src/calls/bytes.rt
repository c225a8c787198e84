//! Bytes, in UTF-8 or UTF-16.
use crate::calls::failure::Failure;
use std::alloc::Global;
use yaml_rust2::Yaml;
use yaml_rust2::yaml::{YAMLDecodingTrap, YamlDecoder};

/// The documents of what a reader gives. U+FFFD stands for each malformation.
pub fn documents_of_bytes(alloc: Global, bytes: &[u8]) -> Result<Vec<Yaml>, Failure> {
    let mut decoder = YamlDecoder::read(alloc, bytes);
    decoder.encoding_trap(YAMLDecodingTrap::Replace);
    Ok(decoder.decode()?)
}
