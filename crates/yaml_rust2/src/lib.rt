//! YAML 1.2 for Rattle: text to trees and back, text to events with their places, and text to tokens.
//!
//! - `YamlLoader::load_from_str(alloc, text)` gives the trees of all documents.
//! - `yaml::YamlDecoder` loads the bytes of a reader, in UTF-8 or UTF-16.
//! - `YamlEmitter` writes a tree as a text, which loads as that tree.
//! - `parser::Parser` gives events: one at a time by `next_token`, or pushed into a receiver by `load`.
//! - `scanner::Scanner` gives tokens.
#![tactic(auto)]

pub mod emitter;
pub mod laws;
pub mod parser;
pub mod scanner;
pub mod yaml;

pub use yaml_emitter::{EmitError, YamlEmitter};
pub use yaml_loader::YamlLoader;
pub use yaml_parser::Event;
pub use yaml_tokens::ScanError;
pub use yaml_tree::Yaml;
