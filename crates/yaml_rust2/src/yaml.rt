//! Trees, the loader that makes them from a text, and the decoder that makes them from bytes.
pub use yaml_encoding::{YAMLDecodingTrap, YAMLDecodingTrapFn};
pub use yaml_loader::YamlLoader;
pub use yaml_loader::decoder::{LoadError, YamlDecoder};
pub use yaml_tree::{Array, Count, Hash, Steps, Yaml, YamlIter, entries, items};
