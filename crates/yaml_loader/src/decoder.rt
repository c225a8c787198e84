//! What a reader gives, loaded as trees.
ghost use Rattle.std.specs.Prelude.{◌≡◌, IfErr};
ghost use Rattle.std.specs.Io.KnownBytes.{IsAtEnd};
ghost use Rattle.yaml_encoding.specs.Decoding.{text, parts, ignored, replaced, strict, IsDecodedByCalls};
ghost use Rattle.yaml_encoding.specs.Steps.{IsStep};
ghost use Rattle.defs_text.specs.Text.{string_chars};
ghost use Rattle.yaml_loader.specs.Read.{DecodedIs, Loads, LoadedIs, HasBytes, LeavesEnd, WhereDecoded, WhereLoaded, IsNoInterruption, wants_memory};

use crate::YamlLoader;
use std::alloc::{AllocError, Global};
use std::io;
use std::io::Read;
use yaml_encoding::{Stop, YAMLDecodingTrap, text_of};
use yaml_tokens::ScanError;
use yaml_tree::Yaml;

/// Why bytes are not loaded.
#[derive(Debug, Drop)]
pub enum LoadError {
    /// The reader's error, as it is, or that memory was refused.
    IO(io::Error),
    /// The text's fault, or that memory was refused.
    Scan(ScanError),
    /// A malformation stopped decoding, with this message.
    Decode(String),
}

impl LoadError {
    /// Whether memory was refused. It takes none.
    pub fn is_out_of_memory(&self) -> bool
        ensures { result ≡ wants_memory self.now }
    {
        match self {
            LoadError::IO(error) => matches!(error.kind(), io::ErrorKind::OutOfMemory),
            LoadError::Scan(fault) => fault.is_out_of_memory(),
            LoadError::Decode(_) => false,
        }
    }
}

impl From<io::Error> for LoadError {
    ghost use Rattle.std.specs.Prelude.{◌≡◌};
    ghost use Rattle.yaml_loader.specs.declared.decoder.LoadError.TheVariants.{IO};

    ghost from_gives = { λ error result. result ≡ IO error };

    fn from(error: io::Error) -> LoadError {
        LoadError::IO(error)
    }
}

/// Loads what a reader gives: its bytes, in UTF-8 or UTF-16, as text, and the text as trees.
///
/// # Example
///
/// ```
/// let bytes = b"\xFF\xFEa\0:\0 \01\0"; // UTF-16, little-endian: `a: 1`
/// let mut decoder = YamlDecoder::read(alloc, bytes.as_slice());
/// decoder.encoding_trap(YAMLDecodingTrap::Replace);
/// match decoder.decode() {
///     Ok(documents) => assert_eq!(rt; documents.len(), 1),
///     Err(LoadError::IO(error)) => println!(rt; "cannot be read: {error}")?,
///     Err(LoadError::Scan(fault)) => println!(rt; "no YAML: {fault}")?,
///     Err(LoadError::Decode(message)) => println!(rt; "no text: {message}")?,
/// }
/// ```
#[derive(Drop)]
pub struct YamlDecoder<T: Read> {
    // The allocator for bytes, text and trees.
    alloc: Global,
    // What is read, from where it stands.
    source: T,
    // What becomes of a malformation.
    trap: YAMLDecodingTrap,
}

/// The documents of a text.
#[tactic(auto, unfolding(defs_text::specs::Text::string_chars))]
fn load(alloc: Global, text: String) -> Result<Vec<Yaml>, LoadError>
    ensures { Loads (string_chars text) result }
{
    match YamlLoader::load_from_str(alloc, text.as_str()) {
        Ok(documents) => Ok(documents),
        Err(fault) => Err(LoadError::Scan(fault)),
    }
}

impl<T: Read> YamlDecoder<T> {
    /// A decoder of a reader, with the trap [`YAMLDecodingTrap::Strict`]. It reads nothing yet and takes no memory.
    pub fn read(alloc: Global, source: T) -> YamlDecoder<T>
        ensures { result ≡ record { alloc = alloc; source = source; trap = YAMLDecodingTrap.Strict } }
    {
        YamlDecoder {
            alloc,
            source,
            trap: YAMLDecodingTrap::Strict,
        }
    }

    /// Sets what becomes of a malformation, and returns the decoder.
    pub fn encoding_trap(&mut self, trap: YAMLDecodingTrap) -> &mut Self
        ensures same { result.ghost_name ≡ self.entry.ghost_name }
        ensures value { result.now ≡ record self.old { trap = trap } }
    {
        self.trap = trap;
        self
    }

    /// Reads the source to its end, and loads the text of its bytes. Encoding, characters and malformations are as
    /// [`text_of`] says, documents as [`YamlLoader::load_from_str`] says. A second call reads on from where the source
    /// stands. A proof learns which bytes these were only if the contract of the source says so.
    ///
    /// # Errors
    ///
    /// [`LoadError::IO`] is the error of the source, or says that memory was refused. The source then stands where
    /// reading stopped, and what it still has is an end of what it had. A read that was interrupted is tried again.
    /// [`LoadError::Decode`] has the message of a stop: `Invalid character sequence at {place}: {bytes}`, or that of
    /// the trap's function. [`LoadError::Scan`] is the text's fault. After these two the source stands at its end.
    pub fn decode(&mut self) -> Result<Vec<Yaml>, LoadError>
        ensures ignore { self.old.trap ≡ YAMLDecodingTrap.Ignore → LoadedIs result (λ o. HasBytes (T.remaining self.old.source) (λ bytes. o ≡ text (ignored (parts bytes)))) }
        ensures replace { self.old.trap ≡ YAMLDecodingTrap.Replace → LoadedIs result (λ o. HasBytes (T.remaining self.old.source) (λ bytes. o ≡ text (replaced (parts bytes)))) }
        ensures strict { self.old.trap ≡ YAMLDecodingTrap.Strict → LoadedIs result (λ o. HasBytes (T.remaining self.old.source) (λ bytes. o ≡ strict (parts bytes))) }
        ensures call { (f : _) → self.old.trap ≡ YAMLDecodingTrap.Call f → LoadedIs result (λ o. HasBytes (T.remaining self.old.source) (λ bytes. IsDecodedByCalls (IsStep (post f.function)) bytes o)) }
        ensures end { WhereLoaded result (IsAtEnd (T.remaining self.new.source)) }
        ensures rest { LeavesEnd (T.remaining self.old.source) (T.remaining self.new.source) }
        ensures retried { IfErr result IsNoInterruption }
        ensures same { self.new.trap ≡ self.old.trap }
    {
        match self.text() {
            Ok(text) => load(self.alloc, text),
            Err(error) => Err(error),
        }
    }

    /// The text of what is left of the source.
    fn text(&mut self) -> Result<String, LoadError>
        ensures ignore { self.old.trap ≡ YAMLDecodingTrap.Ignore → DecodedIs result (λ o. HasBytes (T.remaining self.old.source) (λ bytes. o ≡ text (ignored (parts bytes)))) }
        ensures replace { self.old.trap ≡ YAMLDecodingTrap.Replace → DecodedIs result (λ o. HasBytes (T.remaining self.old.source) (λ bytes. o ≡ text (replaced (parts bytes)))) }
        ensures strict { self.old.trap ≡ YAMLDecodingTrap.Strict → DecodedIs result (λ o. HasBytes (T.remaining self.old.source) (λ bytes. o ≡ strict (parts bytes))) }
        ensures call { (f : _) → self.old.trap ≡ YAMLDecodingTrap.Call f → DecodedIs result (λ o. HasBytes (T.remaining self.old.source) (λ bytes. IsDecodedByCalls (IsStep (post f.function)) bytes o)) }
        ensures end { WhereDecoded result (IsAtEnd (T.remaining self.new.source)) }
        ensures rest { LeavesEnd (T.remaining self.old.source) (T.remaining self.new.source) }
        ensures retried { IfErr result IsNoInterruption }
        ensures same { self.new.trap ≡ self.old.trap }
    {
        let mut bytes = Vec::new(self.alloc);
        self.source.read_to_end(&mut bytes)?;
        match text_of(self.alloc, bytes.as_slice(), self.trap) {
            Ok(text) => Ok(text),
            Err(Stop::Message(message)) => Err(LoadError::Decode(message)),
            Err(Stop::OutOfMemory) => Err(LoadError::IO(io::Error::from(AllocError))),
        }
    }
}
