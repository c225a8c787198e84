//! The emitter: trees to text.
ghost use Rattle.std.specs.Prelude.{◌≡◌, ◌<◌, true, false, OnOk, OnErr};
ghost use Rattle.defs_tree.specs.DumpText.{dump_text};
ghost use Rattle.defs_tree.specs.Writable.{levels};
ghost use Rattle.yaml_tree.specs.View.{view};
ghost use Rattle.yaml_emitter.specs.Emitter.{writer_of, writer_name, compact_of, multiline_of};
ghost use Rattle.yaml_emitter.specs.ValidTree.{IsValid};
ghost use Rattle.yaml_emitter.specs.Writing.{WritesUnless};

use crate::node::{Settings, write_document};
use crate::writer::Writer;
use std::fmt;
use thiserror::Error;
use yaml_tree::Yaml;

/// Why a tree was not written to its end.
#[derive(Clone, Copy, Debug, Error)]
pub enum EmitError {
    /// The writer refused a part of the text, or the tree has more than 128 levels and memory was refused, or 2^62
    /// levels or more.
    #[error(transparent)]
    FmtError(fmt::Error),
}

impl From<fmt::Error> for EmitError {
    ghost use Rattle.std.specs.Prelude.{◌≡◌};
    ghost use Rattle.yaml_emitter.specs.declared.emitter.EmitError.TheVariants.{FmtError};

    ghost from_gives = { λ e f. f ≡ FmtError e };

    fn from(error: fmt::Error) -> EmitError {
        EmitError::FmtError(error)
    }
}

/// The result of a dump.
pub type EmitResult = Result<(), EmitError>;

/// Writes trees as YAML to a writer. Two settings, [`compact`](YamlEmitter::compact) and
/// [`multiline_strings`](YamlEmitter::multiline_strings), choose one of four forms.
///
/// # Example
///
/// ```
/// let documents = YamlLoader::load_from_str(alloc, "- [a]\n- \"b\\nc\"")?;
/// let document = documents.first().ok_or("no document")?;
/// let mut text = String::new(alloc);
/// let mut emitter = YamlEmitter::new(&mut text);
/// emitter.compact(false);
/// emitter.multiline_strings(true);
/// assert!(rt; !emitter.is_compact() && emitter.is_multiline_strings());
/// emitter.dump(document)?;
/// assert_eq!(rt; text.as_str(), "---\n-\n  - a\n- |-\n  b\n  c");
/// ```
#[derive(Drop)]
pub struct YamlEmitter<'a, W: Writer> {
    writer: &'a mut W,
    settings: Settings,
}

impl<'a, W: Writer> YamlEmitter<'a, W> {
    /// An emitter that is compact and without multiline strings.
    pub fn new(writer: &'a mut W) -> YamlEmitter<'a, W>
        ensures same_writer { writer_name result ≡ writer.entry.ghost_name }
        ensures writer { writer_of result ≡ writer.old }
        ensures compact { compact_of result ≡ true }
        ensures multiline { multiline_of result ≡ false }
    {
        YamlEmitter {
            writer,
            settings: Settings {
                compact: true,
                multiline: false,
            },
        }
    }

    /// With `true`, an array or hash that is not empty starts on the line of its dash, its question mark or the colon
    /// of a complex key (YAML 1.2, sections 8.2.1 and 8.2.2). With `false`, it starts on the next line.
    pub fn compact(&mut self, compact: bool)
        ensures same_writer { writer_name self.new ≡ writer_name self.old }
        ensures writer { writer_of self.new ≡ writer_of self.old }
        ensures compact { compact_of self.new ≡ compact }
        ensures multiline { multiline_of self.new ≡ multiline_of self.old }
    {
        self.settings.compact = compact;
    }

    /// Whether arrays and hashes start on the line of their indicator.
    pub fn is_compact(&self) -> bool
        ensures { result ≡ compact_of self.now }
    {
        self.settings.compact
    }

    /// Sets whether strings of several lines are written as literal blocks (YAML 1.2, section 8.1.2). A string that
    /// would not be read back stays in double quotes.
    pub fn multiline_strings(&mut self, multiline: bool)
        ensures same_writer { writer_name self.new ≡ writer_name self.old }
        ensures writer { writer_of self.new ≡ writer_of self.old }
        ensures compact { compact_of self.new ≡ compact_of self.old }
        ensures multiline { multiline_of self.new ≡ multiline }
    {
        self.settings.multiline = multiline;
    }

    /// Whether strings of several lines are written as literal blocks.
    pub fn is_multiline_strings(&self) -> bool
        ensures { result ≡ multiline_of self.now }
    {
        self.settings.multiline
    }

    /// Writes the line `---` and the tree (YAML 1.2, chapter 8), without a line break at the end. On `Ok` the writer
    /// has taken the whole text. An `Err` comes only if the writer refused a part of the text, or if the tree has more
    /// than 128 levels, where memory may be refused, and 2^62 levels are too many; then a beginning of the text was
    /// written. A `String` refuses only if memory is refused, and has then grown by just that beginning. The settings
    /// stay.
    pub fn dump(&mut self, doc: &Yaml) -> EmitResult
        ensures same_writer { writer_name self.new ≡ writer_name self.old }
        ensures text { WritesUnless (128 < levels (view doc.now)) W.put_gives W.put_leaves (writer_of self.old) result
            (dump_text (compact_of self.old) (multiline_of self.old) (view doc.now)) (writer_of self.new) }
        ensures written { OnOk result (W.calls_give (writer_of self.old)
            (dump_text (compact_of self.old) (multiline_of self.old) (view doc.now)) (writer_of self.new)) }
        ensures begun { OnErr result (W.calls_leave (writer_of self.old)
            (dump_text (compact_of self.old) (multiline_of self.old) (view doc.now)) (writer_of self.new)) }
        ensures valid { OnOk result (IsValid (view doc.now)) }
        ensures compact { compact_of self.new ≡ compact_of self.old }
        ensures multiline { multiline_of self.new ≡ multiline_of self.old }
    {
        write_document(self.writer, &self.settings, doc)?;
        Ok(())
    }
}
