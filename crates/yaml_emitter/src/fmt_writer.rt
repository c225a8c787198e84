//! Dumps to whatever takes formatted text.
ghost use Rattle.std.specs.Prelude.{◌≡◌};
ghost use Rattle.yaml_emitter.specs.FmtText.{inner_of};

use crate::writer::Writer;
use std::fmt;

/// A writer over any `fmt::Write`: each part of the text is one call of its `write_str`. After a refused part nothing
/// is known of what was written.
///
/// # Example
///
/// ```
/// let documents = YamlLoader::load_from_str(alloc, "[a, b]")?;
/// let document = documents.first().ok_or("no document")?;
/// let mut writer = FmtWriter::new(String::new(alloc)); // any `fmt::Write`
/// YamlEmitter::new(&mut writer).dump(document)?;
/// let text = writer.into_inner();
/// assert_eq!(rt; text.as_str(), "---\n- a\n- b");
/// ```
#[derive(Drop)]
pub struct FmtWriter<W> {
    inner: W,
}

impl<W> FmtWriter<W> {
    /// A writer over this value.
    pub fn new(inner: W) -> FmtWriter<W>
        ensures { inner_of result ≡ inner }
    {
        FmtWriter { inner }
    }

    /// The value, with what was written to it.
    pub fn into_inner(self) -> W
        ensures { result ≡ inner_of self }
    {
        let FmtWriter { inner } = self;
        inner
    }
}

impl<W: fmt::Write> Writer for FmtWriter<W> {
    ghost use Rattle.yaml_emitter.specs.FmtText.{TakesText, inner_of};
    ghost use Rattle.yaml_emitter.specs.Writing.{Wrote, Stopped};

    ghost put_gives = { TakesText W.write_str_gives };

    ghost put_leaves = { λ v cs w. Unit {0} };

    ghost calls_give = { Wrote (TakesText W.write_str_gives) };

    ghost calls_leave = { Stopped (TakesText W.write_str_gives) (λ v cs w. Unit {0}) (Unit {0}) };

    fn put(&mut self, text: &str) -> fmt::Result {
        self.inner.write_str(text)
    }

    ghost wrote = { λ v text w p. p };

    ghost stopped = { λ v text w p. p };
}

/// So an `impl Display` can dump a tree. What was written is known where the formatter formats as `{}` does.
impl<W: fmt::Write> Writer for fmt::Formatter<W> {
    ghost use Rattle.yaml_emitter.specs.FmtText.{TakesPlain};
    ghost use Rattle.yaml_emitter.specs.Writing.{Wrote, Stopped};

    ghost put_gives = { TakesPlain W.write_str_gives };

    ghost put_leaves = { λ f text g. Unit {0} };

    ghost calls_give = { Wrote (TakesPlain W.write_str_gives) };

    ghost calls_leave = { Stopped (TakesPlain W.write_str_gives) (λ f text g. Unit {0}) (Unit {0}) };

    fn put(&mut self, text: &str) -> fmt::Result {
        self.write_str(text)
    }

    ghost wrote = { λ f text g p. p };

    ghost stopped = { λ f text g p. p };
}
