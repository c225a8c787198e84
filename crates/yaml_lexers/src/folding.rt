//! Lines of a flow scalar, folded.
ghost use Rattle.std.specs.Prelude.{◌≡◌, OnOk, OnErr, true, false, []};
ghost use Rattle.yaml_chars.specs.WindowView.{Reads, position_of};
ghost use Rattle.model_scanner.specs.Folding.{nothing, with_char, with_blank, with_break, joined};
ghost use Rattle.yaml_lexers.specs.Shown.{folded, AddsWords};

use std::alloc::{AllocError, Global};
use yaml_chars::{Characters, Run, TextBuilder, Window};

/// A text that is being folded, and what stands between it and the next character: blanks, or
/// after a break the breaks after that.
#[derive(Drop)]
pub(crate) struct Folding {
    pub text: TextBuilder,
    pub gap: TextBuilder,
    // Whether a break stands in the gap, and whether that was an escaped one.
    pub leading: bool,
    pub escaped: bool,
    // How often words may still be looked for in vain before the next gap.
    looks: usize,
}

// Where words were looked for in vain so often, pieces are short: they are read faster character by character.
const LOOKS: usize = 2;

/// So many characters of a word are read one by one before the rest is looked for: for fewer a look does not pay.
pub(crate) const FEW: usize = 5;

impl Folding {
    /// Nothing yet. It takes no memory.
    pub(crate) fn new(alloc: Global) -> Self
        ensures { folded result ≡ nothing }
    {
        Folding {
            text: TextBuilder::new(alloc),
            gap: TextBuilder::new(alloc),
            leading: false,
            escaped: false,
            looks: LOOKS,
        }
    }

    /// Takes words, and lone blanks between them, as far as they are known to come, if nothing stands between the text and
    /// the next character, and not too many looks were in vain. The result is whether some were known.
    #[inline(always)]
    pub(crate) fn take_words<T: Characters>(
        &mut self,
        window: &mut Window<T>,
        run: Run,
    ) -> Result<bool, AllocError>
        ensures ok { OnOk result (Reads window.old window.new (λ a b. AddsWords run a b (position_of window.old) (position_of window.new) (folded self.old) (folded self.new))) }
        ensures err { OnErr result (Reads window.old window.new (λ _ _. Unit {0})) }
    {
        if self.looks == 0 || !self.is_joined() {
            return Ok(false);
        }
        let known = window.take_words(run, &mut self.text)?;
        if !known {
            self.looks -= 1;
        }
        Ok(known)
    }

    /// Makes room for a short text.
    #[inline(always)]
    pub(crate) fn make_room(&mut self) -> Result<(), AllocError>
        ensures { folded self.new ≡ folded self.old }
    {
        self.text.make_room()
    }

    #[inline(always)]
    pub(crate) fn push(&mut self, c: char) -> Result<(), AllocError>
        ensures { OnOk result (folded self.new ≡ with_char c (folded self.old)) }
    {
        self.text.push(c)?;
        Ok(())
    }

    /// Whether nothing stands between the text and the next character.
    pub(crate) fn is_joined(&self) -> bool
        ensures gap { result ≡ true → (folded self.now).gap ≡ [] }
        ensures leading { result ≡ true → (folded self.now).leading ≡ false }
        ensures escaped { result ≡ true → (folded self.now).escaped ≡ false }
    {
        !self.leading && !self.escaped && self.gap.is_empty()
    }

    pub(crate) fn add_blank(&mut self, c: char) -> Result<(), AllocError>
        ensures { OnOk result (folded self.new ≡ with_blank c (folded self.old)) }
    {
        if !self.leading {
            self.gap.push(c)?;
        }
        Ok(())
    }

    pub(crate) fn add_break(&mut self) -> Result<(), AllocError>
        ensures folded { OnOk result (folded self.new ≡ with_break (folded self.old)) }
        ensures leading { OnOk result (self.new.leading ≡ true) }
    {
        if self.leading {
            self.gap.push('\n')?;
        } else {
            self.gap.clear();
            self.leading = true;
        }
        Ok(())
    }

    /// The gap becomes text. A lone break is a space.
    #[inline(always)]
    pub(crate) fn join(&mut self) -> Result<(), AllocError>
        ensures { OnOk result (folded self.new ≡ joined (folded self.old)) }
    {
        if !self.gap.is_empty() {
            self.text.append(&self.gap)?;
            self.gap.clear();
        } else if self.leading && !self.escaped {
            self.text.push(' ')?;
        }
        self.leading = false;
        self.escaped = false;
        self.looks = LOOKS;
        Ok(())
    }
}
