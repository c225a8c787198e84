//! Texts that clauses see as lists of characters.
ghost use Rattle.std.specs.Prelude.{◌≡◌, ◌++◌, [], ◌∷◌, IfOk, OnOk, OnErr, chars, IsTrue, ◌↔◌};
ghost use Rattle.defs_text.specs.Text.{string_chars, is_empty};

use std::alloc::{AllocError, Global};
use std::marker::Model;
use std::mem;

// The least piece of memory that malloc hands out has this many bytes.
const ROOM: usize = 24;

// A text without memory that a character is put into gets room for so many bytes.
const LEAST: usize = 8;

/// A text that grows by characters.
#[derive(Debug, Drop)]
pub struct TextBuilder {
    inner: String,
}

impl Model for TextBuilder {
    ghost use Rattle.std.specs.Prelude.{List, ℕ, chars, string_bytes};

    ghost Value = { List ℕ };

    ghost view = { λ s. chars (string_bytes s.inner) };
}

impl TextBuilder {
    /// The empty text. It takes no memory.
    #[tactic(auto, using(crate::proofs::TextLemmas::chars_nil_of))]
    pub fn new(alloc: Global) -> Self
        ensures { result ≡ [] }
    {
        TextBuilder {
            inner: String::new(alloc),
        }
    }

    /// The empty text, with room for so many bytes.
    #[tactic(auto, using(crate::proofs::TextLemmas::chars_nil_of))]
    pub(crate) fn with_room(alloc: Global, room: usize) -> Result<Self, AllocError>
        ensures { IfOk result (λ text. text ≡ []) }
    {
        let inner = String::with_capacity(alloc, room)?;
        Ok(TextBuilder { inner })
    }

    /// Makes room for a short text, which then takes memory once. An `Err` changes nothing.
    #[tactic(auto, using(crate::proofs::TextLemmas::chars_same))]
    pub fn make_room(&mut self) -> Result<(), AllocError>
        ensures { self.new ≡ self.old }
    {
        if self.inner.is_empty() && self.inner.capacity() == 0 {
            self.inner = String::with_capacity(*self.inner.allocator(), ROOM)?;
            return Ok(());
        }
        self.inner.reserve(ROOM)
    }

    /// Makes room for so many bytes more. The room grows as it does where characters come one by one: it doubles, from the
    /// least room on.
    #[inline(never)]
    #[tactic(auto, using(crate::proofs::TextLemmas::chars_same))]
    fn make_more_room(&mut self, more: usize) -> Result<(), AllocError>
        ensures { self.new ≡ self.old }
    {
        let len = self.inner.len();
        let wanted = len.saturating_add(more);
        let mut room = self.inner.capacity().max(LEAST);
        'room: while room < wanted {
            room = room.saturating_add(room);
        }
        self.inner.reserve_exact(room.saturating_sub(len))
    }

    /// An `Err` changes nothing.
    #[tactic(auto, using(crate::proofs::TextLemmas::chars_push, crate::proofs::TextLemmas::chars_same))]
    pub fn push(&mut self, c: char) -> Result<(), AllocError>
        ensures ok { OnOk result (self.new ≡ self.old ++ c ∷ []) }
        ensures err { OnErr result (self.new ≡ self.old) }
    {
        self.inner.push(c)?;
        Ok(())
    }

    /// Appends `more`. An `Err` changes nothing.
    #[tactic(auto, using(crate::proofs::TextLemmas::chars_append_of, crate::proofs::TextLemmas::chars_same))]
    pub fn append(&mut self, more: &TextBuilder) -> Result<(), AllocError>
        ensures ok { OnOk result (self.new ≡ self.old ++ more.now) }
        ensures err { OnErr result (self.new ≡ self.old) }
    {
        self.inner.push_str(more.inner.as_str())?;
        Ok(())
    }

    /// Appends a text, after which the text has no more room than if its characters had been put in one by one. An `Err`
    /// changes nothing.
    #[tactic(auto, using(crate::proofs::TextLemmas::chars_append_bytes, crate::proofs::TextLemmas::chars_same))]
    pub fn push_str(&mut self, more: &str) -> Result<(), AllocError>
        ensures ok { OnOk result (self.new ≡ self.old ++ chars more.now) }
        ensures err { OnErr result (self.new ≡ self.old) }
    {
        if self.inner.capacity() - self.inner.len() < more.len() {
            self.make_more_room(more.len())?;
        }
        self.inner.push_str(more)?;
        Ok(())
    }

    /// Makes the text empty, and keeps its memory.
    #[tactic(auto, using(crate::proofs::TextLemmas::chars_nil_of))]
    pub fn clear(&mut self)
        ensures { self.new ≡ [] }
    {
        self.inner.clear();
    }

    /// The text, of which nothing is left here.
    pub(crate) fn take(&mut self) -> TextBuilder
        ensures value { result ≡ self.old }
        ensures left { self.new ≡ [] }
    {
        let alloc = *self.inner.allocator();
        mem::replace(self, TextBuilder::new(alloc))
    }

    /// Whether the text has no character.
    #[tactic(auto, using(crate::proofs::TextLemmas::is_nil_chars))]
    pub fn is_empty(&self) -> bool
        ensures { result ≡ is_empty self.now }
    {
        self.inner.is_empty()
    }

    /// The text as a `String`.
    #[tactic(auto, unfolding(defs_text::specs::Text::string_chars))]
    pub fn into_string(self) -> String
        ensures { string_chars result ≡ self }
    {
        let TextBuilder { inner } = self;
        inner
    }
}
