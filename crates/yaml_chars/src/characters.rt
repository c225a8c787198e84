//! Where characters come from: an iterator, or a text in memory.
ghost use Rattle.std.specs.Prelude.{◌≡◌, ℕ, ◌+◌, ◌≤◌, List, [], length, take, drop, chars, Option, IsCharBoundary};
ghost use Rattle.std.specs.Iterator.{Count, IsFinite, size, MakesProgress, Yields};

use std::str::Chars;

/// Characters that come one after the other. Every iterator of characters is such a source. A text in memory is one of
/// which more is known: what is still to come.
pub trait Characters: Drop {
    // Holds of the states in which a character may be asked for.
    ghost can_next: { Self → Type 0 };

    // Holds of the state before a call of `next_char`, its result and the state after.
    ghost next_gives: { Self → Option ℕ → Self → Type 0 };

    // No more characters than this are to come.
    ghost remaining: { Self → Count };

    // The text that is known to come next.
    ghost known: { Self → List ℕ };

    /// The next character, or `None` at the end.
    fn next_char(&mut self) -> Option<char>
        requires { can_next self.old }
        ensures steps { next_gives self.old result self.new }
        ensures goes { MakesProgress can_next remaining self.old result self.new };

    /// What is known of the text to come: all of it, where it is in memory; else nothing.
    fn known(&self) -> &str
        ensures { result.now ≡ known self.now };

    /// Steps over so many bytes of the text that is known. It is as if their characters had been asked for.
    fn pass(&mut self, count: usize)
        requires can { can_next self.old }
        requires within { count ≤ length (known self.old) }
        requires cut { IsCharBoundary (known self.old) count }
        ensures gives { Yields next_gives self.old (chars (take count (known self.old))) self.new }
        ensures can { can_next self.new }
        ensures goes { IsFinite (remaining self.old) → IsFinite (remaining self.new) × (size (remaining self.new) + length (chars (take count (known self.old))) ≤ size (remaining self.old)) };
}

impl<T: Iterator<Item = char>> Characters for T {
    ghost can_next = { λ s. T.can_next s };

    ghost next_gives = { λ s r t. T.next_gives s r t };

    ghost remaining = { λ s. T.remaining s };

    ghost known = { λ _. [] };

    #[inline(always)]
    fn next_char(&mut self) -> Option<char> {
        self.next()
    }

    #[inline(always)]
    fn known(&self) -> &str {
        ""
    }

    #[inline(always)]
    fn pass(&mut self, count: usize) {
        let _ = count;
    }
}

/// A text in memory, from the next character on.
#[derive(Drop)]
pub struct TextInMemory<'a> {
    chars: Chars<'a>,
}

impl<'a> TextInMemory<'a> {
    ghost use Rattle.yaml_chars.specs.InMemory.{text_rest};

    /// A text, from its first character on.
    pub fn new(text: &'a str) -> Self
        ensures { text_rest result ≡ text.now }
    {
        TextInMemory {
            chars: text.chars(),
        }
    }
}

impl<'a> Characters for TextInMemory<'a> {
    ghost use Rattle.std.specs.Prelude.{⊤};
    ghost use Rattle.std.specs.Iterator.{at_most};
    ghost use Rattle.std.specs.Str.Iter.{chars_rest, chars_steps};

    ghost can_next = { λ _. ⊤ };

    ghost next_gives = { λ s r t. chars_steps s.chars r t.chars };

    ghost remaining = { λ s. at_most (length (chars_rest s.chars)) };

    ghost known = { λ s. chars_rest s.chars };

    #[inline(always)]
    fn next_char(&mut self) -> Option<char> {
        self.chars.next()
    }

    #[inline(always)]
    fn known(&self) -> &str {
        self.chars.as_str()
    }

    #[inline(always)]
    fn pass(&mut self, count: usize) {
        if count == 0 {
            return;
        }
        let rest = &self.chars.as_str()[count..];
        self.chars = rest.chars();
    }
}
