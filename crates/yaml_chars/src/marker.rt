ghost use Rattle.std.specs.Prelude.{◌≡◌, ◌^◌, ◌<◌, ◌≤◌, ◌+◌, ◌-◌, IfSome};
ghost use Rattle.defs_text.specs.Position.{IsSmall};

use std::marker::Model;

// The last index and column of a text of fewer than 2^63 characters.
const LAST: usize = 0x7fff_ffff_ffff_ffff;

/// A position in a text.
#[derive(Clone, Copy, Debug, PartialEq, Eq)]
pub struct Marker {
    index: usize,
    line: usize,
    col: usize,
}

impl Model for Marker {
    ghost use Rattle.defs_text.specs.Position.{Position, IsSmall};

    ghost Value = { Position };

    ghost view = { λ m. record { index = m.index; line = m.line; col = m.col } };

    ghost invariant = { λ m. IsSmall m.index m.line m.col };

    ghost inverse = { λ p. record { index = p.index; line = p.line; col = p.col } };
}

impl Marker {
    pub(crate) fn new(index: usize, line: usize, col: usize) -> Marker
        requires { IsSmall index line col }
        ensures { result ≡ record { index = index; line = line; col = col } }
    {
        Marker { index, line, col }
    }

    /// How many characters (not bytes) stand before this position.
    pub fn index(&self) -> usize
        ensures value { result ≡ self.now.index }
        ensures small { result < 2 ^ 63 }
    {
        self.index
    }

    /// The line, counted from 1.
    pub fn line(&self) -> usize
        ensures value { result ≡ self.now.line }
        ensures small { result ≤ 2 ^ 63 }
    {
        self.line
    }

    /// The column, counted in characters from 0.
    pub fn col(&self) -> usize
        ensures value { result ≡ self.now.col }
        ensures small { result < 2 ^ 63 }
    {
        self.col
    }

    /// The position of the character before this one, in the same line.
    pub fn back(&self) -> Marker
        ensures { result ≡ record { index = self.now.index - 1; line = self.now.line; col = self.now.col - 1 } }
    {
        let index = self.index.saturating_sub(1);
        Marker::new(index, self.line, self.col.saturating_sub(1))
    }

    /// The position after a character of a line that stands here. It is `None` if it were no position of a text of fewer
    /// than 2^63 characters.
    pub fn past(&self) -> Option<Marker>
        ensures { IfSome result (λ p. p ≡ record { index = self.now.index + 1; line = self.now.line; col = self.now.col + 1 }) }
    {
        if self.index >= LAST || self.col >= LAST {
            return None;
        }
        Some(Marker::new(self.index + 1, self.line, self.col + 1))
    }
}
