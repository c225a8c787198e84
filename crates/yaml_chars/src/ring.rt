ghost use Rattle.std.specs.Prelude.{◌≡◌, ℕ, ◌+◌, ◌<◌, ◌≤◌, List, [], ◌∷◌, ◌++◌, length, drop, slice_index};
ghost use Rattle.yaml_chars.specs.Queue.{queue};

use std::marker::Model;

const CAP: usize = 16;

/// A queue of at most 16 characters.
#[derive(Drop)]
pub(crate) struct Ring {
    slots: [char; 16],
    oldest: usize,
    len: usize,
}

// Clauses see the characters, oldest first.
impl Model for Ring {
    ghost Value = { List ℕ };

    ghost view = { λ q. queue q.oldest q.len q.slots };

    ghost invariant = { λ q. (q.oldest < 16) × (q.len ≤ 16) × (length q.slots ≡ 16) };
}

impl Ring {
    pub(crate) fn new() -> Self
        ensures { result ≡ [] }
    {
        Ring {
            slots: ['\0'; 16],
            oldest: 0,
            len: 0,
        }
    }

    pub(crate) fn len(&self) -> usize
        ensures value { result ≡ length self.now }
        ensures within { result ≤ 16 }
    {
        self.len
    }

    pub(crate) fn get(&self, i: usize) -> char
        requires { i < length self.now }
        ensures { result ≡ slice_index self.now i }
    {
        self.slots[(self.oldest + i) % CAP]
    }

    pub(crate) fn push(&mut self, c: char)
        requires { length self.old < 16 }
        ensures { self.new ≡ self.old ++ c ∷ [] }
    {
        self.slots[(self.oldest + self.len) % CAP] = c;
        self.len += 1;
    }

    pub(crate) fn drop_first(&mut self)
        requires { 0 < length self.old }
        ensures { self.new ≡ drop 1 self.old }
    {
        self.oldest = (self.oldest + 1) % CAP;
        self.len -= 1;
    }

    /// One character in place of all.
    pub(crate) fn keep_only(&mut self, c: char)
        ensures { self.new ≡ c ∷ [] }
    {
        self.oldest = 0;
        self.len = 1;
        self.slots[0] = c;
    }
}
