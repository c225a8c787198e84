//! Stacks for walks through trees.
ghost use Rattle.std.specs.Prelude.{◌≡◌, ◌≤◌, [], ◌∷◌, length, OnOk, OnErr, MatchOption};

use std::alloc::{AllocError, Global};
use std::marker::Model;

/// How many items take no memory.
const FEW: usize = 16;

/// A stack that asks for memory only from its seventeenth item on: what waits at the levels of a tree, while a walk is
/// in a deeper one. Clauses see the items, the top first.
#[derive(Drop)]
pub struct Levels<X: Copy> {
    few: [X; FEW],
    // How many of them are there. Below sixteen there are no more.
    count: usize,
    more: Vec<X>,
}

impl<X: Copy> Model for Levels<X> {
    ghost use Rattle.std.specs.Prelude.{List, [], ◌≡◌, ◌≢◌, ◌≤◌, ◌++◌, reverse, take};

    ghost Value = { List X };

    ghost view = { λ s. reverse s.more.items ++ reverse (take s.count s.few) };

    ghost invariant = { λ s. (s.count ≤ 16) × (s.more.items ≢ [] → s.count ≡ 16) };
}

impl<X: Copy> Levels<X> {
    /// The empty stack. It takes no memory. The filler is an item like any other, and never given back.
    pub fn new(alloc: Global, filler: X) -> Self
        ensures { result ≡ [] }
    {
        Levels {
            few: [filler; FEW],
            count: 0,
            more: Vec::new(alloc),
        }
    }

    /// Puts an item on top. An `Err` changes nothing, and comes only where sixteen items are there and memory was
    /// refused.
    pub fn push(&mut self, item: X) -> Result<(), AllocError>
        ensures ok { OnOk result (self.new ≡ item ∷ self.old) }
        ensures err { OnErr result (self.new ≡ self.old) }
        ensures many { OnErr result (16 ≤ length self.old) }
    {
        if self.count < FEW {
            self.few[self.count] = item;
            self.count += 1;
            return Ok(());
        }
        self.more.push(item).map_err(|_| AllocError)
    }

    /// Takes the item on top, or `None` if there is none.
    pub fn pop(&mut self) -> Option<X>
        ensures { MatchOption result ((self.old ≡ []) × (self.new ≡ [])) (λ x. self.old ≡ x ∷ self.new) }
    {
        if let Some(item) = self.more.pop() {
            return Some(item);
        }
        if self.count == 0 {
            return None;
        }
        self.count -= 1;
        Some(self.few[self.count])
    }
}
