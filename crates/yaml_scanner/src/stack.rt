ghost use Rattle.std.specs.Prelude.{◌≡◌, [], ◌∷◌, OnOk, OnErr, MatchOption, List, length, true};
ghost use Rattle.model_scanner.specs.State.{top, with_top, pop};
ghost use Rattle.defs_text.specs.Text.{is_empty};

use std::alloc::{AllocError, Global};
use std::marker::Model;

/// A stack. Clauses see the items, the top first.
#[derive(Drop)]
pub struct Stack<X: Copy> {
    items: Vec<X>,
}

impl<X: Copy> Model for Stack<X> {
    ghost use Rattle.std.specs.Prelude.{List, reverse};

    ghost Value = { List X };

    ghost view = { λ s. reverse s.items.items };
}

impl<X: Copy> Stack<X> {
    /// The empty stack. It takes no memory.
    pub fn new(alloc: Global) -> Self
        ensures { result ≡ [] }
    {
        Stack {
            items: Vec::new(alloc),
        }
    }

    /// An `Err` changes nothing.
    #[tactic(auto, using(crate::proofs::StackLemmas::pushed))]
    pub fn push(&mut self, item: X) -> Result<(), AllocError>
        ensures ok { OnOk result (self.new ≡ item ∷ self.old) }
        ensures err { OnErr result (self.new ≡ self.old) }
    {
        self.items.push(item).map_err(|_| AllocError)
    }

    /// Takes the value on top, or `None` if there is none.
    #[tactic(auto, using(crate::proofs::StackLemmas::popped, crate::proofs::StackLemmas::none_popped))]
    pub fn pop(&mut self) -> Option<X>
        ensures { MatchOption result ((self.old ≡ []) × (self.new ≡ [])) (λ x. self.old ≡ x ∷ self.new) }
    {
        self.items.pop()
    }

    /// The value on top, which stays, or `None` if there is none.
    #[tactic(auto, using(crate::proofs::StackLemmas::topped))]
    pub fn top(&self) -> Option<X>
        ensures { result ≡ top self.now }
    {
        self.items.last().copied()
    }

    /// The value under the one on top, or `None` if there is none. Both stay.
    #[tactic(auto, using(crate::proofs::StackLemmas::under_read, crate::proofs::StackLemmas::none_under))]
    pub fn under(&self) -> Option<X>
        ensures { result ≡ top (pop self.now) }
    {
        let len = self.items.len();
        if len < 2 {
            return None;
        }
        Some(self.items[len - 2])
    }

    /// Replaces the top item, if there is one.
    #[tactic(auto, using(crate::proofs::StackLemmas::top_set, crate::proofs::StackLemmas::none_set))]
    pub fn set_top(&mut self, item: X)
        ensures { self.new ≡ with_top item self.old }
    {
        let len = self.items.len();
        if len > 0 {
            self.items[len - 1] = item;
        }
    }

    /// How many values there are.
    #[tactic(auto, using(crate::proofs::StackLemmas::reversed_len))]
    pub fn len(&self) -> usize
        ensures { result ≡ length self.now }
    {
        self.items.len()
    }

    /// Whether there is no value.
    #[tactic(auto, using(crate::proofs::StackLemmas::reversed_nil))]
    pub fn is_empty(&self) -> bool
        ensures { result ≡ is_empty self.now }
    {
        self.items.is_empty()
    }
}
