ghost use Rattle.std.specs.Prelude.{◌≡◌, ◌≢◌, List, [], ◌∷◌, true, false, OnOk, OnErr, IfSome, IfNone};
ghost use Rattle.model_parser.specs.declared.state.State.{State};
ghost use Rattle.model_parser.specs.declared.state.State.TheVariants.{Stream};

use model_parser::State;
use std::alloc::{AllocError, Global};
use std::marker::Model;

/// What is awaited, the next on top.
#[derive(Drop)]
pub struct Stack {
    // Whether all of the stream is awaited, below the other states: so the first takes no memory.
    fresh: bool,
    states: Vec<State>,
}

impl Model for Stack {
    ghost use Rattle.std.specs.Prelude.{List};
    ghost use Rattle.model_parser.specs.declared.state.State.{State};
    ghost use Rattle.yaml_parser.specs.Stacked.{stacked};

    ghost Value = { List State };

    ghost view = { λ s. stacked s.fresh s.states.items };
}

impl Stack {
    /// The stack before a stream's start. It takes no memory.
    pub fn new(alloc: Global) -> Self
        ensures { result ≡ Stream ∷ [] }
    {
        Stack {
            fresh: true,
            states: Vec::new(alloc),
        }
    }

    /// An `Err` changes nothing.
    #[inline(always)]
    pub fn push(&mut self, state: State) -> Result<(), AllocError>
        ensures ok { OnOk result (self.new ≡ state ∷ self.old) }
        ensures err { OnErr result (self.new ≡ self.old) }
    {
        self.states.reserve(1)?;
        self.states.push_reserved(state);
        Ok(())
    }

    /// Whether nothing is awaited.
    pub fn is_empty(&self) -> bool
        ensures yes { result ≡ true → self.now ≡ [] }
        ensures no { result ≡ false → self.now ≢ [] }
    {
        !self.fresh && self.states.is_empty()
    }

    /// Takes the state on top, or `None` if there is none.
    #[inline(always)]
    pub fn pop(&mut self) -> Option<State>
        ensures some { IfSome result (λ s. self.old ≡ s ∷ self.new) }
        ensures none { IfNone result ((self.old ≡ []) × (self.new ≡ [])) }
    {
        if let Some(state) = self.states.pop() {
            return Some(state);
        }
        if self.fresh {
            self.fresh = false;
            return Some(State::Stream);
        }
        None
    }
}
