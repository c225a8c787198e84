ghost use Rattle.std.specs.Prelude.{◌≡◌, ◌^◌, ◌<◌, [], None, false};
ghost use Rattle.std.specs.Iterator.{IsFinite, size};

use crate::{ImplicitKeys, Levels, Queue, Stack};
use model_scanner::FlowLevel;
use std::alloc::Global;
use yaml_chars::{Characters, Marker, Window};
use yaml_tokens::{Fault, Problem};

/// Where more tokens waited than there was room for.
#[derive(Clone, Copy, Debug, PartialEq, Eq)]
pub struct Backlog {
    /// The position of the scanner, after the characters that it had read.
    pub mark: Marker,
    /// How many tokens waited, since a key might still have come before the first of them.
    pub tokens: usize,
}

/// Fetches tokens. Its fields are what the functions of all token kinds share.
#[derive(Drop)]
pub struct Fetcher<T: Characters> {
    pub(crate) alloc: Global,
    pub(crate) window: Window<T>,
    pub(crate) tokens: Queue,
    pub(crate) keys: ImplicitKeys,
    pub(crate) levels: Levels,
    pub(crate) flow: Stack<FlowLevel>,
    // Whether a key without `?` may begin here.
    pub(crate) key_allowed: bool,
    // Whether only blanks stand before this position on its line.
    pub(crate) leading: bool,
    // Where a `:` may stand right after a quoted scalar or a flow collection.
    pub(crate) adjacent_value_at: usize,
    // How many tokens may wait where one more is asked for.
    pub(crate) room: usize,
    // Where more of them waited.
    pub(crate) backlog: Option<Backlog>,
    pub(crate) started: bool,
    // The fault that was met last, where a function gave `Failed`.
    pub(crate) fault: Fault,
    // Where the scanner stood, once this fault is kept.
    pub(crate) kept: Option<Marker>,
    // Whether tokens may wait beside it before which no key can come any more.
    pub(crate) early: bool,
}

/// What a function gives in place of a fault, which is held in a field: so it takes one byte where a fault takes 32.
#[derive(Clone, Copy)]
pub struct Failed;

impl<T: Characters> Fetcher<T> {
    ghost use Rattle.model_scanner.specs.Run.{nothing_held};
    ghost use Rattle.yaml_scanner.specs.Shape.{held};
    ghost use Rattle.yaml_scanner.specs.Tokens.{handed};
    ghost use Rattle.yaml_scanner.specs.Follows.{Follows};
    ghost use Rattle.yaml_scanner.specs.Runs.{Holds};
    ghost use Rattle.yaml_chars.specs.WindowView.{position_of};
    ghost use Rattle.yaml_tokens.specs.declared.problem.Fault.TheVariants.{At};

    /// A fetcher of the characters of an iterator, up to its end or to a NUL.
    pub fn new(alloc: Global, iter: T) -> Fetcher<T>
        requires can { T.can_next iter }
        requires finite { IsFinite (T.remaining iter) }
        requires few { size (T.remaining iter) < 2 ^ 63 }
        ensures held { held result ≡ nothing_held }
        ensures kept { result.kept ≡ None }
        ensures tokens { handed result.tokens ≡ [] }
        ensures over { result.tokens.over ≡ false }
        ensures backlog { result.backlog ≡ None }
        ensures follows { Follows result }
        ensures start { result.window.start ≡ iter }
    {
        Fetcher {
            alloc,
            window: Window::new(iter),
            tokens: Queue::new(alloc),
            keys: ImplicitKeys::new(alloc),
            levels: Levels::new(alloc),
            flow: Stack::new(alloc),
            key_allowed: true,
            leading: true,
            adjacent_value_at: 0,
            room: usize::MAX,
            backlog: None,
            started: false,
            kept: None,
            early: false,
            fault: Fault::OutOfMemory,
        }
    }

    /// Holds a fault that was met.
    #[inline(never)]
    pub(crate) fn fail(&mut self, fault: Fault) -> Failed
        ensures { Holds fault self.old self.new }
    {
        self.fault = fault;
        Failed
    }

    /// Holds the fault that a problem here is.
    #[inline(never)]
    pub(crate) fn fail_here(&mut self, problem: Problem) -> Failed
        ensures { Holds (At problem (position_of self.old.window)) self.old self.new }
    {
        let mark = self.window.mark();
        self.fail(Fault::At(problem, mark))
    }
}
