//! A receiver that is handed no event by which a load would make more than the limits allow.
ghost use Rattle.std.specs.Prelude.{◌≡◌, ◌<◌, ◌^◌, true, None};
ghost use Rattle.defs_text.specs.Text.{has_no_nul};
ghost use Rattle.std.specs.Iterator.{IsFinite, size};
ghost use Rattle.yaml_chars.specs.WindowView.{BeginsText};
ghost use Rattle.yaml_loader.specs.Counting.{Counts, IsNew};
ghost use Rattle.yaml_loader.specs.Handing.{error_by, outcome_by, Hands};
ghost use Rattle.yaml_loader.specs.Made.{nothing_made};

use crate::count::{Count, Excess};
use crate::limits::Limits;
use crate::limits_error::LimitsError;
use proof_loads::laws::texts_are_answered;
use std::alloc::Global;
use yaml_chars::{Characters, Marker};
use yaml_parser::{Event, MarkedEventReceiver, Parser};
use yaml_tokens::ScanError;

/// A receiver, and what a load makes of the events that it was handed.
#[derive(Drop)]
pub struct Guard<R: MarkedEventReceiver> {
    pub(crate) receiver: R,
    pub(crate) count: Count,
    // Where an event was not handed on, and why.
    pub(crate) stopped: Option<(Excess, Marker)>,
}

impl<R: MarkedEventReceiver> MarkedEventReceiver for Guard<R> {
    ghost use Rattle.yaml_loader.specs.Counting.{Guards};

    ghost takes = { Guards R.takes };

    fn on_event(&mut self, ev: Event, mark: Marker) -> Result<(), ScanError> {
        match self.count.take(&ev) {
            Ok(()) => self.receiver.on_event(ev, mark),
            Err(excess) => {
                self.stopped = Some((excess, mark));
                Err(ScanError::fixed(mark, "over the limits"))
            }
        }
    }
}

impl<R: MarkedEventReceiver> Guard<R> {
    /// Nothing was counted yet. It takes no memory.
    pub fn new(alloc: Global, receiver: R, limits: Limits) -> Guard<R>
        ensures receiver { result.receiver ≡ receiver }
        ensures counts { Counts result.count nothing_made }
        ensures limits { result.count.limits ≡ limits }
        ensures goes_on { result.stopped ≡ None }
    {
        Guard {
            receiver,
            count: Count::new(alloc, limits),
            stopped: None,
        }
    }

    /// Hands on the events of all characters that come from a source, up to the limits.
    pub fn read<S: Characters>(&mut self, alloc: Global, source: S) -> Result<(), LimitsError>
        requires can { S.can_next source }
        requires finite { IsFinite (S.remaining source) }
        requires few { size (S.remaining source) < 2 ^ 63 }
        ensures { BeginsText S.next_gives source (λ text. has_no_nul text ≡ true → IsNew self.old → Hands R.takes self.old.count.limits text self.old.receiver result self.new.receiver) }
    {
        let limits = self.count.limits;
        let mut parser = Parser::new(alloc, source);
        parser.set_room(limits.room());
        texts_are_answered::<Guard<R>>();
        let outcome = parser.load(self, true);
        parser.note();
        match limits.excess(parser.backlog()) {
            Some(mark) => Err(LimitsError::Size(mark)),
            None => self.finish(outcome),
        }
    }

    // After this outcome of a load.
    fn finish(&self, outcome: Result<(), ScanError>) -> Result<(), LimitsError>
        ensures { result ≡ outcome_by self.now.stopped outcome }
    {
        match outcome {
            Ok(()) => Ok(()),
            Err(fault) => Err(self.error(fault)),
        }
    }

    /// Why an event was refused with this fault: the excess, or the receiver's own fault.
    pub fn error(&self, fault: ScanError) -> LimitsError
        ensures { result ≡ error_by self.now.stopped fault }
    {
        match self.stopped {
            Some((excess, mark)) => excess.error(mark),
            None => LimitsError::Scan(fault),
        }
    }
}
