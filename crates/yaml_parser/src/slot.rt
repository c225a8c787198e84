ghost use Rattle.std.specs.Prelude.{◌≡◌};

use crate::event::Event;
use std::mem;
use yaml_chars::Marker;
use yaml_scanner::Failed;
use yaml_tokens::Fault;

/// Whether an event was written into the slot. If not, the slot says why.
pub type Answer = Result<(), Failed>;

/// Where productions write.
#[derive(Drop)]
pub struct EventSlot {
    /// The event that was written, and its position.
    pub next: (Event, Marker),
    /// Where a call failed, why no event comes: a fault of the parser, or `None` where the scanner keeps one.
    pub fault: Option<Fault>,
}

impl EventSlot {
    /// A slot before the first event.
    #[inline(always)]
    pub fn new(mark: Marker) -> Self {
        EventSlot {
            next: (Event::Nothing, mark),
            fault: None,
        }
    }

    /// Writes an event. The one before is not dropped: it was taken.
    #[inline(always)]
    pub(crate) fn write(&mut self, event: Event, mark: Marker)
        ensures { self.new.next ≡ (event, mark) }
    {
        mem::forget(mem::replace(&mut self.next, (event, mark)));
    }

    /// Writes why no event comes.
    #[inline(never)]
    pub(crate) fn halt(&mut self, fault: Option<Fault>) -> Failed
        ensures { self.new.fault ≡ fault }
    {
        self.fault = fault;
        Failed
    }
}
