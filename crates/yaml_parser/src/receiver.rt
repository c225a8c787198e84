ghost use Rattle.std.specs.Prelude.{Result};
ghost use Rattle.defs_event.specs.Event.{Ev};
ghost use Rattle.yaml_tokens.specs.ErrorReport.{ErrorReport};
ghost use Rattle.yaml_parser.specs.Shown.{ev_of};

use crate::event::Event;
use yaml_chars::Marker;
use yaml_tokens::ScanError;

/// Takes the events that a parser pushes by [`load`](crate::Parser::load). Implement `on_event`.
pub trait EventReceiver {
    // What one call does: the receiver before it, the event, the result, and the receiver after it.
    ghost takes: { Self → Ev → Result (Unit {0}) ErrorReport → Self → Type 0 } = { λ _ _ _ _. Unit {0} };

    /// Takes an event. An `Err` stops the call of `load`, which returns it.
    fn on_event(&mut self, ev: Event) -> Result<(), ScanError>
        ensures { takes self.old (ev_of ev) result self.new };
}

/// Takes the events that a parser pushes by [`load`](crate::Parser::load), with their positions. Every [`EventReceiver`]
/// is a `MarkedEventReceiver`.
pub trait MarkedEventReceiver {
    ghost use Rattle.defs_text.specs.Position.{Position};

    // What one call does: the receiver before it, the event and its position, the result, and the receiver after it.
    ghost takes: { Self → Ev → Position → Result (Unit {0}) ErrorReport → Self → Type 0 } = { λ _ _ _ _ _. Unit {0} };

    /// Takes an event and its position. An `Err` stops the call of `load`, which returns it.
    fn on_event(&mut self, ev: Event, mark: Marker) -> Result<(), ScanError>
        ensures { takes self.old (ev_of ev) mark result self.new };
}

impl<R: EventReceiver> MarkedEventReceiver for R {
    ghost takes = { λ before e _ result after. R.takes before e result after };

    fn on_event(&mut self, ev: Event, mark: Marker) -> Result<(), ScanError> {
        let _ = mark;
        EventReceiver::on_event(self, ev)
    }
}
