//! The anchors of a text.
ghost use Rattle.std.specs.Prelude.{◌≡◌, ◌++◌, false, List, IfOk, OnOk, chars};
ghost use Rattle.yaml_rust2.specs.Text.{up_to_nul};
ghost use Rattle.yaml_rust2.specs.Event.{Ev};
ghost use Rattle.yaml_rust2.specs.Position.{Position};
ghost use Rattle.yaml_rust2.specs.Shown.{ev_of};
ghost use Rattle.yaml_rust2.specs.PlacedEvents.{HasEvents};
ghost use Rattle.uses.specs.Anchors.{listed, number_of, anchors_in};

use std::alloc::Global;
use yaml_rust2::ScanError;
use yaml_rust2::laws::{strings_are_the_text, texts_are_answered};
use yaml_rust2::parser::{Event, MarkedEventReceiver, Parser};
use yaml_rust2::scanner::Marker;

/// Collects the numbers of anchors.
#[derive(Drop)]
pub struct Anchors {
    numbers: Vec<usize>,
}

impl MarkedEventReceiver for Anchors {
    ghost use Rattle.std.specs.Prelude.{◌≡◌, ◌++◌, OnOk};
    ghost use Rattle.uses.specs.Anchors.{listed, number_of};

    ghost takes = { λ before e p result after. OnOk result (after.numbers.items ≡ before.numbers.items ++ listed (number_of e)) };

    fn on_event(&mut self, ev: Event, mark: Marker) -> Result<(), ScanError> {
        let number = number_of(&ev);
        if number == 0 {
            return Ok(());
        }
        match self.numbers.push(number) {
            Ok(()) => Ok(()),
            Err(_) => Err(ScanError::memory(mark)),
        }
    }
}

// The number of the anchor of the node that begins with the event, or 0.
fn number_of(event: &Event) -> usize
    ensures { result ≡ number_of (ev_of event.now) }
{
    match event {
        Event::Scalar(_, _, anchor, _)
        | Event::SequenceStart(anchor, _)
        | Event::MappingStart(anchor, _) => *anchor,
        _ => 0,
    }
}

/// The numbers of all anchors of a text, in the order in which their nodes begin. An `Err` is the text's fault, or memory
/// was refused.
pub fn anchor_numbers(alloc: Global, text: &str) -> Result<Vec<usize>, ScanError>
    ensures { IfOk result (λ numbers. (es : List (Ev × Position)) × HasEvents false (up_to_nul (chars text.now)) es × (numbers.items ≡ anchors_in es)) }
{
    let mut anchors = Anchors {
        numbers: Vec::new(alloc),
    };
    let mut parser = Parser::new_from_str(alloc, text);
    texts_are_answered::<Anchors>();
    strings_are_the_text();
    let outcome = parser.load(&mut anchors, true);
    parser.note();
    outcome?;
    let Anchors { numbers } = anchors;
    Ok(numbers)
}
