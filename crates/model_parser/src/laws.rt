//! Laws of the table of the token grammar, each the contract of an empty function.

ghost use Rattle.model_parser.specs.Laws.{OutcomesAreRight, ParsersStayOnTrack};

/// What the table's machine says of a list of tokens is so: they are a stream with these events; or they are none, but a stream
/// begins with them and with these events; or the machine stopped at the first token with which no stream goes on, and a stream
/// begins with the tokens before it and with these events.
#[tactic(auto, using(crate::proofs::Streams::stream_outcome))]
pub fn outcomes_are_right()
    ensures { OutcomesAreRight }
{}

/// A parser by the table takes rows one after the other, and stays on track: what it still has to read completes the tokens that
/// it took, with the events that it gave, and all that completes them is read so. What it refuses is refused by right.
#[tactic(auto, using(crate::proofs::Streams::all_stay))]
pub fn parsers_stay_on_track()
    ensures { ParsersStayOnTrack }
{}
