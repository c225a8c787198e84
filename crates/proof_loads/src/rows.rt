//! Refused texts have no row of tokens, and the events of a text come from its row. Each law is the contract of an empty function.

ghost use Rattle.proof_loads.specs.Rows.{EventsAreOfTheRow, RefusedTextsHaveNoRow, TextsWithAFaultHaveNoRow};

/// A text without NUL that the scanner refuses has no row of tokens.
pub fn refused_texts_have_no_row()
    ensures { RefusedTextsHaveNoRow }
{}

/// A `&str` of which a scanner has a fault, other than refused memory, has no row of tokens up to its first NUL: by the
/// clauses of the scanner's `next_token`.
#[tactic(auto, using(crate::proofs::Spelled::faults_leave_no_row))]
pub fn texts_with_a_fault_have_no_row()
    ensures { TextsWithAFaultHaveNoRow }
{}

/// The events of a text with their positions are those that the definitions give it.
#[tactic(auto, using(crate::proofs::RowTexts::of_the_row))]
pub fn events_are_of_the_row()
    ensures { EventsAreOfTheRow }
{}
