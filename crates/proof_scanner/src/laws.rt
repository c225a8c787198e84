//! Laws of the scanner's model: its tokens are a cut of the text, and those of the text's row; no text with a row is refused; where others are.
//! Each is the contract of an empty function.

ghost use Rattle.proof_scanner.specs.Laws.{FirstTokensAreACut, PositionsAreInTheText, ShownFaultsStandInTheText, TokensAreACut};
ghost use Rattle.proof_scanner.specs.PiecesRead.{PiecesAreRead};
ghost use Rattle.proof_scanner.specs.StandsInRow.{TokensAreOfARow};
ghost use Rattle.proof_scanner.specs.Goes.{IsComplete};
ghost use Rattle.proof_scanner.specs.Certain.{FailingPlacesHaveNoRow, TextsAreStuckOnce, TextsWithARowAreNotStuck};
ghost use Rattle.proof_scanner.specs.Never.{AnchorIndentationNeverComes};
ghost use Rattle.proof_scanner.specs.Told.{RefusedTextsAreStuck};

/// What a lexing function reads of a text is a piece that belongs to its token, followed by a separation, whatever is
/// open around it. The position is the one after both. This holds for plain, quoted and block scalars, names of anchors
/// and aliases, tags and directives.
#[tactic(auto, using(crate::proofs::Cut::Pieces::Read::pieces_are_read))]
pub fn lexing_functions_read_pieces()
    ensures { PiecesAreRead }
{}

/// The tokens that the scanner's model gives a text without NUL are a cut of it: the text is a row of separations and
/// pieces in order, and each piece belongs to its token.
#[tactic(auto, using(crate::proofs::Sound::FirstTokens::tokens_are_cut))]
pub fn tokens_are_a_cut()
    ensures { TokensAreACut }
{}

/// At each state of the model, and so before any fault, the tokens so far and every beginning of them are a cut of a
/// beginning of the text. With the stream's end they are a cut of the whole text.
#[tactic(auto, using(crate::proofs::Sound::FirstTokens::first_tokens_are_cut))]
pub fn first_tokens_are_a_cut()
    ensures { FirstTokensAreACut }
{}

/// Four kinds of refusal come only where their reason stands in the text, if it has no NUL: a bad escape; an end or a
/// document marker inside a quoted scalar; a flow collection too deep; a dash in flow. The reason stands after a row
/// of pieces and a separation, at the fault's position.
#[tactic(auto, using(crate::proofs::Cut::Faults::Fetches::faults_stand))]
pub fn shown_faults_stand_in_the_text()
    ensures { ShownFaultsStandInTheText }
{}

/// At each state of the model its position is the one after a beginning of the text, and the rest of the text is left. After
/// the stream's end it is where a line begins, after the whole text. The stream's start was met just where there are
/// tokens.
pub fn positions_are_in_the_text()
    ensures { PositionsAreInTheText }
{}

/// The tokens that the scanner's model gives a text without NUL are those of the text's row, in order and with their
/// positions.
#[tactic(auto, using(crate::proofs::Sound::Sound::tokens_are_of_a_row))]
pub fn tokens_are_of_a_row()
    ensures { TokensAreOfARow }
{}

/// The scanner's model gives each text without NUL that has a row the row's tokens, in order and with their positions: it
/// refuses no text that has a row.
#[tactic(auto, using(crate::proofs::Complete::texts_with_a_row_are_read))]
pub fn texts_with_a_row_are_read()
    ensures { IsComplete }
{}

/// Where the scanner's model refuses a text without NUL with a fault of one of the kinds that are told, the text is stuck by
/// the definitions alone: a row may begin with all pieces up to there, and the condition of this fault fails there first.
pub fn refused_texts_are_stuck()
    ensures { RefusedTextsAreStuck }
{}

/// Where a condition fails, after whatever beginning of a row, the text has no row.
pub fn failing_places_have_no_row()
    ensures { FailingPlacesHaveNoRow }
{}

/// A text that has a row is stuck nowhere.
pub fn texts_with_a_row_are_not_stuck()
    ensures { TextsWithARowAreNotStuck }
{}

/// A text is stuck at one place, with one kind of fault and one position of it: whoever says so of a text, by whatever
/// beginning of a row, says the same.
#[tactic(auto, using(crate::proofs::First::Stuck::stuck_once))]
pub fn texts_are_stuck_once()
    ensures { TextsAreStuckOnce }
{}

/// The scanner's model refuses no text without NUL for an anchor or a tag in the first column before an entry there.
pub fn anchor_indentation_never_comes()
    ensures { AnchorIndentationNeverComes }
{}
