//! Laws of where pieces of text end, of rows, and of what a text means, each the contract of an empty function.

ghost use Rattle.proof_row.specs.Ends.{SeparationsHaveOneEnd, NamesHaveOneEnd, PlainScalarsHaveOneEnd, SingleQuotedScalarsHaveOneEnd, DoubleQuotedScalarsHaveOneEnd, TagsHaveOneEnd, DirectivesHaveOneEnd, BlockScalarsHaveOneEnd, TextsBeginWithOneKind, SeparationsEndBeforePieces, PiecesHaveOneEnd, PiecesSeenAlikeHaveOneEnd, SeparationsBeforePiecesAreOne, NoPieceIsInASeparation, TextsUpToTheirEndHaveNoNul};
ghost use Rattle.defs_token.specs.Row.{OneReading, OneRow};
ghost use Rattle.defs_event.specs.Meaning.{OneListOfEvents, OneMeaning};

/// A separation has one end.
#[tactic(auto, using(crate::proofs::Separations::separations))]
pub fn separations_have_one_end()
    ensures { SeparationsHaveOneEnd }
{}

/// The name of an anchor or of an alias has one end.
pub fn names_have_one_end()
    ensures { NamesHaveOneEnd }
{}

/// A plain scalar has one end.
#[tactic(auto, using(crate::proofs::Plains::plains))]
pub fn plain_scalars_have_one_end()
    ensures { PlainScalarsHaveOneEnd }
{}

/// A scalar in single quotes has one end.
#[tactic(auto, using(crate::proofs::Quotes::singles))]
pub fn single_quoted_scalars_have_one_end()
    ensures { SingleQuotedScalarsHaveOneEnd }
{}

/// A scalar in double quotes has one end.
#[tactic(auto, using(crate::proofs::Quotes::doubles))]
pub fn double_quoted_scalars_have_one_end()
    ensures { DoubleQuotedScalarsHaveOneEnd }
{}

/// A tag has one end.
pub fn tags_have_one_end()
    ensures { TagsHaveOneEnd }
{}

/// A directive has one end.
#[tactic(auto, using(crate::proofs::Directives::directives))]
pub fn directives_have_one_end()
    ensures { DirectivesHaveOneEnd }
{}

/// A block scalar has one end.
pub fn block_scalars_have_one_end()
    ensures { BlockScalarsHaveOneEnd }
{}

/// The text at a piece, and what is open there, say what kind of piece it is.
#[tactic(auto, using(crate::proofs::Begins::texts_begin))]
pub fn texts_begin_with_one_kind()
    ensures { TextsBeginWithOneKind }
{}

/// A separation ends before each piece.
#[tactic(auto, using(crate::proofs::Begins::separations_end_before))]
pub fn separations_end_before_pieces()
    ensures { SeparationsEndBeforePieces }
{}

/// At one account a text begins with one piece of one token.
#[tactic(auto, using(crate::proofs::Pieces::pieces))]
pub fn pieces_have_one_end()
    ensures { PiecesHaveOneEnd }
{}

/// At two accounts that agree in what a piece asks, a text begins with one piece of one token.
pub fn pieces_seen_alike_have_one_end()
    ensures { PiecesSeenAlikeHaveOneEnd }
{}

/// Two separations with which one text begins, each with a piece after it, are equal.
#[tactic(auto, using(crate::proofs::Pieces::separations_before))]
pub fn separations_before_pieces_are_one()
    ensures { SeparationsBeforePiecesAreOne }
{}

/// A text that is a separation up to its end is no other separation with a piece after it.
#[tactic(auto, using(crate::proofs::Pieces::no_piece_at_end))]
pub fn no_piece_is_in_a_separation()
    ensures { NoPieceIsInASeparation }
{}

/// A text up to its end has no NUL.
#[tactic(auto, using(crate::proofs::Pieces::clean_up_to_end))]
pub fn texts_up_to_their_end_have_no_nul()
    ensures { TextsUpToTheirEndHaveNoNul }
{}

/// A text has at most one row.
#[tactic(auto, using(crate::proofs::OneRow::one_row))]
pub fn one_row()
    ensures { OneRow }
{}

/// A text is read as at most one list of tokens, positions included.
pub fn one_reading()
    ensures { OneReading }
{}

/// A text has at most one list of events.
pub fn one_list_of_events()
    ensures { OneListOfEvents }
{}

/// A text means at most one list of trees, by the definitions alone.
pub fn one_meaning()
    ensures { OneMeaning }
{}
