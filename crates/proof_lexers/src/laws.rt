//! Laws of the exact model of the lexing functions and the texts of single tokens, each the contract of an empty
//! function.

ghost use Rattle.proof_lexers.specs.BufferLaws.{BuffersJoinFoldedLines};
ghost use Rattle.proof_lexers.specs.ScalarLaws.{DirectivesAreRead, DirectivesEndAsTheirTextSays, EachSeparationIsPassed, SeparationsArePassed, NamesAreRead, NamesEndAsTheirTextSays, PlainScalarsAreRead, PlainScansEndAsTheirTextSays, SpacesArePassed, TagsAreRead, TagsEndAsTheirTextSays, UrisAreRead, WhiteSpaceIsPassed};
ghost use Rattle.proof_lexers.specs.BlockLaws.{BlockPiecesAreRead, BlockScansEndAsTheirTextSays, FirstLinesGiveTheColumn, HeadersEndAsTheirLineSays};
ghost use Rattle.proof_lexers.specs.QuotedLaws.{QuotedBodiesAreRead, QuotedScansEndAsTheirTextSays};

/// The text that the model's buffers join is that of the body's lines, trimmed and folded.
#[tactic(auto, using(crate::proofs::Fold::buffers_join))]
pub fn buffers_join_folded_lines()
    ensures { BuffersJoinFoldedLines }
{}

/// After `&` or `*` a name is read as it stands, up to the first character that is not of a name.
#[tactic(auto, using(crate::proofs::Properties::Names::names_are_read))]
pub fn names_are_read()
    ensures { NamesAreRead }
{}

/// Each text after `&` or `*` is read in this way only. What is read is the name that the text begins with. A text
/// that begins with no name is refused.
pub fn names_end_as_their_text_says()
    ensures { NamesEndAsTheirTextSays }
{}

/// If a text begins with the whole of a plain scalar, in flow or outside, that is read as its value, with the blanks
/// and breaks after it. Or the text is refused, for one of three reasons: its column in flow, a dash before a flow
/// indicator, a TAB at the start of a line.
pub fn plain_scalars_are_read()
    ensures { PlainScalarsAreRead }
{}

/// Each text that begins with content is read in this way only. What is read is the whole of a plain scalar that the
/// text begins with, its value, and whether a break stands after it. Each of the three faults has its reason in the
/// text.
pub fn plain_scans_end_as_their_text_says()
    ensures { PlainScansEndAsTheirTextSays }
{}

/// On the way to the next token all blanks, breaks and comments are skipped, and nothing else; the position is the one
/// after them. The text is refused only if a TAB left of the innermost level has a token after it on its line.
pub fn separations_are_passed()
    ensures { SeparationsArePassed }
{}

/// All characters of a URI, or of a tag's suffix, that a text begins with are read: each as itself, and escapes as
/// octets of UTF-8. A text is refused exactly if an octet is missing, begins no character, goes on with none, or
/// makes none.
pub fn uris_are_read()
    ensures { UrisAreRead }
{}

/// Each text after `!` is read in this way only. What is read is a tag as it is written there, up to a text that may
/// follow one. Each fault has its reason in the text: octets that are no characters, an open verbatim tag, a handle
/// without a suffix, or text right after the tag.
pub fn tags_end_as_their_text_says()
    ensures { TagsEndAsTheirTextSays }
{}

/// After `?` all spaces, breaks and comments are skipped, and nothing else; the position is the one after them. The text
/// is refused only if neither a space nor a break stands there, nor a break after a comment.
pub fn white_space_is_passed()
    ensures { WhiteSpaceIsPassed }
{}

/// Within a line, blanks (with TABs or without) and a comment after one are skipped, and nothing else; the position is
/// the one after them, and what is reported to stand there does. The text is refused only if a comment stands after
/// no blank.
pub fn spaces_are_passed()
    ensures { SpacesArePassed }
{}

/// If a line after `%` is a directive, it is read as that directive, and the break after it is skipped.
#[tactic(auto, using(crate::proofs::Directives::Lines::directives_are_read))]
pub fn directives_are_read()
    ensures { DirectivesAreRead }
{}

/// Each text after `%` is read in this way only. What is read is the directive on its first line, and the break after
/// it. A line that is no directive is refused with its reason: a name that is missing or goes on, a bad version or
/// declaration, a comment after no blank, or other text.
pub fn directives_end_as_their_text_says()
    ensures { DirectivesEndAsTheirTextSays }
{}

/// Each separation of a text without NUL is skipped whole, up to a character that is not of a separation; or a TAB left of
/// the innermost level is refused.
pub fn each_separation_is_passed()
    ensures { EachSeparationIsPassed }
{}

/// After `!` each tag is read as it is written, up to a text that may follow a tag.
#[tactic(auto, using(crate::proofs::Properties::TagReads::tags_are_read))]
pub fn tags_are_read()
    ensures { TagsAreRead }
{}

/// A body with a value, between its quotes, is read as that value up to the closing quote, or is refused for its
/// indentation.
pub fn quoted_bodies_are_read()
    ensures { QuotedBodiesAreRead }
{}

/// After an opening quote, each text without NUL is read in this way only. What is read is a body with that value, up
/// to its closing quote. Each fault has its reason in the text: a document marker in a line of the body, a body that
/// does not end, a bad escape, or a line left of the block collection around it.
pub fn quoted_scans_end_as_their_text_says()
    ensures { QuotedScansEndAsTheirTextSays }
{}

/// After `|` or `>` the rest of the line is read in this way only. A header is read as its chomping and its digit, if
/// no TAB begins the next line. A line that is no header is refused, for a digit 0, for a comment right after a
/// header, or for other text.
pub fn headers_end_as_their_line_says()
    ensures { HeadersEndAsTheirLineSays }
{}

/// After each header the column of the content is what the header's digit gives. Without a digit it is what the lines
/// of the text show, up to the first line that has more than spaces.
#[tactic(auto, using(crate::proofs::Blocks::First::first_lines))]
pub fn first_lines_give_the_column()
    ensures { FirstLinesGiveTheColumn }
{}

/// Each piece of text that is a block scalar before the text after it is read as such: with its value, up to the
/// piece's end and the spaces after it, at the position where its content begins. It is refused in two cases only: if a
/// TAB begins the line after the header; and if, after a scalar without content, text is indented as content of the
/// innermost block collection but less than the empty lines before it.
pub fn block_pieces_are_read()
    ensures { BlockPiecesAreRead }
{}

/// After `|` or `>` each text without NUL is read in this way only. It begins with a piece that is a block scalar,
/// which is read, or what stands after the piece is refused. Or its header is refused.
pub fn block_scans_end_as_their_text_says()
    ensures { BlockScansEndAsTheirTextSays }
{}
