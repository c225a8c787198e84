ghost use Rattle.std.specs.Prelude.{◌≡◌};
ghost use Rattle.yaml_tokens.specs.Problem.{text_of_problem, fault_of};

use crate::fault::ScanError;
use std::alloc::AllocError;
use yaml_chars::Marker;

/// What may be wrong with a stream: first the problems that the scanner finds, then those of the parser, then that of
/// the loader.
#[derive(Clone, Copy, Debug, PartialEq, Eq)]
pub enum Problem {
    /// `%` where a node or an indicator must begin.
    UnexpectedPercent,
    /// The reserved indicator `@` there (YAML 1.2, section 5.3).
    UnexpectedAt,
    /// The reserved indicator `` ` `` there (section 5.3).
    UnexpectedBacktick,
    /// Something after `...` on its line that is no comment.
    ContentAfterDocumentEnd,
    /// In a flow collection, a token further left than the block collection around it allows.
    InvalidIndentation,
    /// What stands where a block mapping's key must has no `:` on its line, or none within 1024 characters.
    KeyWithoutColon,
    /// The same, where another token or the end of the text comes first.
    KeyExpected,
    /// A TAB in the indentation of block content.
    TabInBlockIndentation,
    /// A TAB after `?` and spaces.
    TabAfterKey,
    /// Neither a space nor a line break after `?`.
    WhitespaceExpected,
    /// `#` right after a token, without a blank between.
    CommentNotSeparated,
    /// More than 255 levels of flow collections.
    FlowTooDeep,
    /// The indicator `-` in a flow collection.
    BlockEntryInFlow,
    /// The indicator `-` where no item of a block sequence can begin, as in `a: - b`.
    BlockEntryNotAllowed,
    /// Inside a block collection, an anchor or a tag at column 0 before a `-` at column 0.
    AnchorIndentation,
    /// Only TABs between `-` and what could be a further block collection.
    TabAfterDash,
    /// Only TABs between `:` and what could be a further block collection.
    TabAfterColon,
    /// The indicator `?` where no key can begin.
    KeyNotAllowed,
    /// `:` where no value can begin, as the second one of `a: b: c`.
    ValueNotAllowed,
    /// In a flow sequence, the `:` of a pair on a later line than its key.
    ColonMisplaced,
    /// In a flow collection, a plain scalar further left than the block collection around it allows.
    FlowIndentation,
    /// In a flow collection, a plain scalar that begins with `-` and one of `,[]{}`.
    PlainDashInFlow,
    /// A line of a quoted scalar further left than the block collection around it allows.
    QuotedIndentation,
    /// A TAB in the indentation of a line of a quoted scalar.
    TabAsIndentation,
    /// Something on the line of a quoted scalar that cannot follow it.
    ContentAfterQuoted,
    /// The first line of a block scalar begins with a TAB.
    BlockScalarTab,
    /// A line indented less than the block scalar before it, and more than what is around that.
    BlockScalarIndentation,
    /// The prefix of `%TAG` begins with a character that no tag has.
    GlobalTagCharacter,
    /// Something after a directive on its line that is no comment.
    DirectiveEnd,
    /// `%` without a name.
    DirectiveName,
    /// The name of a directive goes on with a character that no name has.
    DirectiveNameEnd,
    /// In `%YAML`, no `.` after the major version.
    VersionDot,
    /// In `%YAML`, a number with too many digits.
    VersionTooLong,
    /// In `%YAML`, no digit where a number must stand.
    VersionNumber,
    /// In `%TAG`, neither a blank nor a break after the prefix.
    TagDirectiveEnd,
    /// Something right after a tag that does not end it.
    TagEnd,
    /// A handle that does not begin with `!`.
    TagStart,
    /// In `%TAG`, a handle that does not end with `!`.
    TagDirectiveHandle,
    /// A verbatim tag without its `>`.
    VerbatimTagEnd,
    /// A tag without a suffix.
    TagUri,
    /// In a tag, `%` without two hexadecimal digits after it.
    TagOctet,
    /// In a tag, an escaped octet that begins no character of UTF-8.
    TagLeadingOctet,
    /// In a tag, an escaped octet that does not go on with the character before it.
    TagTrailingOctet,
    /// In a tag, escaped octets that are no character: overlong, a surrogate, or above U+10FFFF.
    TagCodepoint,
    /// `&` or `*` without a name.
    AnchorName,
    /// The indentation indicator 0 of a block scalar.
    BlockScalarZero,
    /// Something after the header of a block scalar that is no comment.
    BlockScalarHeader,
    /// `---` or `...` at the start of a line of a quoted scalar.
    QuotedDocumentMarker,
    /// A quoted scalar without its closing quote.
    QuotedEnd,
    /// In double quotes, `\` before a character that is no escape (section 5.7).
    UnknownEscape,
    /// In double quotes, an escape with too few hexadecimal digits.
    HexadecimalDigit,
    /// In double quotes, an escape whose code is no character.
    EscapedCode,
    /// A TAB in the indentation of a line of a plain scalar.
    PlainTab,
    /// `load` was called where the parser stands inside a document.
    DocumentStartEvent,
    /// Something where a document must begin with `---`.
    DocumentStartToken,
    /// Two `%YAML` directives of one document.
    SecondVersion,
    /// Two `%TAG` directives of one document with the same handle.
    RepeatedHandle,
    /// A directive after a document that has no `...`.
    DirectiveWithoutDocumentEnd,
    /// An alias whose anchor does not stand before it in its document.
    UnknownAnchor,
    /// Something where a node must stand.
    NodeContent,
    /// Something in a block mapping where its next key or its end must stand.
    BlockMappingKey,
    /// Neither `,` nor `}` after a pair of a flow mapping.
    FlowMappingEntry,
    /// Neither `,` nor `]` after an item of a flow sequence.
    FlowSequenceEntry,
    /// Something in a block sequence where its next `-` or its end must stand.
    BlockSequenceEntry,
    /// A tag whose handle no `%TAG` of its document declares.
    UndeclaredHandle,
    /// An event that cannot come after those that a loader got.
    EventOutOfNesting,
}

/// The texts that the problems print, in the order of their variants (`text_of_problem` names each).
static TEXTS: [&str; 66] = [
    "unexpected character: `%'",
    "unexpected character: `@'",
    "unexpected character: ``'",
    "invalid content after document end marker",
    "invalid indentation",
    "simple key expect ':'",
    "simple key expected",
    "tabs disallowed within this context (block indentation)",
    "tabs disallowed in this context",
    "expected whitespace",
    "comments must be separated from other tokens by whitespace",
    "recursion limit exceeded",
    "\"-\" is only valid inside a block",
    "block sequence entries are not allowed in this context",
    "invalid indentation for anchor",
    "'-' must be followed by a valid YAML whitespace",
    "':' must be followed by a valid YAML whitespace",
    "mapping keys are not allowed in this context",
    "mapping values are not allowed in this context",
    "illegal placement of ':' indicator",
    "invalid indentation in flow construct",
    "plain scalar cannot start with '-' followed by ,[]{}",
    "invalid indentation in quoted scalar",
    "tab cannot be used as indentation",
    "invalid trailing content after double-quoted scalar",
    "a block scalar content cannot start with a tab",
    "wrongly indented line in block scalar",
    "invalid global tag character",
    "while scanning a directive, did not find expected comment or line break",
    "while scanning a directive, could not find expected directive name",
    "while scanning a directive, found unexpected non-alphabetical character",
    "while scanning a YAML directive, did not find expected digit or '.' character",
    "while scanning a YAML directive, found extremely long version number",
    "while scanning a YAML directive, did not find expected version number",
    "while scanning TAG, did not find expected whitespace or line break",
    "while scanning a tag, did not find expected whitespace or line break",
    "while scanning a tag, did not find expected '!'",
    "while parsing a tag directive, did not find expected '!'",
    "while scanning a verbatim tag, did not find the expected '>'",
    "while parsing a tag, did not find expected tag URI",
    "while parsing a tag, did not find URI escaped octet",
    "while parsing a tag, found an incorrect leading UTF-8 octet",
    "while parsing a tag, found an incorrect trailing UTF-8 octet",
    "while parsing a tag, found an invalid UTF-8 codepoint",
    "while scanning an anchor or alias, did not find expected alphabetic or numeric character",
    "while scanning a block scalar, found an indentation indicator equal to 0",
    "while scanning a block scalar, did not find expected comment or line break",
    "while scanning a quoted scalar, found unexpected document indicator",
    "while scanning a quoted scalar, found unexpected end of stream",
    "while parsing a quoted scalar, found unknown escape character",
    "while parsing a quoted scalar, did not find expected hexadecimal number",
    "while parsing a quoted scalar, found invalid Unicode character escape code",
    "while scanning a plain scalar, found a tab",
    "did not find expected <document-start>",
    "did not find expected <document start>",
    "duplicate version directive",
    "the TAG directive must only be given at most once per handle in the same document",
    "missing explicit document end marker before directive",
    "while parsing node, found unknown anchor",
    "while parsing a node, did not find expected node content",
    "while parsing a block mapping, did not find expected key",
    "while parsing a flow mapping, did not find expected ',' or '}'",
    "while parsing a flow sequence, expected ',' or ']'",
    "while parsing a block collection, did not find expected '-' indicator",
    "the handle wasn't declared",
    "event out of nesting",
];

impl Problem {
    /// The text that a fault prints for it.
    #[tactic(auto, unfolding(crate::specs::Problem::text_of_problem))]
    pub fn text(self) -> &'static str
        ensures { result.now ≡ text_of_problem self }
    {
        TEXTS[self as usize]
    }
}

/// Why scanner or parser stop: memory was refused, or a problem and its position.
#[derive(Clone, Copy, Debug, PartialEq, Eq)]
pub enum Fault {
    /// Memory was refused.
    OutOfMemory,
    /// The problem, and where it is.
    At(Problem, Marker),
}

impl Fault {
    /// The fault as callers see it. `mark` is where memory was refused.
    pub fn error(self, mark: Marker) -> ScanError
        ensures { result ≡ fault_of self mark }
    {
        match self {
            Fault::OutOfMemory => ScanError::memory(mark),
            Fault::At(problem, position) => ScanError::fixed(position, problem.text()),
        }
    }
}

impl From<AllocError> for Fault {
    ghost use Rattle.std.specs.Prelude.{◌≡◌};
    ghost use Rattle.yaml_tokens.specs.declared.problem.Fault.TheVariants.{OutOfMemory};

    ghost from_gives = { λ _ fault. fault ≡ OutOfMemory };

    fn from(_: AllocError) -> Fault {
        Fault::OutOfMemory
    }
}
