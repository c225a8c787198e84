/// What a token is, without its texts.
#[derive(Clone, Copy, Debug, PartialEq, Eq)]
pub enum Kind {
    /// The start of the stream.
    StreamStart,
    /// The end of the stream.
    StreamEnd,
    /// A `%YAML` directive.
    VersionDirective,
    /// A `%TAG` directive.
    TagDirective,
    /// The marker `---`.
    DocumentStart,
    /// The marker `...`.
    DocumentEnd,
    /// The start of a block sequence, at its first `-`.
    BlockSequenceStart,
    /// The start of a block mapping.
    BlockMappingStart,
    /// The end of a block collection, where the indentation ends.
    BlockEnd,
    /// The indicator `[`.
    FlowSequenceStart,
    /// The indicator `]`.
    FlowSequenceEnd,
    /// The indicator `{`.
    FlowMappingStart,
    /// The indicator `}`.
    FlowMappingEnd,
    /// The indicator `-`.
    BlockEntry,
    /// The indicator `,`.
    FlowEntry,
    /// The start of a key, at its `?` or before an implicit key.
    Key,
    /// The indicator `:`.
    Value,
    /// An alias, as `*a`.
    Alias,
    /// An anchor, as `&a`.
    Anchor,
    /// A tag, as `!a`.
    Tag,
    /// A scalar of any style.
    Scalar,
}
