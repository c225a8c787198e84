use yaml_chars::Marker;

/// What the parser awaits below what it reads now.
#[derive(Clone, Copy, Debug, PartialEq, Eq)]
pub enum State {
    /// Before the stream's start.
    Stream,
    /// After the stream's start or `...`: a document may do without `---`.
    Documents,
    /// After a document without `...`.
    ExplicitDocument,
    /// After `---`.
    DocumentContent,
    /// After a document's node.
    DocumentEnd,
    /// The node of a document without `---`.
    BlockNode,
    /// In a block sequence, before a `-` or its end.
    BlockSequenceEntries,
    /// In a sequence without indentation, before a `-`, or what ends it.
    IndentlessSequenceEntries,
    /// After a `-` of a sequence without indentation.
    IndentlessSequenceItem,
    /// In a block mapping, before a key or its end.
    BlockMappingEntries,
    /// After a key without value.
    BlockMappingNextEntries,
    /// After a key.
    BlockMappingValue,
    /// After the `:` of a pair without key.
    PairNode,
    /// After `[`.
    FlowSequenceEntries,
    /// After an entry of a flow sequence.
    FlowSequenceComma,
    /// After the `?` of a single-pair mapping in a flow sequence.
    FlowPairKey,
    /// After the key of such a mapping.
    FlowValue,
    /// After the value of such a mapping.
    FlowPairEnd,
    /// After `{`.
    FlowMappingEntries,
    /// After a pair of a flow mapping.
    FlowMappingComma,
    /// After a key.
    FlowMappingValue,
    /// After the `:` of a pair without key, which stands here.
    FlowMappingValued(Marker),
    /// After a node that is a key without value.
    NoFlowMappingValue,
}
