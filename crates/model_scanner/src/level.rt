/// The state of an entry of a flow collection: whether it is, or may become, a single-pair mapping.
#[derive(Clone, Copy, PartialEq, Eq)]
pub enum FlowLevel {
    /// A flow mapping: its pairs need none.
    Mapping,
    /// An entry of a flow sequence that may turn out to be a pair.
    Entry,
    /// An entry of a flow sequence that began with `?`.
    Keyed,
    /// An entry of a flow sequence that is a pair.
    Pair,
}

/// A level of indentation: the one before it, and whether its end is a token. Columns count
/// from 1 here, and 0 is outside all collections.
#[derive(Clone, Copy)]
pub struct Indent {
    /// The column of the level before it.
    pub indent: usize,
    /// Whether the end of this level is a token.
    pub needs_block_end: bool,
}
