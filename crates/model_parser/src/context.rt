/// Where a node stands, and so which contents it may have.
#[derive(Clone, Copy, Debug, PartialEq, Eq)]
pub enum NodeContext {
    /// In a flow collection.
    Flow,
    /// Outside: block collections too.
    Block,
    /// A key or a value of a block mapping: sequences without indentation too.
    Pair,
}
