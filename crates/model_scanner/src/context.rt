/// What surrounds a flow scalar: whether it stands inside a flow collection, and the column of the innermost block
/// collection, counted from 1, or 0 if none is open.
#[derive(Clone, Copy)]
pub struct Context {
    /// Whether it stands inside a flow collection.
    pub flow: bool,
    /// The column of the innermost block collection, counted from 1, or 0 if none is open.
    pub indent: usize,
}

/// Whether TABs are stepped over as spaces are.
#[derive(Clone, Copy, PartialEq, Eq)]
pub enum SkipTabs {
    /// TABs are stepped over.
    Yes,
    /// TABs stay.
    No,
}

/// What was stepped over before a token: whether TABs, and whether spaces.
#[derive(Clone, Copy, PartialEq, Eq)]
pub struct Whitespace {
    /// Whether a TAB was among them.
    pub found_tabs: bool,
    /// Whether a space was among them.
    pub has_valid_yaml_ws: bool,
}
