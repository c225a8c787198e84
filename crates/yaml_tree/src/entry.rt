//! A place with its digest, and where it stands.

/// A place, beside a digest by which entries are told apart without a look at what stands at the place.
#[derive(Clone, Copy)]
pub struct Entry {
    /// The digest of the pair's key.
    pub digest: u64,
    /// The place of the pair in its hash.
    pub place: usize,
}

/// A block, and how many of its entries stand before.
#[derive(Clone, Copy)]
pub struct Spot {
    /// The number of the block.
    pub block: usize,
    /// The place in the block.
    pub offset: usize,
}
