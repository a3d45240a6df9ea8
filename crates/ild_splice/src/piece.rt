//! What a changed block is made of.

/// The head of the item that is changed.
#[derive(Clone, Copy)]
pub(crate) enum NewHead {
    /// None: the whole item is exchanged.
    Same,
    /// That of a list of so many items.
    List(u64),
    /// That of a map of so many entries.
    Map(u64),
}

/// What stands in front of a new part.
#[derive(Clone, Copy)]
pub(crate) enum Lead<'k> {
    /// Nothing.
    Nothing,
    /// The key of a new entry.
    Key(&'k str),
    /// The head of a pair, and its key.
    Pair(&'k str),
}

/// The pieces of a changed block, in order.
#[derive(Clone, Copy)]
pub(crate) struct Pieces<'b, 'k, 'n> {
    /// What stands in the block in front of the item.
    pub(crate) front: &'b [u8],
    pub(crate) head: NewHead,
    /// The parts of the item before the change.
    pub(crate) before: &'b [u8],
    pub(crate) lead: Lead<'k>,
    /// The spelling of a new part.
    pub(crate) new: &'n [u8],
    /// The parts of the item behind the change.
    pub(crate) after: &'b [u8],
    /// What stands in the block behind the item.
    pub(crate) behind: &'b [u8],
}
