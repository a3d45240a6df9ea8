//! What leads from an item to that of a part.

/// What leads from the item of a holder to that of its part.
#[derive(Clone, Copy, Debug, PartialEq, Eq)]
pub enum PartSteps<'a> {
    /// The part has no item of its own: a change of it replaces the holder.
    Whole,
    /// The part's item is that of the holder.
    Same,
    /// The item of a list at a place.
    Item(u64),
    /// The value of a map at a key.
    Entry(&'a str),
    /// The value of the pair at a place, in a list of pairs.
    Pair(u64),
    /// The map without the entry at a key, which is the discriminant's: a change of that entry, or of the map as a whole,
    /// replaces the holder.
    Beside(&'a str),
}
