//! What is left of the entries of a map.
use ild_cbor::Items;
use ild_layer_piece::MapEntries;
use ild_text::PairParts;

/// The entries of a map that are left, by the form in which they stand.
#[derive(Clone, Copy)]
pub enum EntriesLeft<'b> {
    /// The entries of a map.
    Map(MapEntries<'b>),
    /// The pairs of a list.
    ListPairs(Items<'b>),
    /// The pairs of a text.
    StringPairs(PairParts<'b>),
}
