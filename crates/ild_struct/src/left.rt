//! What is left of a struct's parts.
use ild_cbor::Items;
use ild_layer_piece::MapEntries;
use ild_text::{JoinParts, PairParts};

/// The parts that are left, by the form of the struct.
#[derive(Clone, Copy)]
pub(crate) enum Left<'b> {
    /// The entries of a map, and where in the key order the name of the next is guessed.
    Map(MapEntries<'b>, usize),
    /// The items of a list.
    Tuple(Items<'b>),
    /// The pairs of a list.
    ListPairs(Items<'b>),
    /// The pairs of a text.
    StringPairs(PairParts<'b>),
    /// The parts of a text, where any are left.
    StringJoin(Option<JoinParts<'b>>),
}
