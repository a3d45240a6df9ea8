//! Where the fields of a struct are looked up.
use ild_cbor::{Items, Node, Piece};
use ild_text::{JoinParts, PairParts};

/// Where the fields are looked up, by the form of the struct.
#[derive(Clone, Copy)]
pub(crate) enum Source<'b> {
    /// By the keys of a map.
    Map(Piece<'b>),
    /// By the places of a list.
    Tuple(Node<'b>),
    /// By the names in the pairs of a list.
    ListPairs(Items<'b>),
    /// By the names in the pairs of a text.
    StringPairs(PairParts<'b>),
    /// By the places of a text's parts.
    StringJoin(JoinParts<'b>),
}
