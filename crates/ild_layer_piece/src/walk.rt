//! The entries of a map that is a piece, in order.
use ild_cbor::Pairs;

/// An iterator over the keys and values of a map, which walks the map once and passes over the entry of a discriminant.
#[derive(Clone, Copy)]
pub struct MapEntries<'b> {
    pub(crate) pairs: Pairs<'b>,
    pub(crate) passed: Option<&'b str>,
}
