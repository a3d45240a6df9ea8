//! What a piece in a slot is opened as.
use crate::parts::Parts;
use ild_cbor::{Items, Node, Piece};
use ild_layer_fields::Fields;
use ild_layer_piece::MapEntries;
use ild_schema::Slot;

/// What the type of a slot says of a piece in it.
#[derive(Clone, Copy)]
pub(crate) enum Opened<'b> {
    /// No block stands beneath it.
    Nothing,
    /// The parts of a list, of a map or of a tuple.
    Parts(Parts<'b>),
    /// The fields of a struct, under their names among the entries of a map.
    Named(Fields<'b>, MapEntries<'b>),
    /// The fields of a struct, under their names in the pairs of a list.
    Listed(Fields<'b>, Items<'b>),
    /// The member of a union, in its own slot.
    Member(Slot, Piece<'b>),
    /// The root node of a HAMT, and the slot of its values.
    Root(Slot, Node<'b>),
}
