//! What stands for a value of a type inside a block, or inside a text or bytes of it.
use crate::node::Node;

/// A piece of a block that represents a value of a type (IPLD Schemas, "Representation Strategies").
#[derive(Clone, Copy)]
pub enum Piece<'b> {
    /// An item.
    Node(Node<'b>),
    /// A part of a text.
    Text(&'b str),
    /// A part of a byte string.
    Bytes(&'b [u8]),
    /// A map in which the entry of a discriminant is passed over: that of the union with this number, whose discriminant
    /// stands inline.
    Inline(Node<'b>, u32),
}
