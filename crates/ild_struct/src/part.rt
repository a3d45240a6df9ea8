//! What stands for a field.
use ild_cbor::{Node, Piece};

/// What stands in a block for a field of a struct.
#[derive(Clone, Copy)]
pub enum Part<'b> {
    /// Nothing: the field is absent.
    Absent,
    /// Nothing: the field has its implicit value, which is left out.
    Implicit,
    /// Null, where it stands.
    Null(Node<'b>),
    /// A piece that is neither null nor the implicit value.
    Held(Piece<'b>),
}
