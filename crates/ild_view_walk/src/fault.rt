//! Why data have no view.
use ild_cbor::Why;
use ild_schema::TypeNo;

/// Why data are no value of a slot, or aren't checked.
#[derive(Clone, Copy, Debug, PartialEq, Eq)]
pub enum ViewErr {
    /// A piece is refused: the type at that piece, the cause, and the offset of the item in which it stands.
    Shape { ty: TypeNo, why: Why, at: usize },
    /// Memory is wanting.
    Memory,
}
