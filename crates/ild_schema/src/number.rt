//! Numbers of types, and the places that a value of a type may fill.

/// The number of a type in the table of its schema.
#[derive(Clone, Copy, Debug, PartialEq, Eq)]
pub struct TypeNo(pub u32);

/// What a field, an element or a map's value may hold: a value of a type and, where it is nullable, null.
#[derive(Clone, Copy)]
pub struct Slot {
    pub ty: TypeNo,
    pub nullable: bool,
}
