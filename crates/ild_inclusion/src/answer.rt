//! What a proof says.
use ild_data::{Octets, Tree};

/// What a proof says of a path.
#[derive(Drop)]
pub enum Answer {
    /// It leads to a part whose representation is spelled so; of a HAMT its root map alone.
    Here(Octets),
    /// It leads nowhere from the segment with this number on.
    Absent(usize),
}

/// The same, with the representation as a tree.
#[derive(Drop)]
pub enum Part {
    /// It leads to a part with this representation; of a HAMT its root map alone.
    Here(Tree),
    /// It leads nowhere from the segment with this number on.
    Absent(usize),
}
