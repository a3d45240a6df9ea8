//! One change of a list of pairs.

/// A pair of a key and a value, both as texts, is changed at a place.
#[derive(Clone, Copy)]
pub enum PairChange<'a> {
    /// The pair at this place gets a new value, and keeps its key. Where there is none, nothing changes.
    Set {
        place: usize,
        new: &'a str,
    },
    /// A pair comes before the one at this place, or behind the last where there is none.
    Insert {
        place: usize,
        key: &'a str,
        new: &'a str,
    },
    /// The pair at this place goes. Where there is none, nothing changes.
    Delete {
        place: usize,
    },
}
