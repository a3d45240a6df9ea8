//! Why a text isn't split.

/// Two occurrences of the delimiter overlap, or else the text hasn't the parts that it must have.
#[derive(Clone, Copy, Debug, PartialEq, Eq)]
pub enum Split {
    Delimiter,
    Parts,
}
