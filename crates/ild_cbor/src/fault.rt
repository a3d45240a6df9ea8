//! Why bytes are no block, and where.
ghost use Rattle.std.specs.Prelude.{◌≡◌, ◌≤◌, length};
ghost use Rattle.ild_cbor.specs.Reading.{stop_at, too_short, placed};

/// What is wrong at a place of a block (DAG-CBOR, "Strictness", over RFC 8949).
#[derive(Clone, Copy, Debug, PartialEq, Eq)]
pub enum CborKind {
    /// The input ends inside an item.
    Short,
    /// Bytes follow the item.
    Rest,
    /// A head has a shorter form, or is reserved or of indefinite length.
    Head,
    /// A key is no text.
    KeyKind,
    /// A key is not greater than the one before it.
    KeyOrder,
    /// A tag other than 42.
    Tag,
    /// What a link holds is not a byte 00 and a CID in a byte string.
    Link,
    /// A text is not UTF-8.
    Utf8,
    /// A float.
    Float,
    /// A simple value other than false, true and null.
    Simple,
    /// An integer below -2^63.
    Range,
    /// A container inside 96 others.
    Depth,
    /// The input is longer than 4 MiB.
    Size,
}

/// The first fault of a block, from the left, and its offset.
#[derive(Clone, Copy, Debug, PartialEq, Eq)]
pub struct CborFault {
    pub kind: CborKind,
    pub at: usize,
}

/// A fault that is met with this many bytes left of the input.
#[derive(Clone, Copy)]
pub(crate) struct Stop {
    pub(crate) kind: CborKind,
    pub(crate) left: usize,
}

/// A fault at the first of these bytes.
pub(crate) fn stop_before(kind: CborKind, left: &[u8]) -> Stop
    ensures { result ≡ stop_at kind left.now }
{
    Stop {
        kind,
        left: left.len(),
    }
}

/// The input ends too early.
pub(crate) fn stop_short() -> Stop
    ensures { result ≡ too_short }
{
    Stop {
        kind: CborKind::Short,
        left: 0,
    }
}
