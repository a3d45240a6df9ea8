//! Why data are refused as a value of a type, and why a block is.
use crate::fault::CborFault;

/// Why a piece of a block doesn't represent a value of a type. Where several hold, the first in this order is told; of the
/// root of a HAMT, `Trie` is told last.
#[derive(Clone, Copy, Debug, PartialEq, Eq)]
pub enum Why {
    /// The piece, or in pairs of a list a pair or its name, has a kind that the form doesn't take.
    Kind,
    /// A name that is no field's, or a key that is none of an envelope's two.
    Name,
    /// A field, or a key of an envelope or of an inline union, isn't there.
    Missing,
    /// A list or a map has the wrong number of parts.
    Count,
    /// The pairs of a struct don't stand in the order of declaration.
    Order,
    /// A key or a name stands twice.
    Repeat,
    /// An implicit value is written out.
    Implicit,
    /// A text has no split at its delimiters.
    Delimiter,
    /// No member's prefix begins the text or the bytes.
    Prefix,
    /// A discriminant, an enum's value, a key or a truth value is none of the type's.
    Member,
    /// The value nests deeper than there is room.
    Depth,
    /// A HAMT's root, node or bucket hasn't its form.
    Trie,
    /// The hash of a HAMT's root is another integer than sha2-256.
    HashAlg,
    /// The bucket size of a HAMT's root is another integer than that of its shape.
    BucketSize,
}

/// Why a block under an id is refused.
#[derive(Clone, Copy, Debug, PartialEq, Eq)]
pub enum BlockWhy {
    /// It isn't held.
    Missing,
    /// It is no spelling of a tree within the limits.
    Cbor(CborFault),
    /// It isn't what the type asks for there.
    Shape(Why),
}
