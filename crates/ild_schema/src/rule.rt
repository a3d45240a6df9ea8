//! The rules of accepted schemas.

/// A rule under which the blocks of a schema can be read in one way alone.
#[derive(Clone, Copy, Debug, PartialEq, Eq)]
pub enum Rule {
    /// No type is represented as itself.
    Cycle,
    /// What may be null has no other value that stands as null.
    NullClash,
    /// The members of a union of kinds have each a kind of their own.
    KindClash,
    /// No prefix of a union begins another.
    PrefixClash,
    /// Delimiters part what they stand between.
    Delim,
    /// The parts of a text are texts.
    NotText,
    /// What may be left out stands where its absence shows.
    OptionalPlace,
    /// A value that stands for a field left out is one of the field's type.
    Implicit,
    /// Names and values that are told apart by their texts differ.
    NameClash,
    /// The members of an inline union are structs that stand as maps.
    InlineMember,
    /// The keys of a map are texts.
    MapKey,
    /// Each part has what its representation asks for, and nothing that it has no place for.
    Strategy,
}
