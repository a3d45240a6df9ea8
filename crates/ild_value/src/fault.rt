//! Why a tree means no value.
ghost use Rattle.std.specs.Prelude.{◌≡◌};

use ild_schema::TypeNo;
use std::alloc::AllocError;

/// The rule that a part of a tree breaks at a type.
#[derive(Clone, Copy, Debug, PartialEq, Eq)]
pub enum ShownRule {
    /// Data of a kind that is never shown of the type, or null where it isn't allowed.
    Kind,
    /// A key that is the name of no field; of a unit, any key.
    Name,
    /// A field that is neither optional nor implicit isn't there.
    Missing,
    /// A text that names no member of an enum; not one entry under the name of a member of a union.
    Member,
    /// A key of a map that isn't a text of the key type.
    Key,
}

/// Why a tree means no value of a slot.
#[derive(Clone, Copy, Debug, PartialEq, Eq)]
pub enum ShownErr {
    /// A part of the tree breaks this rule at this type.
    Mismatch { ty: TypeNo, rule: ShownRule },
    /// There is no memory for the value.
    Memory,
}

impl From<AllocError> for ShownErr {
    ghost use Rattle.ild_value.specs.declared.fault.ShownErr.TheVariants.{Memory};

    ghost from_gives = { λ _ e. e ≡ Memory };

    fn from(_refused: AllocError) -> ShownErr {
        ShownErr::Memory
    }
}
