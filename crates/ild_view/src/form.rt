//! The form of a view's type.
ghost use Rattle.std.specs.Prelude.{◌≡◌, List, Some, length, option_map};
ghost use Rattle.ild_data.specs.Data.{Data};
ghost use Rattle.ild_schema.specs.Slots.{form_of};
ghost use Rattle.ild_schema.specs.Table.{IsWithin};
ghost use Rattle.ild_schema.specs.declared.row.Row.{Row};
ghost use Rattle.ild_typed.specs.Pieces.{is_null_there};
ghost use Rattle.ild_view.specs.Body.{BodyStands};
ghost use Rattle.ild_view.specs.Forms.{element_slot, enum_in, shape_in, struct_in, union_in};
ghost use Rattle.ild_view.specs.Itself.{is_plain};

use crate::view::View;
use ild_data::HamtShape;
use ild_schema::{EnumDef, MapForm, Slot, StructDef, TypeDef, TypeNo, UnionDef};

/// Any value, or null.
pub(crate) const ANYTHING: Slot = Slot {
    ty: TypeNo(0),
    nullable: true,
};

/// Whether values of a type are data by themselves.
pub(crate) fn is_plain(def: &TypeDef) -> bool
    ensures { result ≡ is_plain def.now }
{
    match def {
        TypeDef::Bool
        | TypeDef::Text
        | TypeDef::Bytes
        | TypeDef::Int
        | TypeDef::Any
        | TypeDef::Link(_) => true,
        TypeDef::Unit(_)
        | TypeDef::List { .. }
        | TypeDef::Map { .. }
        | TypeDef::Struct(_)
        | TypeDef::Union(_)
        | TypeDef::Enum(_)
        | TypeDef::Copy(_) => false,
    }
}

/// The slot of the elements of a list, or of a list inside an Any.
pub(crate) fn element_slot(def: &TypeDef) -> Option<Slot>
    ensures { result ≡ element_slot def.now }
{
    match def {
        TypeDef::List { elem, .. } => Some(*elem),
        TypeDef::Any => Some(ANYTHING),
        _ => None,
    }
}

/// The struct that a type is.
pub(crate) fn struct_in(def: &TypeDef) -> Option<&StructDef>
    ensures { option_map (λ s. s.now) result ≡ struct_in def.now }
{
    match def {
        TypeDef::Struct(def) => Some(def),
        _ => None,
    }
}

/// The union that a type is.
pub(crate) fn union_in(def: &TypeDef) -> Option<&UnionDef>
    ensures { option_map (λ u. u.now) result ≡ union_in def.now }
{
    match def {
        TypeDef::Union(def) => Some(def),
        _ => None,
    }
}

/// The enum that a type is.
pub(crate) fn enum_in(def: &TypeDef) -> Option<&EnumDef>
    ensures { option_map (λ e. e.now) result ≡ enum_in def.now }
{
    match def {
        TypeDef::Enum(def) => Some(def),
        _ => None,
    }
}

/// The shape of the HAMT as which a map stands, if a type is one.
pub(crate) fn hamt_shape(def: &TypeDef) -> Option<HamtShape>
    ensures { result ≡ shape_in (Some def.now) }
{
    match def {
        TypeDef::Map { form, .. } => match form {
            MapForm::Hamt(shape) => Some(*shape),
            MapForm::Map | MapForm::ListPairs | MapForm::StringPairs(_, _) => None,
        },
        _ => None,
    }
}

impl<'b> View<'b> {
    ghost use Rattle.ild_view.specs.View.{body_of, slot_of, table_of};

    /// What the schema says of the type, copies followed.
    pub(crate) fn def(&self) -> &'b TypeDef
        ensures same { form_of (table_of self.now) (slot_of self.now) ≡ Some result.now }
        ensures within { IsWithin (length (table_of self.now)) result.now }
    {
        self.acc.def(self.acc.base(self.slot.ty))
    }

    /// Whether null stands there, and may.
    pub(crate) fn is_null_there(&self) -> bool
        ensures { (t : Data) → BodyStands (table_of self.now) (body_of self.now) t → result ≡ is_null_there (slot_of self.now) t }
    {
        self.slot.nullable && self.body.is_null()
    }
}
