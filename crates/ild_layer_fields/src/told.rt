//! Values of which a kind tells that they are those of their fields.
ghost use Rattle.std.specs.Prelude.{◌≡◌, ◌<◌, ℕ, List, length, true};
ghost use Rattle.ild_cbor.specs.Nodes.{HasData};
ghost use Rattle.ild_cbor.specs.Scalar.{kind_of};
ghost use Rattle.ild_data.specs.Data.{Data};
ghost use Rattle.ild_layer_fields.specs.Told.{IsTold, IsToldAt, scalar_kind};

use crate::fields::Fields;
use ild_cbor::{Kind, Node};
use ild_schema::{Accepted, TypeDef, TypeNo};

// The kind of all data of a type, and of no others.
fn scalar_kind(def: &TypeDef) -> Option<Kind>
    ensures { result ≡ scalar_kind def.now }
{
    match def {
        TypeDef::Bool => Some(Kind::Bool),
        TypeDef::Text => Some(Kind::Text),
        TypeDef::Bytes => Some(Kind::Bytes),
        TypeDef::Int => Some(Kind::Int),
        TypeDef::Link(_) => Some(Kind::Link),
        _ => None,
    }
}

// Whether data of a kind are told to be those of a type.
fn is_told(acc: &Accepted, ty: TypeNo, kind: Kind) -> bool
    ensures { result ≡ true → (d : Data) → kind_of d ≡ kind → IsTold acc.now ty.0 d }
{
    if ty.0 >= acc.types() {
        return false;
    }
    match scalar_kind(acc.def(acc.base(ty))) {
        Some(wanted) => wanted == kind,
        None => false,
    }
}

/// Whether a value is told to be that of the field at a place.
pub(crate) fn is_told_at(fields: &Fields<'_>, place: usize, value: &Node<'_>) -> bool
    ensures { result ≡ true → (d : Data) → HasData value.now d → IsToldAt fields.now.acc.now fields.now.def.now.fields (place, d) }
{
    match fields.def.fields.as_slice().get(place) {
        Some(field) => is_told(fields.acc, field.slot.ty, value.kind()),
        None => false,
    }
}
