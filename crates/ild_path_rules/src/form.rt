//! What a view holds parts as.
ghost use Rattle.std.specs.Prelude.{◌≡◌, length};
ghost use Rattle.ild_path_rules.specs.Form.{IsForm, KeyWithin, map_form};
ghost use Rattle.ild_data.specs.Data.{Data};
ghost use Rattle.ild_schema.specs.Value.{Value};
ghost use Rattle.ild_typed.specs.At.{seen};
ghost use Rattle.ild_typed.specs.Holder.{any_holder};
ghost use Rattle.ild_view.specs.Body.{BodyStands};
ghost use Rattle.ild_view.specs.View.{IsView, body_of, slot_of, table_of};

use crate::named::def_of;
use ild_cbor::Kind;
use ild_layer_piece::kind;
use ild_schema::{MapForm, Slot, StructDef, TypeDef, TypeNo, UnionDef};
use ild_view::View;

/// Any value, or null.
const ANYTHING: Slot = Slot {
    ty: TypeNo(0),
    nullable: true,
};

/// What a view holds parts as.
#[derive(Clone, Copy)]
pub(crate) enum Form<'b> {
    /// As the fields of a struct.
    Fields(&'b StructDef),
    /// As the member of a union.
    Member(&'b UnionDef),
    /// As entries, with the type of their keys, but for a map inside an Any, and the slot of their values.
    Entries(Option<TypeNo>, Slot),
    /// As elements, with their slot.
    Elements(Slot),
    /// It holds none that the block shows.
    Nothing,
}

// Of a map.
fn map_form<'b>(key: TypeNo, value: Slot, form: &MapForm) -> Form<'b>
    ensures { result ≡ map_form key value form.now }
{
    match form {
        MapForm::Hamt(_) => Form::Nothing,
        MapForm::Map => Form::Entries(Some(key), value),
        MapForm::ListPairs => Form::Entries(Some(key), value),
        MapForm::StringPairs(_, _) => Form::Entries(Some(key), value),
    }
}

// Of data inside an Any.
fn any_form<'b>(view: &View<'b>) -> Form<'b>
    ensures is { (t : Data) → BodyStands (table_of view.now) (body_of view.now) t → IsForm (table_of view.now) (slot_of view.now) result (any_holder t) }
    ensures within { KeyWithin (length (table_of view.now)) result }
{
    match view.piece() {
        Some(piece) => match kind(&piece) {
            Kind::Map => Form::Entries(None, ANYTHING),
            Kind::List => Form::Elements(ANYTHING),
            _ => Form::Nothing,
        },
        None => Form::Nothing,
    }
}

/// What a view holds parts as. Null, scalars, links, enums and units hold none, nor does the root of a HAMT.
pub(crate) fn form_of_view<'b>(view: &View<'b>) -> Form<'b>
    ensures is { (f : Value) → IsView view.now f → IsForm (table_of view.now) (slot_of view.now) result (seen (table_of view.now) (slot_of view.now, f)) }
    ensures within { KeyWithin (length (table_of view.now)) result }
{
    if view.is_null() {
        return Form::Nothing;
    }
    match def_of(view) {
        TypeDef::List { elem, .. } => Form::Elements(*elem),
        TypeDef::Map {
            key,
            value,
            form,
            ..
        } => map_form(*key, *value, form),
        TypeDef::Struct(def) => Form::Fields(def),
        TypeDef::Union(def) => Form::Member(def),
        TypeDef::Any => any_form(view),
        _ => Form::Nothing,
    }
}
