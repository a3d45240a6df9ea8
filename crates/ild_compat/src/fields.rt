//! What is asked of the fields of two structs. A field is matched with the one of its name.
ghost use Rattle.std.specs.Prelude.{◌≡◌, ◌<◌, IfSome, None, Some, length, option_and_then, option_map, true};
ghost use Rattle.std.specs.List.{list_all};
ghost use Rattle.ild_schema.specs.Table.{IsWithin, def_at};
ghost use Rattle.ild_schema.specs.declared.def.TypeDef.TheVariants as D;
ghost use Rattle.ild_compat.specs.Fields.{field_named, field_place, has_field, has_implicit, is_place, keep_order, may_be_new, may_stay_out, rise_from, stand_from};
ghost use Rattle.ild_compat.specs.Same.{struct_of};
ghost use Rattle.ild_compat.specs.Table.{agree, extras_agree, fields_agree, implicits_agree, optionals_agree};

use crate::same::is_same_implicit;
use ild_schema::{Accepted, Field, StructDef, StructForm, TypeDef, TypeNo, text_of_field};

/// The struct that a type is, if it is one.
pub(crate) fn struct_at<'s>(schema: &'s Accepted, ty: TypeNo) -> Option<&'s StructDef>
    requires { ty.0 < length schema.now }
    ensures same { option_map (λ s. s.now) result ≡ option_and_then struct_of (def_at schema.now ty.0) }
    ensures is { IfSome result (λ s. def_at schema.now ty.0 ≡ Some (D.Struct s.now)) }
{
    match schema.def(ty) {
        TypeDef::Struct(s) => Some(s),
        _ => None,
    }
}

/// The place of the field that has a name.
fn field_place(schema: &Accepted, ty: TypeNo, def: &StructDef, name: &str) -> Option<usize>
    requires within { ty.0 < length schema.now }
    requires def { def_at schema.now ty.0 ≡ Some (D.Struct def.now) }
    ensures same { result ≡ field_place name.now def.now.fields }
    ensures within { IfSome result (λ i. i < length def.now.fields) }
{
    schema.part_named(ty, name)
}

/// The field that has a name.
pub(crate) fn field_named<'s>(
    schema: &Accepted,
    ty: TypeNo,
    def: &'s StructDef,
    name: &str,
) -> Option<&'s Field>
    requires within { ty.0 < length schema.now }
    requires def { def_at schema.now ty.0 ≡ Some (D.Struct def.now) }
    ensures { option_map (λ f. f.now) result ≡ field_named name.now def.now.fields }
{
    match field_place(schema, ty, def, name) {
        Some(part) => def.fields.get(part),
        None => None,
    }
}

/// Whether a struct has a field of this name, under the same text in a block.
fn has_field(schema: &Accepted, ty: TypeNo, def: &StructDef, field: &Field) -> bool
    requires within { ty.0 < length schema.now }
    requires def { def_at schema.now ty.0 ≡ Some (D.Struct def.now) }
    ensures { result ≡ has_field def.now.fields field.now }
{
    match field_named(schema, ty, def, field.name.as_str()) {
        Some(other) => text_of_field(field) == text_of_field(other),
        None => false,
    }
}

fn is_place(place: usize, found: Option<usize>) -> bool
    ensures { result ≡ is_place place found }
{
    match found {
        Some(other) => place == other,
        None => false,
    }
}

/// Whether fields stand in a struct one after another, from its first place on.
fn stand_first(schema: &Accepted, ty: TypeNo, def: &StructDef, fields: &[Field]) -> bool
    requires within { ty.0 < length schema.now }
    requires def { def_at schema.now ty.0 ≡ Some (D.Struct def.now) }
    ensures { result ≡ stand_from def.now.fields 0 fields.now }
{
    for (place, field) in fields.iter().enumerate() {
        if !is_place(place, field_place(schema, ty, def, field.name.as_str())) {
            return false;
        }
    }
    true
}

/// Whether fields stand in a struct in their order.
fn rise(schema: &Accepted, ty: TypeNo, def: &StructDef, fields: &[Field]) -> bool
    requires within { ty.0 < length schema.now }
    requires def { def_at schema.now ty.0 ≡ Some (D.Struct def.now) }
    ensures { result ≡ rise_from def.now.fields 0 fields.now }
{
    let _count = def.fields.len();
    let mut least = 0;
    for field in fields {
        let Some(place) = field_place(schema, ty, def, field.name.as_str()) else {
            return false;
        };
        if place < least {
            return false;
        }
        least = place + 1;
    }
    true
}

/// Whether fields stand in a struct in an order that a block doesn't tell from theirs.
fn keep_order(
    schema: &Accepted,
    ty: TypeNo,
    def: &StructDef,
    form: &StructForm,
    fields: &[Field],
) -> bool
    requires within { ty.0 < length schema.now }
    requires def { def_at schema.now ty.0 ≡ Some (D.Struct def.now) }
    ensures { result ≡ keep_order form.now fields.now def.now.fields }
{
    match form {
        StructForm::Map => true,
        StructForm::Tuple => stand_first(schema, ty, def, fields),
        StructForm::ListPairs => rise(schema, ty, def, fields),
        StructForm::StringPairs(_, _) => rise(schema, ty, def, fields),
        StructForm::StringJoin(_) => stand_first(schema, ty, def, fields)
            && fields.len() == def.fields.len(),
    }
}

/// Whether each field is one of a struct, under the same text in a block.
fn has_fields(schema: &Accepted, ty: TypeNo, def: &StructDef, fields: &[Field]) -> bool
    requires within { ty.0 < length schema.now }
    requires def { def_at schema.now ty.0 ≡ Some (D.Struct def.now) }
    ensures { result ≡ list_all (λ f. has_field def.now.fields f) fields.now }
{
    fields.iter().all(|field| has_field(schema, ty, def, field))
}

/// Whether each field of a struct is one of another.
fn are_fields(schema: &Accepted, ty: TypeNo, other: &StructDef, def: &StructDef) -> bool
    requires within { ty.0 < length schema.now }
    requires def { def_at schema.now ty.0 ≡ Some (D.Struct other.now) }
    ensures { result ≡ fields_agree def.now other.now }
{
    let fields = def.fields.as_slice();
    has_fields(schema, ty, other, fields) && keep_order(schema, ty, other, &def.form, fields)
}

/// Whether a field that may be left out may be left out there.
fn may_stay_out(schema: &Accepted, ty: TypeNo, def: &StructDef, field: &Field) -> bool
    requires within { ty.0 < length schema.now }
    requires def { def_at schema.now ty.0 ≡ Some (D.Struct def.now) }
    ensures { result ≡ may_stay_out def.now.fields field.now }
{
    match field_named(schema, ty, def, field.name.as_str()) {
        Some(other) => !field.optional || other.optional,
        None => true,
    }
}

/// Whether the same value stands for a field there where it is left out, or none does.
fn has_implicit(schema: &Accepted, ty: TypeNo, def: &StructDef, field: &Field) -> bool
    requires within { ty.0 < length schema.now }
    requires def { def_at schema.now ty.0 ≡ Some (D.Struct def.now) }
    ensures { result ≡ has_implicit def.now.fields field.now }
{
    match field_named(schema, ty, def, field.name.as_str()) {
        Some(other) => is_same_implicit(&field.implicit, &other.implicit),
        None => true,
    }
}

/// Whether a field is one of a struct, or may be left out.
fn may_be_new(schema: &Accepted, ty: TypeNo, def: &StructDef, field: &Field) -> bool
    requires within { ty.0 < length schema.now }
    requires def { def_at schema.now ty.0 ≡ Some (D.Struct def.now) }
    ensures { result ≡ may_be_new def.now.fields field.now }
{
    field_place(schema, ty, def, field.name.as_str()).is_some() || field.optional
}

/// Whether each field of a struct that may be left out may be left out of another.
fn are_optional(schema: &Accepted, ty: TypeNo, other: &StructDef, def: &StructDef) -> bool
    requires within { ty.0 < length schema.now }
    requires def { def_at schema.now ty.0 ≡ Some (D.Struct other.now) }
    ensures { result ≡ optionals_agree def.now other.now }
{
    def.fields
        .as_slice()
        .iter()
        .all(|field| may_stay_out(schema, ty, other, field))
}

/// Whether the same values stand for the fields of a struct in another, where they are left out.
fn are_implicit(schema: &Accepted, ty: TypeNo, other: &StructDef, def: &StructDef) -> bool
    requires within { ty.0 < length schema.now }
    requires def { def_at schema.now ty.0 ≡ Some (D.Struct other.now) }
    ensures { result ≡ implicits_agree def.now other.now }
{
    def.fields
        .as_slice()
        .iter()
        .all(|field| has_implicit(schema, ty, other, field))
}

/// Whether each field of a struct is one of another, or may be left out.
fn are_extras(schema: &Accepted, ty: TypeNo, def: &StructDef, other: &StructDef) -> bool
    requires within { ty.0 < length schema.now }
    requires def { def_at schema.now ty.0 ≡ Some (D.Struct def.now) }
    ensures { result ≡ extras_agree def.now other.now }
{
    other
        .fields
        .as_slice()
        .iter()
        .all(|field| may_be_new(schema, ty, def, field))
}

/// Of two structs, whether each field of the first is one of the other.
pub(crate) fn fields_agree(first: &Accepted, x: TypeNo, next: &Accepted, y: TypeNo) -> bool
    requires first { x.0 < length first.now }
    requires next { y.0 < length next.now }
    ensures { result ≡ agree fields_agree (option_and_then struct_of (def_at first.now x.0)) (option_and_then struct_of (def_at next.now y.0)) }
{
    match (struct_at(first, x), struct_at(next, y)) {
        (Some(s), Some(t)) => are_fields(next, y, t, s),
        _ => true,
    }
}

/// Of two structs, whether each field that may be left out of the first may be left out of the other.
pub(crate) fn optionals_agree(first: &Accepted, x: TypeNo, next: &Accepted, y: TypeNo) -> bool
    requires first { x.0 < length first.now }
    requires next { y.0 < length next.now }
    ensures { result ≡ agree optionals_agree (option_and_then struct_of (def_at first.now x.0)) (option_and_then struct_of (def_at next.now y.0)) }
{
    match (struct_at(first, x), struct_at(next, y)) {
        (Some(s), Some(t)) => are_optional(next, y, t, s),
        _ => true,
    }
}

/// Of two structs, whether the same values stand for the fields of the first in the other, where they are left out.
pub(crate) fn implicits_agree(first: &Accepted, x: TypeNo, next: &Accepted, y: TypeNo) -> bool
    requires first { x.0 < length first.now }
    requires next { y.0 < length next.now }
    ensures { result ≡ agree implicits_agree (option_and_then struct_of (def_at first.now x.0)) (option_and_then struct_of (def_at next.now y.0)) }
{
    match (struct_at(first, x), struct_at(next, y)) {
        (Some(s), Some(t)) => are_implicit(next, y, t, s),
        _ => true,
    }
}

/// Of two structs, whether each field of the other alone may be left out.
pub(crate) fn extras_agree(first: &Accepted, x: TypeNo, next: &Accepted, y: TypeNo) -> bool
    requires first { x.0 < length first.now }
    requires next { y.0 < length next.now }
    ensures { result ≡ agree extras_agree (option_and_then struct_of (def_at first.now x.0)) (option_and_then struct_of (def_at next.now y.0)) }
{
    match (struct_at(first, x), struct_at(next, y)) {
        (Some(s), Some(t)) => are_extras(first, x, s, t),
        _ => true,
    }
}
