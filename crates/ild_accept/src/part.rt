//! The rules that look at each part of a type alone.
ghost use Rattle.std.specs.Prelude.{◌≡◌, ◌&&◌, not, Some};
ghost use Rattle.ild_schema.specs.Places.{first_place};
ghost use Rattle.ild_schema.specs.Rules.{implicit_fault, inline_fault, is_implicit_wrong, is_inline, is_map_struct, is_no_text, is_null_twice, is_of, is_text_map, is_text_struct, is_text_union, key_fault, null_fault, text_fault};
ghost use Rattle.ild_schema.specs.Kinds.{has_text_form, meant};
ghost use Rattle.ild_accept.specs.inside.Held.{HoldsKinds};

use crate::kinds::{has_text_form, kinds_at, meant};
use ild_schema::{
    Field, Kinds, MapForm, Member, Scalar, Schema, Slot, StructDef, StructForm, TypeDef, TypeNo,
    UnionDef, UnionForm,
};

/// Whether what may be null has a value of its type that stands as null too.
fn is_null_twice(schema: &Schema, kinds: &[Kinds], slot: &Slot) -> bool
    requires { HoldsKinds schema.now kinds.now }
    ensures { result ≡ is_null_twice schema.now slot.now }
{
    slot.nullable && kinds_at(schema, kinds, slot.ty).null
}

fn null_field(schema: &Schema, kinds: &[Kinds], def: &StructDef) -> Option<usize>
    requires { HoldsKinds schema.now kinds.now }
    ensures { result ≡ first_place (λ f. is_null_twice schema.now f.slot) (λ f. f.at) def.now.fields }
{
    for field in def.fields.as_slice() {
        if is_null_twice(schema, kinds, &field.slot) {
            return Some(field.at);
        }
    }
    None
}

/// What may be null has no other value that stands as null.
pub(crate) fn null_fault(schema: &Schema, kinds: &[Kinds], def: &TypeDef) -> Option<usize>
    requires { HoldsKinds schema.now kinds.now }
    ensures { result ≡ null_fault schema.now def.now }
{
    match def {
        TypeDef::List { elem, at } => is_null_twice(schema, kinds, elem).then_some(*at),
        TypeDef::Map { value, at, .. } => is_null_twice(schema, kinds, value).then_some(*at),
        TypeDef::Struct(s) => null_field(schema, kinds, s),
        _ => None,
    }
}

/// Whether a part of a text may be null, or its type is none in text form.
fn is_no_text(schema: &Schema, kinds: &[Kinds], slot: &Slot) -> bool
    requires { HoldsKinds schema.now kinds.now }
    ensures { result ≡ is_no_text schema.now slot.now }
{
    slot.nullable || !has_text_form(schema, kinds, slot.ty)
}

fn is_text_struct(form: &StructForm) -> bool
    ensures { result ≡ is_text_struct form.now }
{
    matches!(
        form,
        StructForm::StringPairs(_, _) | StructForm::StringJoin(_)
    )
}

fn is_text_map(form: &MapForm) -> bool
    ensures { result ≡ is_text_map form.now }
{
    matches!(form, MapForm::StringPairs(_, _))
}

fn is_text_union(form: &UnionForm) -> bool
    ensures { result ≡ is_text_union form.now }
{
    matches!(form, UnionForm::StringPrefix)
}

/// Whether a field of a struct in text form is no text.
fn is_field_no_text(schema: &Schema, kinds: &[Kinds], form: &StructForm, field: &Field) -> bool
    requires { HoldsKinds schema.now kinds.now }
    ensures { result ≡ is_text_struct form.now && is_no_text schema.now field.now.slot }
{
    is_text_struct(form) && is_no_text(schema, kinds, &field.slot)
}

fn no_text_field(schema: &Schema, kinds: &[Kinds], def: &StructDef) -> Option<usize>
    requires { HoldsKinds schema.now kinds.now }
    ensures { result ≡ first_place (λ f. is_text_struct def.now.form && is_no_text schema.now f.slot) (λ f. f.at) def.now.fields }
{
    for field in def.fields.as_slice() {
        if is_field_no_text(schema, kinds, &def.form, field) {
            return Some(field.at);
        }
    }
    None
}

/// Whether a member of a union in text form is no text.
fn is_member_no_text(schema: &Schema, kinds: &[Kinds], form: &UnionForm, member: &Member) -> bool
    requires { HoldsKinds schema.now kinds.now }
    ensures { result ≡ is_text_union form.now && not (has_text_form schema.now member.now.ty.0) }
{
    is_text_union(form) && !has_text_form(schema, kinds, member.ty)
}

fn no_text_member(schema: &Schema, kinds: &[Kinds], def: &UnionDef) -> Option<usize>
    requires { HoldsKinds schema.now kinds.now }
    ensures { result ≡ first_place (λ m. is_text_union def.now.form && not (has_text_form schema.now m.ty.0)) (λ m. m.at) def.now.members }
{
    for member in def.members.as_slice() {
        if is_member_no_text(schema, kinds, &def.form, member) {
            return Some(member.at);
        }
    }
    None
}

/// The parts of a text are texts.
pub(crate) fn text_fault(schema: &Schema, kinds: &[Kinds], def: &TypeDef) -> Option<usize>
    requires { HoldsKinds schema.now kinds.now }
    ensures { result ≡ text_fault schema.now def.now }
{
    match def {
        TypeDef::Struct(s) => no_text_field(schema, kinds, s),
        TypeDef::Map {
            value,
            at,
            form,
            ..
        } => (is_text_map(form) && is_no_text(schema, kinds, value)).then_some(*at),
        TypeDef::Union(u) => no_text_member(schema, kinds, u),
        _ => None,
    }
}

/// Whether a value that stands for a field is one of a type, and no text that is too long.
fn is_of(value: &Scalar, def: &TypeDef) -> bool
    ensures { result ≡ is_of value.now (Some def.now) }
{
    match (value, def) {
        (Scalar::Bool(_), TypeDef::Bool) => true,
        (Scalar::Int(_), TypeDef::Int) => true,
        (Scalar::Text(text), TypeDef::Text) => text.as_str().len() <= 4_194_299,
        _ => false,
    }
}

/// Whether a value that stands for a field is one of its type.
fn is_of_type(schema: &Schema, value: &Scalar, ty: TypeNo) -> bool
    ensures { result ≡ is_of value.now (meant schema.now ty.0) }
{
    match meant(schema, ty) {
        None => false,
        Some(def) => is_of(value, def),
    }
}

fn is_implicit_wrong(schema: &Schema, field: &Field) -> bool
    ensures { result ≡ is_implicit_wrong schema.now field.now }
{
    match &field.implicit {
        None => false,
        Some(value) => field.optional || !is_of_type(schema, value, field.slot.ty),
    }
}

fn implicit_field(schema: &Schema, def: &StructDef) -> Option<usize>
    ensures { result ≡ first_place (is_implicit_wrong schema.now) (λ f. f.at) def.now.fields }
{
    for field in def.fields.as_slice() {
        if is_implicit_wrong(schema, field) {
            return Some(field.at);
        }
    }
    None
}

/// A value that stands for a field left out is one of its type, and no longer than a block can hold.
pub(crate) fn implicit_fault(schema: &Schema, def: &TypeDef) -> Option<usize>
    ensures { result ≡ implicit_fault schema.now def.now }
{
    match def {
        TypeDef::Struct(s) => implicit_field(schema, s),
        _ => None,
    }
}

/// Whether a type is a struct that stands as a map.
fn is_map_struct(schema: &Schema, ty: TypeNo) -> bool
    ensures { result ≡ is_map_struct (meant schema.now ty.0) }
{
    match meant(schema, ty) {
        Some(TypeDef::Struct(s)) => matches!(s.form, StructForm::Map),
        _ => false,
    }
}

fn is_inline(form: &UnionForm) -> bool
    ensures { result ≡ is_inline form.now }
{
    matches!(form, UnionForm::Inline(_))
}

/// Whether a member of an inline union is no struct that stands as a map.
fn is_inline_wrong(schema: &Schema, form: &UnionForm, member: &Member) -> bool
    ensures { result ≡ is_inline form.now && not (is_map_struct (meant schema.now member.now.ty.0)) }
{
    is_inline(form) && !is_map_struct(schema, member.ty)
}

fn inline_member(schema: &Schema, def: &UnionDef) -> Option<usize>
    ensures { result ≡ first_place (λ m. is_inline def.now.form && not (is_map_struct (meant schema.now m.ty.0))) (λ m. m.at) def.now.members }
{
    for member in def.members.as_slice() {
        if is_inline_wrong(schema, &def.form, member) {
            return Some(member.at);
        }
    }
    None
}

/// The members of an inline union are structs that stand as maps.
pub(crate) fn inline_fault(schema: &Schema, def: &TypeDef) -> Option<usize>
    ensures { result ≡ inline_fault schema.now def.now }
{
    match def {
        TypeDef::Union(u) => inline_member(schema, u),
        _ => None,
    }
}

/// The keys of a map are texts.
pub(crate) fn key_fault(schema: &Schema, kinds: &[Kinds], def: &TypeDef) -> Option<usize>
    requires { HoldsKinds schema.now kinds.now }
    ensures { result ≡ key_fault schema.now def.now }
{
    match def {
        TypeDef::Map { key, key_at, .. } => (!has_text_form(schema, kinds, *key)).then_some(
            *key_at,
        ),
        _ => None,
    }
}
