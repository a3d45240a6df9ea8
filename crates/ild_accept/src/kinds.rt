//! The kinds that the representation of a type may have (IPLD Schemas, "Representations").
ghost use Rattle.std.specs.Prelude.{◌≡◌, ◌<◌, IfOk, length, option_map};
ghost use Rattle.ild_schema.specs.Kinds.{all_but_null, declared_kinds, def_kinds, enum_kinds, has_text_form, kinds_of, map_kinds, meant, struct_kinds, union_kinds, unit_kinds, with_mark};
ghost use Rattle.ild_accept.specs.inside.Held.{HoldsKinds};

use ild_schema::{
    EnumForm, KindWord, Kinds, MapForm, Mark, Member, Schema, StructForm, TypeDef, TypeNo,
    UnionDef, UnionForm, UnitForm,
};
use std::alloc::{AllocError, Global};

/// All kinds but null.
fn all_but_null() -> Kinds
    ensures { result ≡ all_but_null }
{
    Kinds {
        null: false,
        boolean: true,
        int: true,
        text: true,
        bytes: true,
        list: true,
        map: true,
        link: true,
    }
}

/// Kinds, and the one that stands behind a member.
fn with_mark(kinds: Kinds, mark: &Mark) -> Kinds
    ensures { result ≡ with_mark mark.now kinds }
{
    match mark {
        Mark::Kind(kind) => kinds.with(*kind),
        Mark::Bare | Mark::Text(_) => kinds,
    }
}

/// The kinds that are declared behind members.
pub(crate) fn declared_kinds(members: &[Member]) -> Kinds
    ensures { result ≡ declared_kinds members.now }
{
    let mut kinds = Kinds::none();
    for member in members {
        kinds = with_mark(kinds, &member.mark);
    }
    kinds
}

fn struct_kinds(form: &StructForm) -> Kinds
    ensures { result ≡ struct_kinds form.now }
{
    match form {
        StructForm::Map => Kinds::only(KindWord::Map),
        StructForm::Tuple | StructForm::ListPairs => Kinds::only(KindWord::List),
        StructForm::StringPairs(_, _) | StructForm::StringJoin(_) => Kinds::only(KindWord::Text),
    }
}

fn map_kinds(form: &MapForm) -> Kinds
    ensures { result ≡ map_kinds form.now }
{
    match form {
        MapForm::Map | MapForm::Hamt(_) => Kinds::only(KindWord::Map),
        MapForm::ListPairs => Kinds::only(KindWord::List),
        MapForm::StringPairs(_, _) => Kinds::only(KindWord::Text),
    }
}

fn union_kinds(union: &UnionDef) -> Kinds
    ensures { result ≡ union_kinds union.now.form union.now.members }
{
    match &union.form {
        UnionForm::Keyed | UnionForm::Envelope(_, _) | UnionForm::Inline(_) => {
            Kinds::only(KindWord::Map)
        }
        UnionForm::Kinded => declared_kinds(union.members.as_slice()),
        UnionForm::StringPrefix => Kinds::only(KindWord::Text),
        UnionForm::BytesPrefix => Kinds::only(KindWord::Bytes),
    }
}

fn enum_kinds(form: EnumForm) -> Kinds
    ensures { result ≡ enum_kinds form }
{
    match form {
        EnumForm::Text => Kinds::only(KindWord::Text),
        EnumForm::Int => Kinds::only(KindWord::Int),
    }
}

fn unit_kinds(form: UnitForm) -> Kinds
    ensures { result ≡ unit_kinds form }
{
    match form {
        UnitForm::Null => Kinds::only(KindWord::Null),
        UnitForm::True | UnitForm::False => Kinds::only(KindWord::Bool),
        UnitForm::EmptyMap => Kinds::only(KindWord::Map),
    }
}

/// The kinds of a type that is no copy.
fn def_kinds(def: &TypeDef) -> Kinds
    ensures { result ≡ def_kinds def.now }
{
    match def {
        TypeDef::Bool => Kinds::only(KindWord::Bool),
        TypeDef::Text => Kinds::only(KindWord::Text),
        TypeDef::Bytes => Kinds::only(KindWord::Bytes),
        TypeDef::Int => Kinds::only(KindWord::Int),
        TypeDef::Any => all_but_null(),
        TypeDef::Link(_) => Kinds::only(KindWord::Link),
        TypeDef::Unit(form) => unit_kinds(*form),
        TypeDef::List { .. } => Kinds::only(KindWord::List),
        TypeDef::Map { form, .. } => map_kinds(form),
        TypeDef::Struct(s) => struct_kinds(&s.form),
        TypeDef::Union(u) => union_kinds(u),
        TypeDef::Enum(e) => enum_kinds(e.form),
        TypeDef::Copy(_) => Kinds::none(),
    }
}

/// What a schema says of the type to which a type leads through copies, if the type is in the table.
pub(crate) fn meant(schema: &Schema, ty: TypeNo) -> Option<&TypeDef>
    ensures { option_map (λ def. def.now) result ≡ meant schema.now ty.0 }
{
    if ty.0 < schema.types() {
        Some(schema.def(schema.base(ty)))
    } else {
        None
    }
}

/// The kinds of each type of a table by its number, where a copy has none of its own.
pub(crate) fn kinds_of_all(alloc: Global, schema: &Schema) -> Result<Vec<Kinds>, AllocError>
    ensures { IfOk result (λ kinds. HoldsKinds schema.now kinds.items) }
{
    let mut kinds = Vec::with_capacity(alloc, schema.types() as usize)?;
    for n in 0..schema.types() {
        kinds.push(def_kinds(schema.def(TypeNo(n))))?;
    }
    Ok(kinds)
}

/// The kinds of a type, looked up where copies end, or none where it isn't in the table.
pub(crate) fn kinds_at(schema: &Schema, kinds: &[Kinds], ty: TypeNo) -> Kinds
    requires { HoldsKinds schema.now kinds.now }
    ensures { result ≡ kinds_of schema.now ty.0 }
{
    if ty.0 < schema.types() {
        kinds[schema.base(ty).0 as usize]
    } else {
        Kinds::none()
    }
}

/// Whether a type stands in a block as a text.
pub(crate) fn has_text_form(schema: &Schema, kinds: &[Kinds], ty: TypeNo) -> bool
    requires { HoldsKinds schema.now kinds.now }
    ensures { result ≡ has_text_form schema.now ty.0 }
{
    kinds_at(schema, kinds, ty).has_only(KindWord::Text)
}

/// The kinds that the representation of a type may have.
pub fn kinds_of(schema: &Schema, ty: TypeNo) -> Kinds
    requires { ty.0 < length schema.now }
    ensures { result ≡ kinds_of schema.now ty.0 }
{
    match meant(schema, ty) {
        None => Kinds::none(),
        Some(def) => def_kinds(def),
    }
}
