//! The rules that look at each part of a type beside those before it.
ghost use Rattle.std.specs.Prelude.{◌≡◌, [], List};
ghost use Rattle.std.specs.List.{list_any};
ghost use Rattle.ild_schema.specs.Places.{first_beside, first_place};
ghost use Rattle.ild_schema.specs.declared.def.Field.{Field};
ghost use Rattle.ild_schema.specs.Rules.{is_kind_wrong, is_not_bytes, is_optional_wrong, kind_fault, optional_fault, union_kind_fault};
ghost use Rattle.ild_accept.specs.inside.Held.{HoldsKinds};

use crate::kinds::{declared_kinds, kinds_at};
use ild_schema::{
    Field, KindWord, Kinds, Mark, Member, Schema, StructDef, StructForm, TypeDef, UnionDef,
    UnionForm,
};

/// Whether a member of a union of kinds has others than the one that it declares, or one that was declared before.
fn is_kind_wrong(schema: &Schema, kinds: &[Kinds], before: &[Member], member: &Member) -> bool
    requires { HoldsKinds schema.now kinds.now }
    ensures { result ≡ is_kind_wrong schema.now before.now member.now }
{
    match &member.mark {
        Mark::Kind(kind) => {
            !kinds_at(schema, kinds, member.ty).has_only(*kind) || declared_kinds(before).has(*kind)
        }
        Mark::Bare | Mark::Text(_) => false,
    }
}

fn kinded_member(schema: &Schema, kinds: &[Kinds], members: &[Member]) -> Option<usize>
    requires { HoldsKinds schema.now kinds.now }
    ensures { result ≡ first_beside (is_kind_wrong schema.now) (λ m. m.at) [] members.now }
{
    for (i, member) in members.iter().enumerate() {
        if is_kind_wrong(schema, kinds, &members[..i], member) {
            return Some(member.at);
        }
    }
    None
}

/// Whether a member behind a prefix of bytes has other kinds than bytes.
fn is_not_bytes(schema: &Schema, kinds: &[Kinds], member: &Member) -> bool
    requires { HoldsKinds schema.now kinds.now }
    ensures { result ≡ is_not_bytes schema.now member.now }
{
    matches!(member.mark, Mark::Text(_))
        && !kinds_at(schema, kinds, member.ty).has_only(KindWord::Bytes)
}

fn bytes_member(schema: &Schema, kinds: &[Kinds], members: &[Member]) -> Option<usize>
    requires { HoldsKinds schema.now kinds.now }
    ensures { result ≡ first_place (is_not_bytes schema.now) (λ m. m.at) members.now }
{
    for member in members {
        if is_not_bytes(schema, kinds, member) {
            return Some(member.at);
        }
    }
    None
}

fn union_kind_fault(schema: &Schema, kinds: &[Kinds], def: &UnionDef) -> Option<usize>
    requires { HoldsKinds schema.now kinds.now }
    ensures { result ≡ union_kind_fault schema.now def.now.form def.now.members }
{
    match def.form {
        UnionForm::Kinded => kinded_member(schema, kinds, def.members.as_slice()),
        UnionForm::BytesPrefix => bytes_member(schema, kinds, def.members.as_slice()),
        _ => None,
    }
}

/// The kinds of members are those that are declared, each once.
pub(crate) fn kind_fault(schema: &Schema, kinds: &[Kinds], def: &TypeDef) -> Option<usize>
    requires { HoldsKinds schema.now kinds.now }
    ensures { result ≡ kind_fault schema.now def.now }
{
    match def {
        TypeDef::Union(u) => union_kind_fault(schema, kinds, u),
        _ => None,
    }
}

/// Whether a field may be left out where that isn't seen, or must be there behind one that may be left out.
fn is_optional_wrong(form: &StructForm, optional: bool, field: &Field) -> bool
    ensures { (before : List Field) → optional ≡ list_any (λ f. f.optional) before → result ≡ is_optional_wrong form.now before field.now }
{
    match form {
        StructForm::Tuple => !field.optional && optional,
        StructForm::StringJoin(_) => field.optional,
        _ => false,
    }
}

fn optional_field(form: &StructForm, fields: &[Field]) -> Option<usize>
    ensures { result ≡ first_beside (is_optional_wrong form.now) (λ f. f.at) [] fields.now }
{
    let mut optional = false;
    for field in fields {
        if is_optional_wrong(form, optional, field) {
            return Some(field.at);
        }
        optional |= field.optional;
    }
    None
}

fn optional_in_struct(def: &StructDef) -> Option<usize>
    ensures { result ≡ first_beside (is_optional_wrong def.now.form) (λ f. f.at) [] def.now.fields }
{
    optional_field(&def.form, def.fields.as_slice())
}

/// What may be left out stands last in a tuple, and not at all in a join.
pub(crate) fn optional_fault(def: &TypeDef) -> Option<usize>
    ensures { result ≡ optional_fault def.now }
{
    match def {
        TypeDef::Struct(s) => optional_in_struct(s),
        _ => None,
    }
}
