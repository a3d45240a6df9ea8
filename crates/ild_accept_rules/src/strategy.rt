//! The rule on what the parts of a type have: what its representation asks for, and nothing that it has no place for.
ghost use Rattle.std.specs.Prelude.{◌≡◌, Some, if◌then◌else◌};
ghost use Rattle.ild_schema.specs.Places.{first_place};
ghost use Rattle.ild_schema.specs.Rules.{is_bare_join, is_field_wrong, is_member_wrong, is_value_wrong, strategy_fault};

use crate::clash::member_integer;
use ild_data::is_hex;
use ild_schema::{
    EnumDef, EnumForm, EnumMember, Field, Mark, Member, StructDef, StructForm, TypeDef, UnionDef,
    UnionForm,
};

/// Whether a field has a setting, where its name stands in no block.
fn is_field_wrong(form: &StructForm, field: &Field) -> bool
    ensures { result ≡ is_field_wrong form.now field.now }
{
    match form {
        StructForm::Tuple | StructForm::StringJoin(_) => {
            field.rename.is_some() || field.implicit.is_some()
        }
        StructForm::Map | StructForm::ListPairs | StructForm::StringPairs(_, _) => false,
    }
}

fn is_bare_join(def: &StructDef) -> bool
    ensures { result ≡ is_bare_join def.now.form def.now.fields }
{
    matches!(def.form, StructForm::StringJoin(_)) && def.fields.len() == 0
}

fn wrong_field(def: &StructDef) -> Option<usize>
    ensures { result ≡ first_place (is_field_wrong def.now.form) (λ f. f.at) def.now.fields }
{
    for field in def.fields.as_slice() {
        if is_field_wrong(&def.form, field) {
            return Some(field.at);
        }
    }
    None
}

/// Whether a member lacks what its union asks for.
fn is_member_wrong(form: &UnionForm, member: &Member) -> bool
    ensures { result ≡ is_member_wrong form.now member.now }
{
    match (form, &member.mark) {
        (UnionForm::Kinded, Mark::Kind(_)) => false,
        (UnionForm::Kinded, _) => true,
        (UnionForm::BytesPrefix, Mark::Text(text)) => !is_hex(text.as_str().as_bytes()),
        (_, Mark::Text(_)) => false,
        (_, _) => true,
    }
}

fn wrong_member(def: &UnionDef) -> Option<usize>
    ensures { result ≡ first_place (is_member_wrong def.now.form) (λ m. m.at) def.now.members }
{
    for member in def.members.as_slice() {
        if is_member_wrong(&def.form, member) {
            return Some(member.at);
        }
    }
    None
}

/// Whether a member of an enum of integers has no integer.
fn is_value_wrong(form: EnumForm, member: &EnumMember) -> bool
    ensures { result ≡ is_value_wrong form member.now }
{
    match form {
        EnumForm::Text => false,
        EnumForm::Int => member_integer(member).is_none(),
    }
}

fn wrong_value(def: &EnumDef) -> Option<usize>
    ensures { result ≡ first_place (is_value_wrong def.now.form) (λ m. m.at) def.now.members }
{
    for member in def.members.as_slice() {
        if is_value_wrong(def.form, member) {
            return Some(member.at);
        }
    }
    None
}

fn wrong_in_struct(at: usize, def: &StructDef) -> Option<usize>
    ensures { result ≡ (if is_bare_join def.now.form def.now.fields then Some at else first_place (is_field_wrong def.now.form) (λ f. f.at) def.now.fields) }
{
    if is_bare_join(def) {
        Some(at)
    } else {
        wrong_field(def)
    }
}

/// Parts have what their representation asks for, and nothing that it has no place for. The fault is that of the type at
/// a place.
pub fn strategy_fault(at: usize, def: &TypeDef) -> Option<usize>
    ensures { result ≡ strategy_fault at def.now }
{
    match def {
        TypeDef::Struct(s) => wrong_in_struct(at, s),
        TypeDef::Union(u) => wrong_member(u),
        TypeDef::Enum(e) => wrong_value(e),
        _ => None,
    }
}
