//! What the types of a table's texts and integers say of them, as facts about its rows. The calls here only read.
ghost use Rattle.std.specs.Prelude.{IsUtf8};
ghost use Rattle.std.specs.List.{All};
ghost use Rattle.ild_schema.specs.Spelled.{HasTexts, SpelledDelims, SpelledKeys, SpelledMap};
ghost use Rattle.ild_schema.specs.inside.Written.{EnumMemberTexts, FieldTexts, MemberTexts, TypeTexts};

use crate::{
    EnumMember, Field, MapForm, Mark, Member, Row, Scalar, StructForm, TypeDef, UnionForm,
};

fn map_form(form: &MapForm)
    ensures { SpelledMap form.now }
{
    match form {
        MapForm::StringPairs(inner, entry) => {
            let _ = inner.as_str();
            let _ = entry.as_str();
        }
        MapForm::Map | MapForm::ListPairs | MapForm::Hamt(_) => {}
    }
}

fn struct_form(form: &StructForm)
    ensures { SpelledDelims form.now }
{
    match form {
        StructForm::StringPairs(inner, entry) => {
            let _ = inner.as_str();
            let _ = entry.as_str();
        }
        StructForm::StringJoin(join) => {
            let _ = join.as_str();
        }
        StructForm::Map | StructForm::Tuple | StructForm::ListPairs => {}
    }
}

fn union_form(form: &UnionForm)
    ensures { SpelledKeys form.now }
{
    match form {
        UnionForm::Envelope(discriminant, content) => {
            let _ = discriminant.as_str();
            let _ = content.as_str();
        }
        UnionForm::Inline(discriminant) => {
            let _ = discriminant.as_str();
        }
        UnionForm::Keyed | UnionForm::Kinded | UnionForm::StringPrefix | UnionForm::BytesPrefix =>
            {}
    }
}

fn field(field: &Field)
    ensures { FieldTexts field.now }
{
    let _ = field.name.as_str();
    if let Some(rename) = &field.rename {
        let _ = rename.as_str();
    }
    match &field.implicit {
        Some(Scalar::Int(n)) => {
            let _ = n.get();
        }
        Some(Scalar::Text(text)) => {
            let _ = text.as_str();
        }
        Some(Scalar::Bool(_)) | None => {}
    }
}

fn fields(fields: &[Field])
    ensures { All FieldTexts fields.now }
{
    for part in fields {
        field(part);
    }
}

fn member(member: &Member)
    ensures { MemberTexts member.now }
{
    let _ = member.name.as_str();
    match &member.mark {
        Mark::Text(text) => {
            let _ = text.as_str();
        }
        Mark::Bare | Mark::Kind(_) => {}
    }
}

fn members(members: &[Member])
    ensures { All MemberTexts members.now }
{
    for part in members {
        member(part);
    }
}

fn enum_member(member: &EnumMember)
    ensures { EnumMemberTexts member.now }
{
    let _ = member.name.as_str();
    if let Some(text) = &member.text {
        let _ = text.as_str();
    }
}

fn enum_members(members: &[EnumMember])
    ensures { All EnumMemberTexts members.now }
{
    for part in members {
        enum_member(part);
    }
}

fn type_def(def: &TypeDef)
    ensures { TypeTexts def.now }
{
    match def {
        TypeDef::Map { form, .. } => map_form(form),
        TypeDef::Struct(s) => {
            struct_form(&s.form);
            fields(s.fields.as_slice());
        }
        TypeDef::Union(u) => {
            union_form(&u.form);
            members(u.members.as_slice());
        }
        TypeDef::Enum(e) => enum_members(e.members.as_slice()),
        _ => {}
    }
}

/// The texts of rows are UTF-8, and their integers those of blocks. A caller that needs the fact makes this call, which
/// only reads.
pub fn texts_of(rows: &[Row])
    ensures { HasTexts rows.now }
{
    for row in rows {
        let _ = row.name.as_str();
        type_def(&row.def);
    }
}
