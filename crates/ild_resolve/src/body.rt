//! What a declaration says of its type, and the rows of the inline types in it.
ghost use Rattle.std.specs.Prelude.{◌≡◌, ◌+◌, ◌<◌, ◌≤◌, ◌++◌, ◌∷◌, codes, length, IfOk, OnOk};
ghost use Rattle.ild_resolve.specs.inside.Numbers.{number_in};
ghost use Rattle.ild_parse_grammar.specs.declared.ast.Body.TheVariants as B;
ghost use Rattle.ild_parse_grammar.specs.declared.ast.Target.TheVariants as T;
ghost use Rattle.ild_schema.specs.declared.def.TypeDef.TheVariants as D;
ghost use Rattle.ild_resolve.specs.Forms.{map_form, enum_form, enum_members};
ghost use Rattle.ild_resolve.specs.Events.{reference_events, each_events, field_events, member_events, target_events, mark_events, map_form_events, uses, body_events, types_in};
ghost use Rattle.ild_resolve.specs.inside.Judged.{Judged};
ghost use Rattle.ild_resolve.specs.Rows.{reference_rows, field, fields, field_rows, target_name, target_type, target_rows, member, members, member_rows, body_def, body_rows, type_of, slot, first_token};

use crate::ResolveErr;
use crate::form::{
    enum_form_of, enum_members_of, map_form_of, mark_in, settings, struct_form_of, union_form_of,
    unit_form_of,
};
use crate::reference::{link_row, slot_in};
use crate::word::type_no;
use ild_data::{List as AstList, Txt};
use ild_parse_grammar::{
    Body, EnumBody, Field as AstField, MapForm as AstMapForm, Member as AstMember, Ref, StructBody,
    Target, TypeName, UnionBody,
};
use ild_schema::{
    EnumDef, Field, Fields, Member, Members, Row, Slot, StructDef, TypeDef, TypeNo, UnionDef,
};
use std::alloc::{AllocError, Global};
use std::collections::BTreeMap;

/// A field, and the rows of the inline types in it.
fn field_of(
    rows: &mut Vec<Row>,
    numbers: &BTreeMap<&str, u32>,
    part: AstField,
) -> Result<Field, ResolveErr>
    requires small { length rows.old.items + types_in (reference_events part.value) ≤ 65543 }
    ensures words { Judged (number_in numbers.now) (reference_events part.value) result }
    ensures rows { OnOk result (rows.new.items ≡ rows.old.items ++ reference_rows (number_in numbers.now) (length rows.old.items) part.value) }
    ensures same { IfOk result (λ f. f ≡ field (number_in numbers.now) (length rows.old.items) part) }
{
    let slot = slot_in(rows, numbers, &part.value)?;
    let (rename, implicit) = settings(part.opts);
    Ok(Field {
        name: part.name.name,
        at: part.name.at,
        optional: part.optional,
        slot,
        rename,
        implicit,
    })
}

/// The fields of a struct, and the rows of the inline types in them.
fn fields_of(
    rows: &mut Vec<Row>,
    numbers: &BTreeMap<&str, u32>,
    parts: AstList<AstField>,
) -> Result<Fields, ResolveErr>
    requires small { length rows.old.items + types_in (each_events field_events 0 parts) ≤ 65543 }
    ensures words { Judged (number_in numbers.now) (each_events field_events 0 parts) result }
    ensures rows { OnOk result (rows.new.items ≡ rows.old.items ++ field_rows (number_in numbers.now) (length rows.old.items) parts) }
    ensures same { IfOk result (λ fs. fs ≡ fields (number_in numbers.now) (length rows.old.items) parts) }
{
    let mut made = Vec::new(*rows.allocator());
    for part in parts.into_vec() {
        made.push(field_of(rows, numbers, part)?)?;
    }
    Ok(Fields::from_vec(made))
}

/// The name of a type `&T`.
fn link_name_of(alloc: Global, name: &TypeName) -> Result<Txt, AllocError>
    ensures { IfOk result (λ t. t ≡ codes "&" ++ name.now.name) }
{
    let mut text = String::from_str(alloc, "&")?;
    text.push_str(name.name.as_str())?;
    Ok(Txt::from_string(text))
}

/// A member `&T`: its name and the number of its row, which has the same name.
fn link_target(
    rows: &mut Vec<Row>,
    numbers: &BTreeMap<&str, u32>,
    at: usize,
    name: &TypeName,
) -> Result<(Txt, TypeNo), ResolveErr>
    requires small { length rows.old.items < 65543 }
    ensures words { Judged (number_in numbers.now) (target_events at (T.Link name.now)) result }
    ensures rows { OnOk result (rows.new.items ≡ rows.old.items ++ target_rows (number_in numbers.now) at (T.Link name.now)) }
    ensures name { IfOk result (λ t. t.0 ≡ target_name (number_in numbers.now) (T.Link name.now)) }
    ensures same { IfOk result (λ t. t.1 ≡ target_type (number_in numbers.now) (length rows.old.items) (T.Link name.now)) }
{
    let text = link_name_of(*rows.allocator(), name)?;
    let copy = text.copy()?;
    let ty = link_row(rows, numbers, copy, at, name)?;
    Ok((text, ty))
}

/// The name and the type of a member of a union.
fn target_of(
    rows: &mut Vec<Row>,
    numbers: &BTreeMap<&str, u32>,
    at: usize,
    target: Target,
) -> Result<(Txt, TypeNo), ResolveErr>
    requires small { length rows.old.items + types_in (target_events at target) ≤ 65543 }
    ensures words { Judged (number_in numbers.now) (target_events at target) result }
    ensures rows { OnOk result (rows.new.items ≡ rows.old.items ++ target_rows (number_in numbers.now) at target) }
    ensures name { IfOk result (λ t. t.0 ≡ target_name (number_in numbers.now) target) }
    ensures same { IfOk result (λ t. t.1 ≡ target_type (number_in numbers.now) (length rows.old.items) target) }
{
    match target {
        Target::Type(name) => {
            let ty = type_no(numbers, &name)?;
            Ok((name.name, ty))
        }
        Target::Link(name) => link_target(rows, numbers, at, &name),
    }
}

/// A member of a union, and the row of its type where it is `&T`.
fn member_of(
    rows: &mut Vec<Row>,
    numbers: &BTreeMap<&str, u32>,
    part: AstMember,
) -> Result<Member, ResolveErr>
    requires small { length rows.old.items + types_in (target_events part.at part.target) ≤ 65543 }
    ensures words { Judged (number_in numbers.now) (target_events part.at part.target ++ mark_events part.mark) result }
    ensures rows { OnOk result (rows.new.items ≡ rows.old.items ++ target_rows (number_in numbers.now) part.at part.target) }
    ensures same { IfOk result (λ m. m ≡ member (number_in numbers.now) (length rows.old.items) part) }
{
    let at = part.at;
    let (name, ty) = target_of(rows, numbers, at, part.target)?;
    let mark = mark_in(part.mark)?;
    Ok(Member { name, at, ty, mark })
}

/// The members of a union, and the rows of their types `&T`.
fn members_of(
    rows: &mut Vec<Row>,
    numbers: &BTreeMap<&str, u32>,
    parts: AstList<AstMember>,
) -> Result<Members, ResolveErr>
    requires small { length rows.old.items + types_in (each_events member_events 0 parts) ≤ 65543 }
    ensures words { Judged (number_in numbers.now) (each_events member_events 0 parts) result }
    ensures rows { OnOk result (rows.new.items ≡ rows.old.items ++ member_rows (number_in numbers.now) parts) }
    ensures same { IfOk result (λ ms. ms ≡ members (number_in numbers.now) (length rows.old.items) parts) }
{
    let mut made = Vec::new(*rows.allocator());
    for part in parts.into_vec() {
        made.push(member_of(rows, numbers, part)?)?;
    }
    Ok(Members::from_vec(made))
}

/// The types of the key and of the value of a map, and the rows of the inline types in its value.
fn entry_of(
    rows: &mut Vec<Row>,
    numbers: &BTreeMap<&str, u32>,
    key: &TypeName,
    value: &Ref,
) -> Result<(TypeNo, Slot), ResolveErr>
    requires small { length rows.old.items + types_in (reference_events value.now) ≤ 65543 }
    ensures words { Judged (number_in numbers.now) (uses key.now ∷ reference_events value.now) result }
    ensures rows { OnOk result (rows.new.items ≡ rows.old.items ++ reference_rows (number_in numbers.now) (length rows.old.items) value.now) }
    ensures key { IfOk result (λ e. e.0 ≡ type_of (number_in numbers.now) key.now) }
    ensures value { IfOk result (λ e. e.1 ≡ slot (number_in numbers.now) (length rows.old.items) value.now) }
{
    let key = type_no(numbers, key)?;
    let value = slot_in(rows, numbers, value)?;
    Ok((key, value))
}

/// The key, the value and the form of a map, and the rows of the inline types in its value.
fn map_def(
    rows: &mut Vec<Row>,
    numbers: &BTreeMap<&str, u32>,
    key: &TypeName,
    value: &Ref,
    form: Option<AstMapForm>,
) -> Result<TypeDef, ResolveErr>
    requires small { length rows.old.items + types_in (reference_events value.now) ≤ 65543 }
    ensures words { Judged (number_in numbers.now) (uses key.now ∷ reference_events value.now ++ map_form_events form) result }
    ensures rows { OnOk result (rows.new.items ≡ rows.old.items ++ reference_rows (number_in numbers.now) (length rows.old.items) value.now) }
    ensures same { IfOk result (λ d. d ≡ D.Map (type_of (number_in numbers.now) key.now) key.now.at
        (slot (number_in numbers.now) (length rows.old.items) value.now) (first_token (number_in numbers.now) value.now) (map_form form)) }
{
    let (key_no, slot) = entry_of(rows, numbers, key, value)?;
    let form = map_form_of(form)?;
    Ok(TypeDef::Map {
        key: key_no,
        key_at: key.at,
        value: slot,
        at: value.at,
        form,
    })
}

/// The fields and the form of a struct, and the rows of the inline types in it.
fn struct_def(
    rows: &mut Vec<Row>,
    numbers: &BTreeMap<&str, u32>,
    body: StructBody,
) -> Result<TypeDef, ResolveErr>
    requires small { length rows.old.items + types_in (body_events (B.Struct body)) ≤ 65543 }
    ensures words { Judged (number_in numbers.now) (body_events (B.Struct body)) result }
    ensures rows { OnOk result (rows.new.items ≡ rows.old.items ++ field_rows (number_in numbers.now) (length rows.old.items) body.fields) }
    ensures same { IfOk result (λ d. d ≡ body_def (number_in numbers.now) (length rows.old.items) (B.Struct body)) }
{
    let fields = fields_of(rows, numbers, body.fields)?;
    let form = struct_form_of(body.form);
    Ok(TypeDef::Struct(StructDef { fields, form }))
}

/// The members and the form of a union, and the rows of its types `&T`.
fn union_def(
    rows: &mut Vec<Row>,
    numbers: &BTreeMap<&str, u32>,
    body: UnionBody,
) -> Result<TypeDef, ResolveErr>
    requires small { length rows.old.items + types_in (body_events (B.Union body)) ≤ 65543 }
    ensures words { Judged (number_in numbers.now) (body_events (B.Union body)) result }
    ensures rows { OnOk result (rows.new.items ≡ rows.old.items ++ member_rows (number_in numbers.now) body.members) }
    ensures same { IfOk result (λ d. d ≡ body_def (number_in numbers.now) (length rows.old.items) (B.Union body)) }
{
    let members = members_of(rows, numbers, body.members)?;
    let form = union_form_of(body.form);
    Ok(TypeDef::Union(UnionDef { members, form }))
}

/// The members and the form of an enum, in which no type is named.
fn enum_def(alloc: Global, body: EnumBody) -> Result<TypeDef, AllocError>
    ensures { IfOk result (λ d. d ≡ D.Enum (record { members = enum_members body.members; form = enum_form body.form })) }
{
    let members = enum_members_of(alloc, body.members)?;
    let form = enum_form_of(body.form);
    Ok(TypeDef::Enum(EnumDef { members, form }))
}

/// The element of a list, and the rows of the inline types in it.
fn list_def(
    rows: &mut Vec<Row>,
    numbers: &BTreeMap<&str, u32>,
    elem: &Ref,
) -> Result<TypeDef, ResolveErr>
    requires small { length rows.old.items + types_in (reference_events elem.now) ≤ 65543 }
    ensures words { Judged (number_in numbers.now) (reference_events elem.now) result }
    ensures rows { OnOk result (rows.new.items ≡ rows.old.items ++ reference_rows (number_in numbers.now) (length rows.old.items) elem.now) }
    ensures same { IfOk result (λ d. d ≡ D.List (slot (number_in numbers.now) (length rows.old.items) elem.now) (first_token (number_in numbers.now) elem.now)) }
{
    let slot = slot_in(rows, numbers, elem)?;
    Ok(TypeDef::List {
        elem: slot,
        at: elem.at,
    })
}

/// What a declaration says of its type, and the rows of the inline types in it.
pub(crate) fn def_of(
    rows: &mut Vec<Row>,
    numbers: &BTreeMap<&str, u32>,
    body: Body,
) -> Result<TypeDef, ResolveErr>
    requires small { length rows.old.items + types_in (body_events body) ≤ 65543 }
    ensures words { Judged (number_in numbers.now) (body_events body) result }
    ensures rows { OnOk result (rows.new.items ≡ rows.old.items ++ body_rows (number_in numbers.now) (length rows.old.items) body) }
    ensures same { IfOk result (λ d. d ≡ body_def (number_in numbers.now) (length rows.old.items) body) }
{
    match body {
        Body::Copy(name) => Ok(TypeDef::Copy(type_no(numbers, &name)?)),
        Body::Bool => Ok(TypeDef::Bool),
        Body::String => Ok(TypeDef::Text),
        Body::Bytes => Ok(TypeDef::Bytes),
        Body::Int => Ok(TypeDef::Int),
        Body::Float(at) => Err(ResolveErr::Float { at }),
        Body::Any => Ok(TypeDef::Any),
        Body::Link(name) => Ok(TypeDef::Link(type_no(numbers, &name)?)),
        Body::List(elem) => list_def(rows, numbers, &elem),
        Body::Map(map) => {
            let form = map.form;
            map_def(rows, numbers, &map.key, &map.value, form)
        }
        Body::Struct(body) => struct_def(rows, numbers, body),
        Body::Union(body) => union_def(rows, numbers, body),
        Body::Enum(body) => Ok(enum_def(*rows.allocator(), body)?),
        Body::Unit(form) => Ok(TypeDef::Unit(unit_form_of(form))),
    }
}
