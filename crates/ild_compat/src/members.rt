//! What is asked of the members of two unions or of two enums. A member is matched with the one of its name.
ghost use Rattle.std.specs.Prelude.{◌≡◌, ◌<◌, ◌&&◌, IfOk, IfSome, None, Some, bytes_eq, length, option_and_then, option_map, true};
ghost use Rattle.std.specs.List.{list_all};
ghost use Rattle.ild_schema.specs.DataKinds.{kind_number, same_kind};
ghost use Rattle.ild_data.specs.Hex.{bytes_of_hex};
ghost use Rattle.ild_schema.specs.Marks.{mark_kind, mark_text};
ghost use Rattle.ild_schema.specs.Table.{def_at};
ghost use Rattle.ild_schema.specs.declared.def.TypeDef.TheVariants as D;
ghost use Rattle.ild_schema.specs.declared.def.EnumForm.TheVariants as E;
ghost use Rattle.ild_compat.specs.Fields.{has_member, has_same_mark, has_same_value, has_value, is_same_int, is_same_kind, is_same_text, member_named, value_named};
ghost use Rattle.ild_compat.specs.Same.{enum_of, union_of};
ghost use Rattle.ild_compat.specs.Table.{agree, enums_agree, unions_agree, members_agree};

use ild_accept_rules::{bytes_of_hex, member_integer};
use ild_data::{Octets, Txt};
use ild_schema::{
    Accepted, EnumDef, EnumForm, EnumMember, KindWord, Mark, Member, TypeDef, TypeNo, UnionDef,
    UnionForm, text_of_member,
};
use std::alloc::{AllocError, Global};

/// The union that a type is, if it is one.
pub(crate) fn union_at<'s>(schema: &'s Accepted, ty: TypeNo) -> Option<&'s UnionDef>
    requires { ty.0 < length schema.now }
    ensures same { option_map (λ u. u.now) result ≡ option_and_then union_of (def_at schema.now ty.0) }
    ensures is { IfSome result (λ u. def_at schema.now ty.0 ≡ Some (D.Union u.now)) }
{
    match schema.def(ty) {
        TypeDef::Union(u) => Some(u),
        _ => None,
    }
}

/// The enum that a type is, if it is one.
fn enum_at<'s>(schema: &'s Accepted, ty: TypeNo) -> Option<&'s EnumDef>
    requires { ty.0 < length schema.now }
    ensures same { option_map (λ e. e.now) result ≡ option_and_then enum_of (def_at schema.now ty.0) }
    ensures is { IfSome result (λ e. def_at schema.now ty.0 ≡ Some (D.Enum e.now)) }
{
    match schema.def(ty) {
        TypeDef::Enum(e) => Some(e),
        _ => None,
    }
}

/// The member of a union that has a name.
pub(crate) fn member_named<'s>(
    schema: &Accepted,
    ty: TypeNo,
    def: &'s UnionDef,
    name: &str,
) -> Option<&'s Member>
    requires within { ty.0 < length schema.now }
    requires def { def_at schema.now ty.0 ≡ Some (D.Union def.now) }
    ensures { option_map (λ m. m.now) result ≡ member_named name.now def.now.members }
{
    match schema.part_named(ty, name) {
        Some(part) => def.members.get(part),
        None => None,
    }
}

/// The member of an enum that has a name.
fn value_named<'s>(
    schema: &Accepted,
    ty: TypeNo,
    def: &'s EnumDef,
    name: &str,
) -> Option<&'s EnumMember>
    requires within { ty.0 < length schema.now }
    requires def { def_at schema.now ty.0 ≡ Some (D.Enum def.now) }
    ensures { option_map (λ m. m.now) result ≡ value_named name.now def.now.members }
{
    match schema.part_named(ty, name) {
        Some(part) => def.members.get(part),
        None => None,
    }
}

/// The text behind a member, where one is there.
fn text_of(mark: &Mark) -> Option<&Txt>
    ensures { option_map (λ s. s.now) result ≡ mark_text mark.now }
{
    match mark {
        Mark::Text(text) => Some(text),
        Mark::Bare | Mark::Kind(_) => None,
    }
}

/// The kind behind a member, where one is there.
fn kind_of(mark: &Mark) -> Option<KindWord>
    ensures { result ≡ mark_kind mark.now }
{
    match mark {
        Mark::Kind(kind) => Some(*kind),
        Mark::Bare | Mark::Text(_) => None,
    }
}

fn kind_number(kind: KindWord) -> u8
    ensures { result ≡ kind_number kind }
{
    match kind {
        KindWord::Null => 0,
        KindWord::Bool => 1,
        KindWord::Int => 2,
        KindWord::Text => 3,
        KindWord::Bytes => 4,
        KindWord::List => 5,
        KindWord::Map => 6,
        KindWord::Link => 7,
    }
}

fn is_same_kind(kind: Option<KindWord>, other: Option<KindWord>) -> bool
    ensures { result ≡ is_same_kind kind other }
{
    match (kind, other) {
        (None, None) => true,
        (Some(k), Some(l)) => kind_number(k) == kind_number(l),
        _ => false,
    }
}

fn is_same_text(text: Option<&Txt>, other: Option<&Txt>) -> bool
    ensures { result ≡ is_same_text (option_map (λ s. s.now) text.entry) (option_map (λ s. s.now) other.entry) }
{
    match (text, other) {
        (None, None) => true,
        (Some(s), Some(t)) => s.as_str() == t.as_str(),
        _ => false,
    }
}

fn are_same_bytes(bytes: &Option<Octets>, other: &Option<Octets>) -> bool
    ensures { result ≡ is_same_text bytes.now other.now }
{
    match (bytes, other) {
        (None, None) => true,
        (Some(s), Some(t)) => s.as_slice() == t.as_slice(),
        _ => false,
    }
}

fn is_same_int(number: Option<i128>, other: Option<i128>) -> bool
    ensures { result ≡ is_same_int number other }
{
    match (number, other) {
        (None, None) => true,
        (Some(m), Some(n)) => m == n,
        _ => false,
    }
}

/// The bytes that the text behind a member gives in hexadecimal.
fn prefix_of(alloc: Global, mark: &Mark) -> Result<Option<Octets>, AllocError>
    ensures { IfOk result (λ bytes. bytes ≡ option_and_then bytes_of_hex (mark_text mark.now)) }
{
    match text_of(mark) {
        Some(text) => bytes_of_hex(alloc, text.as_str().as_bytes()),
        None => Ok(None),
    }
}

fn has_same_prefix(alloc: Global, mark: &Mark, other: &Mark) -> Result<bool, AllocError>
    ensures { IfOk result (λ b. b ≡ is_same_text (option_and_then bytes_of_hex (mark_text mark.now)) (option_and_then bytes_of_hex (mark_text other.now))) }
{
    let bytes = prefix_of(alloc, mark)?;
    let others = prefix_of(alloc, other)?;
    Ok(are_same_bytes(&bytes, &others))
}

/// Whether two members of unions of a form are told alike in a block.
fn has_same_mark(
    alloc: Global,
    form: &UnionForm,
    member: &Member,
    other: &Member,
) -> Result<bool, AllocError>
    ensures { IfOk result (λ b. b ≡ has_same_mark form.now member.now other.now) }
{
    match form {
        UnionForm::Kinded => Ok(is_same_kind(kind_of(&member.mark), kind_of(&other.mark))),
        UnionForm::BytesPrefix => has_same_prefix(alloc, &member.mark, &other.mark),
        _ => Ok(is_same_text(text_of(&member.mark), text_of(&other.mark))),
    }
}

/// Whether a union has a member of this name, told alike in a block.
fn has_member(
    alloc: Global,
    schema: &Accepted,
    ty: TypeNo,
    def: &UnionDef,
    form: &UnionForm,
    member: &Member,
) -> Result<bool, AllocError>
    requires within { ty.0 < length schema.now }
    requires def { def_at schema.now ty.0 ≡ Some (D.Union def.now) }
    ensures { IfOk result (λ b. b ≡ has_member form.now def.now.members member.now) }
{
    match member_named(schema, ty, def, member.name.as_str()) {
        Some(other) => has_same_mark(alloc, form, member, other),
        None => Ok(false),
    }
}

fn has_same_value(form: EnumForm, member: &EnumMember, other: &EnumMember) -> bool
    ensures { result ≡ has_same_value form member.now other.now }
{
    match form {
        EnumForm::Text => text_of_member(member) == text_of_member(other),
        EnumForm::Int => is_same_int(member_integer(member), member_integer(other)),
    }
}

/// Whether an enum has a member of this name, which is the same in a block.
fn has_value(
    schema: &Accepted,
    ty: TypeNo,
    def: &EnumDef,
    form: EnumForm,
    member: &EnumMember,
) -> bool
    requires within { ty.0 < length schema.now }
    requires def { def_at schema.now ty.0 ≡ Some (D.Enum def.now) }
    ensures { result ≡ has_value form def.now.members member.now }
{
    match value_named(schema, ty, def, member.name.as_str()) {
        Some(other) => has_same_value(form, member, other),
        None => false,
    }
}

/// Whether each member of a union is one of another.
fn are_members(
    alloc: Global,
    schema: &Accepted,
    ty: TypeNo,
    other: &UnionDef,
    def: &UnionDef,
) -> Result<bool, AllocError>
    requires within { ty.0 < length schema.now }
    requires def { def_at schema.now ty.0 ≡ Some (D.Union other.now) }
    ensures { IfOk result (λ b. b ≡ unions_agree def.now other.now) }
{
    for member in def.members.as_slice() {
        if !has_member(alloc, schema, ty, other, &def.form, member)? {
            return Ok(false);
        }
    }
    Ok(true)
}

/// Of two unions, whether each member of the first is one of the other.
fn unions_agree(
    alloc: Global,
    first: &Accepted,
    x: TypeNo,
    next: &Accepted,
    y: TypeNo,
) -> Result<bool, AllocError>
    requires first { x.0 < length first.now }
    requires next { y.0 < length next.now }
    ensures { IfOk result (λ b. b ≡ agree unions_agree (option_and_then union_of (def_at first.now x.0)) (option_and_then union_of (def_at next.now y.0))) }
{
    match (union_at(first, x), union_at(next, y)) {
        (Some(u), Some(v)) => are_members(alloc, next, y, v, u),
        _ => Ok(true),
    }
}

/// Whether each member of an enum is one of another.
fn are_values(schema: &Accepted, ty: TypeNo, other: &EnumDef, def: &EnumDef) -> bool
    requires within { ty.0 < length schema.now }
    requires def { def_at schema.now ty.0 ≡ Some (D.Enum other.now) }
    ensures { result ≡ enums_agree def.now other.now }
{
    def.members
        .as_slice()
        .iter()
        .all(|member| has_value(schema, ty, other, def.form, member))
}

/// Of two enums, whether each member of the first is one of the other.
fn enums_agree(first: &Accepted, x: TypeNo, next: &Accepted, y: TypeNo) -> bool
    requires first { x.0 < length first.now }
    requires next { y.0 < length next.now }
    ensures { result ≡ agree enums_agree (option_and_then enum_of (def_at first.now x.0)) (option_and_then enum_of (def_at next.now y.0)) }
{
    match (enum_at(first, x), enum_at(next, y)) {
        (Some(d), Some(e)) => are_values(next, y, e, d),
        _ => true,
    }
}

/// Of two unions or enums, whether each member of the first is one of the other.
pub(crate) fn members_agree(
    alloc: Global,
    first: &Accepted,
    x: TypeNo,
    next: &Accepted,
    y: TypeNo,
) -> Result<bool, AllocError>
    requires first { x.0 < length first.now }
    requires next { y.0 < length next.now }
    ensures { IfOk result (λ b. b ≡ members_agree (def_at first.now x.0) (def_at next.now y.0)) }
{
    let unions = unions_agree(alloc, first, x, next, y)?;
    Ok(unions && enums_agree(first, x, next, y))
}
