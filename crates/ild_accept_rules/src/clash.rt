//! The rule on names and texts by which parts are told apart. A schema finds the first part with a name or a text, so a part
//! is told apart from those before it where it is that one.
ghost use Rattle.std.specs.Prelude.{◌≡◌, ◌≤◌, ◌<◌, [], ◌&&◌, ◌||◌, ℕ, ℤ, IfOk, IfSome, OnOk, Option, Some, bytes_eq, cond, false, if◌then◌else◌, length, option_map, true};
ghost use Rattle.std.specs.BTreeSet.{contains};
ghost use Rattle.std.specs.List.{list_any};
ghost use Rattle.std.specs.Option.{option_map_or};
ghost use Rattle.std.specs.Ordering.{int_cmp};
ghost use Rattle.ild_schema.specs.Clashes.{are_equal, discriminant_of, has_field, has_one_key, is_field_again, is_key_taken, is_member_again, is_value_again, name_fault};
ghost use Rattle.ild_schema.specs.Kinds.{meant};
ghost use Rattle.ild_schema.specs.Marks.{field_text, is_marked, is_valued, member_integer, member_text};
ghost use Rattle.ild_schema.specs.Places.{first_beside};
ghost use Rattle.ild_schema.specs.Table.{def_at, parts_of};
ghost use Rattle.ild_schema.specs.declared.def.EnumForm.TheVariants as E;
ghost use Rattle.ild_schema.specs.declared.def.TypeDef.TheVariants as D;
ghost use Rattle.ild_accept_rules.specs.inside.Seen.{first_named, first_spelled, is_before, is_one, is_seen, is_member_seen, is_told_before};

use crate::seen::{is_before, see_first, see_number};
use ild_data::{Txt, decimal_of};
use ild_schema::{
    EnumDef, EnumForm, EnumMember, Field, Mark, Member, Schema, StructDef, TypeDef, TypeNo,
    UnionDef, UnionForm, text_of_field, text_of_member,
};
use std::alloc::{AllocError, Global};
use std::collections::BTreeSet;

/// Whether a part before this one has a name.
fn is_named_before(schema: &Schema, ty: TypeNo, part: usize, name: &Txt) -> bool
    requires { ty.0 < length schema.now }
    ensures { result ≡ is_before part (first_named schema.now ty.0 name.now) }
{
    is_before(part, schema.part_named(ty, name.as_str()))
}

/// Whether a part before this one stands in a block under a text.
fn is_spelled_before(schema: &Schema, ty: TypeNo, part: usize, text: &str) -> bool
    requires { ty.0 < length schema.now }
    ensures { result ≡ is_before part (first_spelled schema.now ty.0 text.now) }
{
    is_before(part, schema.part_spelled(ty, text))
}

/// Whether a field has the name, or the name in a block, of one before it.
fn is_field_again(schema: &Schema, ty: TypeNo, part: usize, field: &Field) -> bool
    requires { ty.0 < length schema.now }
    ensures { result ≡ is_before part (first_named schema.now ty.0 field.now.name) || is_before part (first_spelled schema.now ty.0 (field_text field.now)) }
{
    is_named_before(schema, ty, part, &field.name)
        || is_spelled_before(schema, ty, part, text_of_field(field))
}

fn field_again(schema: &Schema, ty: TypeNo, def: &StructDef) -> Option<usize>
    requires within { ty.0 < length schema.now }
    requires def { def_at schema.now ty.0 ≡ Some (D.Struct def.now) }
    ensures { result ≡ first_beside is_field_again (λ f. f.at) [] def.now.fields }
{
    for (part, field) in def.fields.as_slice().iter().enumerate() {
        if is_field_again(schema, ty, part, field) {
            return Some(field.at);
        }
    }
    None
}

/// Whether a member of an enum of texts has the name, or the text, of one before it.
fn is_text_again(schema: &Schema, ty: TypeNo, part: usize, member: &EnumMember) -> bool
    requires { ty.0 < length schema.now }
    ensures { result ≡ is_before part (first_named schema.now ty.0 member.now.name) || is_before part (first_spelled schema.now ty.0 (member_text member.now)) }
{
    is_named_before(schema, ty, part, &member.name)
        || is_spelled_before(schema, ty, part, text_of_member(member))
}

fn text_again(schema: &Schema, ty: TypeNo, def: &EnumDef) -> Option<usize>
    requires within { ty.0 < length schema.now }
    requires def { def_at schema.now ty.0 ≡ Some (D.Enum def.now) }
    ensures { result ≡ first_beside (is_value_again E.Text) (λ m. m.at) [] def.now.members }
{
    for (part, member) in def.members.as_slice().iter().enumerate() {
        if is_text_again(schema, ty, part, member) {
            return Some(member.at);
        }
    }
    None
}

/// Marks a name of a part as had. The answer tells whether it was.
fn see_name(schema: &Schema, ty: TypeNo, names: &mut [bool], name: &Txt) -> bool
    requires within { ty.0 < length schema.now }
    requires room { IfSome (def_at schema.now ty.0) (λ def. parts_of def ≤ length names.old) }
    ensures was { result ≡ is_seen names.old (first_named schema.now ty.0 name.now) }
    ensures size { length names.new ≡ length names.old }
    ensures seen { (o : Option ℕ) → is_seen names.new o ≡ cond (is_one o (first_named schema.now ty.0 name.now)) true (is_seen names.old o) }
{
    see_first(names, schema.part_named(ty, name.as_str()))
}

/// The integer of an enum's member: the value of its text, where that is one in decimal, from -2^63 to 2^64 - 1.
pub fn member_integer(member: &EnumMember) -> Option<i128>
    ensures { result ≡ member_integer member.now }
{
    match &member.text {
        Some(text) => decimal_of(text.as_str().as_bytes()),
        None => None,
    }
}

/// Puts the integer of a member into a set, if it has one. The answer tells whether it was there.
fn is_integer_told(numbers: &mut BTreeSet<i128>, member: &EnumMember) -> Result<bool, AllocError>
    ensures was { IfOk result (λ b. b ≡ option_map_or (contains int_cmp numbers.old) (member_integer member.now) false) }
    ensures numbers { OnOk result ((q : ℤ) → contains int_cmp numbers.new q ≡ cond (are_equal (Some q) (member_integer member.now)) true (contains int_cmp numbers.old q)) }
{
    match member_integer(member) {
        None => Ok(false),
        Some(number) => see_number(numbers, number),
    }
}

/// Marks the name and the integer of a member as had, where it has a text. The answer tells whether one of them was.
fn is_integer_seen(
    schema: &Schema,
    ty: TypeNo,
    names: &mut [bool],
    numbers: &mut BTreeSet<i128>,
    member: &EnumMember,
) -> Result<bool, AllocError>
    requires within { ty.0 < length schema.now }
    requires room { IfSome (def_at schema.now ty.0) (λ def. parts_of def ≤ length names.old) }
    ensures was { IfOk result (λ b. b ≡ is_valued E.Int member.now
        && (is_seen names.old (first_named schema.now ty.0 member.now.name)
        || option_map_or (contains int_cmp numbers.old) (member_integer member.now) false)) }
    ensures size { length names.new ≡ length names.old }
    ensures names { OnOk result ((o : Option ℕ) → is_seen names.new o ≡ cond (is_valued E.Int member.now && is_one o (first_named schema.now ty.0 member.now.name)) true (is_seen names.old o)) }
    ensures numbers { OnOk result ((q : ℤ) → contains int_cmp numbers.new q
        ≡ cond (is_valued E.Int member.now && are_equal (Some q) (member_integer member.now)) true (contains int_cmp numbers.old q)) }
{
    if member.text.is_none() {
        return Ok(false);
    }
    let named = see_name(schema, ty, names, &member.name);
    let told = is_integer_told(numbers, member)?;
    Ok(named || told)
}

fn integer_again(
    alloc: Global,
    schema: &Schema,
    ty: TypeNo,
    def: &EnumDef,
) -> Result<Option<usize>, AllocError>
    requires within { ty.0 < length schema.now }
    requires def { def_at schema.now ty.0 ≡ Some (D.Enum def.now) }
    ensures { IfOk result (λ place. place ≡ first_beside (is_value_again E.Int) (λ m. m.at) [] def.now.members) }
{
    let mut names = vec![in alloc; false; def.members.len()]?;
    let mut numbers = BTreeSet::new(alloc);
    for member in def.members.as_slice() {
        if is_integer_seen(schema, ty, &mut names, &mut numbers, member)? {
            return Ok(Some(member.at));
        }
    }
    Ok(None)
}

fn again_in_enum(
    alloc: Global,
    schema: &Schema,
    ty: TypeNo,
    def: &EnumDef,
) -> Result<Option<usize>, AllocError>
    requires within { ty.0 < length schema.now }
    requires def { def_at schema.now ty.0 ≡ Some (D.Enum def.now) }
    ensures { IfOk result (λ place. place ≡ first_beside (is_value_again def.now.form) (λ m. m.at) [] def.now.members) }
{
    match def.form {
        EnumForm::Text => Ok(text_again(schema, ty, def)),
        EnumForm::Int => integer_again(alloc, schema, ty, def),
    }
}

/// Whether a member of a union has what the union asks for.
fn is_marked(form: &UnionForm, member: &Member) -> bool
    ensures { result ≡ is_marked form.now member.now }
{
    match (form, &member.mark) {
        (UnionForm::Kinded, Mark::Kind(_)) => true,
        (UnionForm::Kinded, _) => false,
        (_, Mark::Text(_)) => true,
        (_, _) => false,
    }
}

/// The text that tells a member in a block, where it is one that stands for itself.
fn discriminant_of<'s>(form: &UnionForm, member: &'s Member) -> Option<&'s Txt>
    ensures { option_map (λ text. text.now) result ≡ discriminant_of form.now member.now }
{
    match (form, &member.mark) {
        (UnionForm::Keyed | UnionForm::Envelope(_, _) | UnionForm::Inline(_), Mark::Text(text)) =>
            Some(text),
        _ => None,
    }
}

/// Whether the discriminant of a member, if it has one, is that of one before it.
fn is_told_before(
    schema: &Schema,
    ty: TypeNo,
    part: usize,
    form: &UnionForm,
    member: &Member,
) -> bool
    requires { ty.0 < length schema.now }
    ensures { result ≡ is_told_before schema.now ty.0 part form.now member.now }
{
    match discriminant_of(form, member) {
        None => false,
        Some(text) => is_spelled_before(schema, ty, part, text.as_str()),
    }
}

/// Whether a type that is no copy is a struct with a field of a name in a block.
fn is_field_text(schema: &Schema, ty: TypeNo, key: &Txt) -> bool
    requires { ty.0 < length schema.now }
    ensures { result ≡ has_field key.now (def_at schema.now ty.0) }
{
    match schema.def(ty) {
        TypeDef::Struct(_) => schema.part_spelled(ty, key.as_str()).is_some(),
        _ => false,
    }
}

/// Whether a type is, through copies, a struct with a field of a name in a block.
fn has_field(schema: &Schema, ty: TypeNo, key: &Txt) -> bool
    ensures { result ≡ has_field key.now (meant schema.now ty.0) }
{
    ty.0 < schema.types() && is_field_text(schema, schema.base(ty), key)
}

/// Whether the key of an inline union is the name of a field of a member.
fn is_key_taken(schema: &Schema, form: &UnionForm, member: &Member) -> bool
    ensures { result ≡ is_key_taken schema.now form.now member.now }
{
    match form {
        UnionForm::Inline(key) => has_field(schema, member.ty, key),
        _ => false,
    }
}

/// Marks the name of a member as had, where it has what the union asks for. The answer tells whether it was, or the
/// discriminant is that of a member before it, or the key of the union is the name of a field of the member.
fn is_member_seen(
    schema: &Schema,
    ty: TypeNo,
    part: usize,
    names: &mut [bool],
    form: &UnionForm,
    member: &Member,
) -> bool
    requires within { ty.0 < length schema.now }
    requires room { IfSome (def_at schema.now ty.0) (λ def. parts_of def ≤ length names.old) }
    ensures was { result ≡ is_member_seen schema.now ty.0 part names.old form.now member.now }
    ensures size { length names.new ≡ length names.old }
    ensures names { (o : Option ℕ) → is_seen names.new o ≡ cond (is_marked form.now member.now && is_one o (first_named schema.now ty.0 member.now.name)) true (is_seen names.old o) }
{
    is_marked(form, member)
        && (see_name(schema, ty, names, &member.name)
            || is_told_before(schema, ty, part, form, member)
            || is_key_taken(schema, form, member))
}

fn member_again(
    alloc: Global,
    schema: &Schema,
    ty: TypeNo,
    def: &UnionDef,
) -> Result<Option<usize>, AllocError>
    requires within { ty.0 < length schema.now }
    requires def { def_at schema.now ty.0 ≡ Some (D.Union def.now) }
    ensures { IfOk result (λ place. place ≡ first_beside (is_member_again schema.now def.now.form) (λ m. m.at) [] def.now.members) }
{
    let mut names = vec![in alloc; false; def.members.len()]?;
    for (part, member) in def.members.as_slice().iter().enumerate() {
        if is_member_seen(schema, ty, part, &mut names, &def.form, member) {
            return Ok(Some(member.at));
        }
    }
    Ok(None)
}

/// Whether the two keys of an envelope are one.
fn has_one_key(form: &UnionForm) -> bool
    ensures { result ≡ has_one_key form.now }
{
    match form {
        UnionForm::Envelope(discriminant, content) => discriminant.as_str() == content.as_str(),
        _ => false,
    }
}

fn again_in_union(
    alloc: Global,
    schema: &Schema,
    ty: TypeNo,
    at: usize,
    def: &UnionDef,
) -> Result<Option<usize>, AllocError>
    requires within { ty.0 < length schema.now }
    requires def { def_at schema.now ty.0 ≡ Some (D.Union def.now) }
    ensures { IfOk result (λ place. place ≡ (if has_one_key def.now.form then Some at else first_beside (is_member_again schema.now def.now.form) (λ m. m.at) [] def.now.members)) }
{
    if has_one_key(&def.form) {
        Ok(Some(at))
    } else {
        member_again(alloc, schema, ty, def)
    }
}

/// No two names or texts are equal by which parts are told apart. The fault is that of the type at a place.
pub fn name_fault(
    alloc: Global,
    schema: &Schema,
    ty: TypeNo,
    at: usize,
    def: &TypeDef,
) -> Result<Option<usize>, AllocError>
    requires within { ty.0 < length schema.now }
    requires def { def_at schema.now ty.0 ≡ Some def.now }
    ensures { IfOk result (λ place. place ≡ name_fault schema.now at def.now) }
{
    match def {
        TypeDef::Struct(s) => Ok(field_again(schema, ty, s)),
        TypeDef::Enum(e) => again_in_enum(alloc, schema, ty, e),
        TypeDef::Union(u) => again_in_union(alloc, schema, ty, at, u),
        _ => Ok(None),
    }
}
