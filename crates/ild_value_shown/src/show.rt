//! The shown form of values.
ghost use Rattle.std.specs.Prelude.{◌≡◌, ◌<◌, ◌∷◌, [], IfOk, IfSome, Some, length, map, option_map, slice_get};
ghost use Rattle.std.specs.Option.{option_and_then, option_map_or};
ghost use Rattle.ild_data.specs.Data.{members_list, members_of, no_items};
ghost use Rattle.ild_data.specs.Seen.{data_of, pair_of};
ghost use Rattle.std.specs.List.{All};
ghost use Rattle.ild_schema.specs.Slots.{form_of};
ghost use Rattle.ild_schema.specs.Table.{IsWithin};
ghost use Rattle.ild_schema.specs.Value.{optionals_list};
ghost use Rattle.ild_schema.specs.ValueSeen.{value_of};
ghost use Rattle.ild_typed.specs.Shown.{shown, shown_fields, shown_pairs, shown_values};
ghost use Rattle.ild_typed.specs.Slots.{element_of, enum_member_at, fields_of, member_at, slot_of};
ghost use Rattle.ild_typed.specs.Strings.{in_key_order};

use crate::order::in_order;
use ild_data::{Entries, Tree, Trees, Txt};
use ild_schema::{Accepted, Field, Member, Slot, TypeDef, Val, ValFields, ValPairs, ValPart, Vals};
use std::alloc::{AllocError, Global};

/// The shown form of a value of a slot: by the names of the schema, whatever the strategies. Implicit fields are shown, and the
/// entries of each map stand in the key order. Of a value that isn't of the slot's type, parts without a slot are left out.
#[cycle(show)]
pub fn shown(alloc: Global, acc: &Accepted, slot: Slot, val: &Val) -> Result<Tree, AllocError>
    requires { slot.ty.0 < length acc.now }
    ensures { IfOk result (λ t. data_of t ≡ shown acc.now slot (value_of val.now)) }
{
    match val {
        Val::Null => Ok(Tree::Null),
        Val::Bool(b) => Ok(Tree::Bool(*b)),
        Val::Int(n) => Ok(Tree::Int(*n)),
        Val::Text(text) => Ok(Tree::Text(text.copy()?)),
        Val::Bytes(bytes) => Ok(Tree::Bytes(bytes.copy()?)),
        Val::Link(cid) => Ok(Tree::Link(cid.copy()?)),
        Val::List(vals) => Ok(Tree::List(elements(alloc, acc, slot, vals)?)),
        Val::Map(pairs) => Ok(Tree::Map(entries(alloc, acc, slot, pairs)?)),
        Val::Struct(fields) => Ok(Tree::Map(fields_in(alloc, acc, slot, fields)?)),
        Val::Union(n, part) => Ok(Tree::Map(member(alloc, acc, slot, *n, part)?)),
        Val::Enum(n) => Ok(Tree::Text(enum_name(alloc, acc, slot, *n)?)),
        Val::Unit => Ok(Tree::Map(Entries::new(alloc))),
        Val::Any(tree) => Ok(tree.copy()?),
    }
}

// What the table says of a slot's type, copies followed.
fn form(acc: &Accepted, slot: Slot) -> &TypeDef
    requires { slot.ty.0 < length acc.now }
    ensures form { form_of acc.now slot ≡ Some result.now }
    ensures within { IsWithin (length acc.now) result.now }
{
    acc.def(acc.base(slot.ty))
}

// The slot of a list's elements, or of a map's values.
fn element(acc: &Accepted, slot: Slot) -> Option<Slot>
    requires { slot.ty.0 < length acc.now }
    ensures same { result ≡ element_of (form_of acc.now slot) }
    ensures within { IfSome result (λ elem. elem.ty.0 < length acc.now) }
{
    match form(acc, slot) {
        TypeDef::List { elem, .. } => Some(*elem),
        TypeDef::Map { value, .. } => Some(*value),
        _ => None,
    }
}

// The name of an enum's member.
fn enum_name(alloc: Global, acc: &Accepted, slot: Slot, n: u32) -> Result<Txt, AllocError>
    requires { slot.ty.0 < length acc.now }
    ensures { IfOk result (λ t. t ≡ option_map_or (λ m. m.name) (enum_member_at (form_of acc.now slot) n) []) }
{
    match form(acc, slot) {
        TypeDef::Enum(def) => match def.members.get(n as usize) {
            Some(member) => member.name.copy(),
            None => Txt::of(alloc, ""),
        },
        _ => Txt::of(alloc, ""),
    }
}

// The elements of a list.
#[cycle(show)]
fn elements(alloc: Global, acc: &Accepted, slot: Slot, vals: &Vals) -> Result<Trees, AllocError>
    requires { slot.ty.0 < length acc.now }
    ensures { IfOk result (λ ts. ts ≡ option_map_or (λ u. shown_values acc.now u vals.now) (element_of (form_of acc.now slot)) no_items) }
{
    match element(acc, slot) {
        Some(elem) => trees_in(alloc, acc, elem, vals),
        None => Ok(Trees::new(alloc)),
    }
}

// The elements of a list, each in this slot.
#[cycle(show)]
fn trees_in(alloc: Global, acc: &Accepted, elem: Slot, vals: &Vals) -> Result<Trees, AllocError>
    requires { elem.ty.0 < length acc.now }
    ensures { IfOk result (λ ts. ts ≡ shown_values acc.now elem vals.now) }
{
    let mut trees = Trees::new(alloc);
    while let Some(val) = vals.get(trees.len()) {
        let tree = shown(alloc, acc, elem, val)?;
        trees.push(tree)?;
    }
    Ok(trees)
}

// The entries of a map.
#[cycle(show)]
fn entries(
    alloc: Global,
    acc: &Accepted,
    slot: Slot,
    vals: &ValPairs,
) -> Result<Entries, AllocError>
    requires { slot.ty.0 < length acc.now }
    ensures { IfOk result (λ es. es ≡ members_of (option_map_or (λ u. in_key_order (shown_pairs acc.now u vals.now)) (element_of (form_of acc.now slot)) [])) }
{
    match element(acc, slot) {
        Some(elem) => in_order(alloc, pairs_in(alloc, acc, elem, vals)?),
        None => Ok(Entries::new(alloc)),
    }
}

// The entries of a map in its own order.
#[cycle(show)]
fn pairs_in(
    alloc: Global,
    acc: &Accepted,
    elem: Slot,
    vals: &ValPairs,
) -> Result<Vec<(Txt, Tree)>, AllocError>
    requires { elem.ty.0 < length acc.now }
    ensures { IfOk result (λ ps. map pair_of ps.items ≡ shown_pairs acc.now elem vals.now) }
{
    let mut pairs = Vec::new(alloc);
    while let Some(pair) = vals.get(pairs.len()) {
        let key = pair.0.copy()?;
        let tree = shown(alloc, acc, elem, &pair.1)?;
        pairs.push((key, tree))?;
    }
    Ok(pairs)
}

// The fields of a struct that are present.
#[cycle(show)]
fn fields_in(
    alloc: Global,
    acc: &Accepted,
    slot: Slot,
    vals: &ValFields,
) -> Result<Entries, AllocError>
    requires { slot.ty.0 < length acc.now }
    ensures { IfOk result (λ es. es ≡ members_of (in_key_order (shown_fields acc.now (fields_of (form_of acc.now slot)) vals.now))) }
{
    match form(acc, slot) {
        TypeDef::Struct(def) => in_order(alloc, present(alloc, acc, def.fields.as_slice(), vals)?),
        _ => Ok(Entries::new(alloc)),
    }
}

// The value of a field, where there is one.
fn field_at(vals: &ValFields, i: usize) -> Option<&Val>
    ensures { option_map (λ v. value_of v.now) result ≡ option_and_then (λ o. o) (slice_get (optionals_list vals.now) i) }
{
    match vals.get(i) {
        Some(field) => field.as_ref(),
        None => None,
    }
}

// The fields that are present, by their names in the order of the type.
#[cycle(show)]
fn present(
    alloc: Global,
    acc: &Accepted,
    fields: &[Field],
    vals: &ValFields,
) -> Result<Vec<(Txt, Tree)>, AllocError>
    requires { All (λ f. f.slot.ty.0 < length acc.now) fields.now }
    ensures { IfOk result (λ ps. map pair_of ps.items ≡ shown_fields acc.now fields.now vals.now) }
{
    let mut pairs = Vec::new(alloc);
    for i in 0..fields.len() {
        let Some(val) = field_at(vals, i) else {
            continue;
        };
        let field = &fields[i];
        let key = field.name.copy()?;
        let tree = shown(alloc, acc, field.slot, val)?;
        pairs.push((key, tree))?;
    }
    Ok(pairs)
}

// The member of a union under its name.
#[cycle(show)]
fn member(
    alloc: Global,
    acc: &Accepted,
    slot: Slot,
    n: u32,
    part: &ValPart,
) -> Result<Entries, AllocError>
    requires { slot.ty.0 < length acc.now }
    ensures { IfOk result (λ es. es ≡ members_of (option_map_or (λ m. (m.name, shown acc.now (slot_of m) part.now) ∷ []) (member_at (form_of acc.now slot) n) [])) }
{
    match union_member(acc, slot, n) {
        Some(member) => named(alloc, acc, member, part),
        None => Ok(Entries::new(alloc)),
    }
}

// A value of a member under the member's name.
#[cycle(show)]
fn named(
    alloc: Global,
    acc: &Accepted,
    member: &Member,
    part: &ValPart,
) -> Result<Entries, AllocError>
    requires { member.now.ty.0 < length acc.now }
    ensures { IfOk result (λ es. es ≡ members_of ((member.now.name, shown acc.now (slot_of member.now) part.now) ∷ [])) }
{
    let slot = Slot {
        ty: member.ty,
        nullable: false,
    };
    let key = member.name.copy()?;
    let tree = shown(alloc, acc, slot, part.get())?;
    let mut entries = Entries::new(alloc);
    entries.put(key, tree)?;
    Ok(entries)
}

// The member of a union with a number.
fn union_member(acc: &Accepted, slot: Slot, n: u32) -> Option<&Member>
    requires { slot.ty.0 < length acc.now }
    ensures same { option_map (λ m. m.now) result ≡ member_at (form_of acc.now slot) n }
    ensures within { IfSome result (λ m. m.now.ty.0 < length acc.now) }
{
    match form(acc, slot) {
        TypeDef::Union(def) => match def.members.get(n as usize) {
            Some(member) => Some(member),
            None => None,
        },
        _ => None,
    }
}
