//! The list of a value's parts.
ghost use Rattle.std.specs.Prelude.{◌≡◌, ◌<◌, IfOk, length, map, option_map};
ghost use Rattle.std.specs.List.{All};
ghost use Rattle.ild_data.specs.Data.{items_list, members_list};
ghost use Rattle.ild_data.specs.Seen.{data_of};
ghost use Rattle.ild_script_meaning.specs.Reads.{walked};
ghost use Rattle.ild_schema.specs.Value.{optionals_list, pairs_list, values_list};
ghost use Rattle.ild_schema.specs.ValueSeen.{value_of};
ghost use Rattle.ild_typed.specs.At.{seen};
ghost use Rattle.ild_value_parts.specs.Lists.{IsAnyListed, IsListed, any_elements, any_entries, elements, entries, fields, show};

use crate::form::{field_at, form, number};
use crate::named::push_named;
use ild_data::{Entries, Tree, Trees};
use ild_schema::{Accepted, Field, Slot, TypeDef, Val, ValFields, ValPairs, Vals};
use ild_value_shown::shown;
use std::alloc::{AllocError, Global};

// The elements of a list under their indices.
fn elements(alloc: Global, acc: &Accepted, elem: Slot, vals: &Vals) -> Result<Trees, AllocError>
    requires { elem.ty.0 < length acc.now }
    ensures { IfOk result (λ ts. items_list ts ≡ elements acc.now elem (values_list vals.now)) }
{
    let mut pairs = Trees::new(alloc);
    while let Some(val) = vals.get(pairs.len()) {
        let part = shown(alloc, acc, elem, val)?;
        let name = number(pairs.len());
        push_named(alloc, &mut pairs, name, part)?;
    }
    Ok(pairs)
}

// The entries of a map under their keys.
fn entries(alloc: Global, acc: &Accepted, elem: Slot, vals: &ValPairs) -> Result<Trees, AllocError>
    requires { elem.ty.0 < length acc.now }
    ensures { IfOk result (λ ts. items_list ts ≡ entries acc.now elem (pairs_list vals.now)) }
{
    let mut pairs = Trees::new(alloc);
    while let Some(entry) = vals.get(pairs.len()) {
        let part = shown(alloc, acc, elem, &entry.1)?;
        let name = Tree::Text(entry.0.copy()?);
        push_named(alloc, &mut pairs, name, part)?;
    }
    Ok(pairs)
}

// The present fields under their names.
fn fields(
    alloc: Global,
    acc: &Accepted,
    declared: &[Field],
    vals: &ValFields,
) -> Result<Trees, AllocError>
    requires { All (λ f. f.slot.ty.0 < length acc.now) declared.now }
    ensures { IfOk result (λ ts. items_list ts ≡ fields acc.now declared.now (optionals_list vals.now)) }
{
    let mut pairs = Trees::new(alloc);
    for i in 0..declared.len() {
        let Some(val) = field_at(vals, i) else {
            continue;
        };
        let field = &declared[i];
        let part = shown(alloc, acc, field.slot, val)?;
        let name = Tree::Text(field.name.copy()?);
        push_named(alloc, &mut pairs, name, part)?;
    }
    Ok(pairs)
}

// The items of a list inside an Any.
fn any_elements(alloc: Global, items: &Trees) -> Result<Trees, AllocError>
    ensures { IfOk result (λ ts. items_list ts ≡ any_elements (items_list items.now)) }
{
    let mut pairs = Trees::new(alloc);
    while let Some(item) = items.get(pairs.len()) {
        let part = item.copy()?;
        let name = number(pairs.len());
        push_named(alloc, &mut pairs, name, part)?;
    }
    Ok(pairs)
}

// The entries of a map inside an Any.
fn any_entries(alloc: Global, members: &Entries) -> Result<Trees, AllocError>
    ensures { IfOk result (λ ts. items_list ts ≡ any_entries (members_list members.now)) }
{
    let mut pairs = Trees::new(alloc);
    while let Some((key, tree)) = members.get(pairs.len()) {
        let part = tree.copy()?;
        let name = Tree::Text(key.copy()?);
        push_named(alloc, &mut pairs, name, part)?;
    }
    Ok(pairs)
}

// Of data inside an Any.
fn parts_any(alloc: Global, tree: &Tree) -> Result<Option<Trees>, AllocError>
    ensures { IfOk result (IsAnyListed (data_of tree.now)) }
{
    match tree {
        Tree::List(items) => {
            let pairs = any_elements(alloc, items)?;
            Ok(Some(pairs))
        }
        Tree::Map(members) => {
            let pairs = any_entries(alloc, members)?;
            Ok(Some(pairs))
        }
        _ => Ok(None),
    }
}

// The parts of a value that has some.
fn listed(alloc: Global, acc: &Accepted, slot: Slot, val: &Val) -> Result<Option<Trees>, AllocError>
    requires { slot.ty.0 < length acc.now }
    ensures { IfOk result (IsListed acc.now slot val.now) }
{
    match val {
        Val::List(vals) => match form(acc, slot) {
            TypeDef::List { elem, .. } => {
                let pairs = elements(alloc, acc, *elem, vals)?;
                Ok(Some(pairs))
            }
            _ => Ok(None),
        },
        Val::Map(vals) => match form(acc, slot) {
            TypeDef::Map { value, .. } => {
                let pairs = entries(alloc, acc, *value, vals)?;
                Ok(Some(pairs))
            }
            _ => Ok(None),
        },
        Val::Struct(vals) => match form(acc, slot) {
            TypeDef::Struct(def) => {
                let pairs = fields(alloc, acc, def.fields.as_slice(), vals)?;
                Ok(Some(pairs))
            }
            _ => Ok(None),
        },
        Val::Any(tree) => parts_any(alloc, tree),
        _ => Ok(None),
    }
}

/// The list of the parts of a value, each a pair of its name, key or index and its shown form: present fields in the order of the type, entries and elements in
/// their own; nothing of a value without parts, and of a union.
pub fn parts(
    alloc: Global,
    acc: &Accepted,
    slot: Slot,
    val: &Val,
) -> Result<Option<Tree>, AllocError>
    requires { slot.ty.0 < length acc.now }
    ensures { IfOk result (λ o. option_map data_of o ≡ walked (show acc.now) (seen acc.now (slot, value_of val.now))) }
{
    match listed(alloc, acc, slot, val)? {
        Some(pairs) => Ok(Some(Tree::List(pairs))),
        None => Ok(None),
    }
}
