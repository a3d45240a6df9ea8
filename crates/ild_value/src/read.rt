//! The values that trees mean. The walk goes down the tree, each part by the type of its place, and takes the parts over.
ghost use Rattle.std.specs.Prelude.{◌≡◌, ◌<◌, IfErr, IfOk, Some, length, option_map};
ghost use Rattle.ild_data.specs.Data as D;
ghost use Rattle.ild_data.specs.Data.{Members, members_list};
ghost use Rattle.ild_data.specs.Key.{value_at};
ghost use Rattle.ild_data.specs.Seen.{data_of};
ghost use Rattle.ild_schema.specs.Slots.{form_of};
ghost use Rattle.ild_schema.specs.Table.{IsWithin};
ghost use Rattle.ild_schema.specs.Value as V;
ghost use Rattle.ild_schema.specs.ValueSeen.{optional_of, value_of};
ghost use Rattle.ild_schema.specs.declared.def.TypeDef.TheVariants as T;
ghost use Rattle.ild_value.specs.inside.Parts.{FieldMeans, IsFieldRefused, IsReadAs};
ghost use Rattle.ild_value.specs.Readings.{IsListOf, IsMapOf, IsRefused, IsUnit};

use crate::entry::{only, take_value};
use crate::part::{are_named, left_out, member_named};
use crate::scalar::{
    boolean_value, bytes_value, form, integer_value, link_value, null_value, text_value, wrong_kind,
};
use crate::{ShownErr, ShownRule};
use ild_data::{Entries, Tree, Trees};
use ild_schema::{
    Accepted, Field, Slot, StructDef, TypeDef, TypeNo, UnionDef, Val, ValFields, ValPairs, ValPart,
    Vals,
};
use ild_view_walk::is_text;
use std::alloc::Global;

/// A tree. It is entered once a level of the tree, of which there are at most 127 in one that was read from JSON.
#[cycle(read)]
pub(crate) fn tree_value(
    alloc: Global,
    acc: &Accepted,
    slot: Slot,
    tree: Tree,
) -> Result<Val, ShownErr>
    requires { slot.ty.0 < length acc.now }
    ensures ok { IfOk result (λ v. IsReadAs acc.now slot (data_of tree) (value_of v)) }
    ensures err { IfErr result (IsRefused acc.now slot (data_of tree)) }
{
    match tree {
        Tree::Null => null_value(slot),
        Tree::Bool(b) => boolean_value(acc, slot, b),
        Tree::Int(n) => integer_value(acc, slot, n),
        Tree::Text(text) => text_value(acc, slot, text),
        Tree::Bytes(bytes) => bytes_value(acc, slot, bytes),
        Tree::List(trees) => list_value(alloc, acc, slot, trees),
        Tree::Map(entries) => map_value(alloc, acc, slot, entries),
        Tree::Link(cid) => link_value(acc, slot, cid),
    }
}

// A list.
#[cycle(read)]
fn list_value(alloc: Global, acc: &Accepted, slot: Slot, trees: Trees) -> Result<Val, ShownErr>
    requires { slot.ty.0 < length acc.now }
    ensures ok { IfOk result (λ v. IsReadAs acc.now slot (D.list trees) (value_of v)) }
    ensures err { IfErr result (IsRefused acc.now slot (D.list trees)) }
{
    match form(acc, slot) {
        TypeDef::List { elem, .. } => Ok(Val::List(elements(alloc, acc, slot, *elem, trees)?)),
        TypeDef::Any => Ok(Val::Any(Tree::List(trees))),
        _ => Err(wrong_kind(slot)),
    }
}

// The elements of a list.
#[cycle(read)]
fn elements(
    alloc: Global,
    acc: &Accepted,
    slot: Slot,
    elem: Slot,
    trees: Trees,
) -> Result<Vals, ShownErr>
    requires there { elem.ty.0 < length acc.now }
    requires form { IsListOf acc.now slot elem }
    ensures ok { IfOk result (λ vals. IsReadAs acc.now slot (D.list trees) (V.list vals)) }
    ensures err { IfErr result (IsRefused acc.now slot (D.list trees)) }
{
    let mut vals = Vals::with_room(alloc, trees.len())?;
    for tree in trees.into_vec() {
        let val = tree_value(alloc, acc, elem, tree)?;
        vals.push(val)?;
    }
    Ok(vals)
}

// A map.
#[cycle(read)]
fn map_value(alloc: Global, acc: &Accepted, slot: Slot, entries: Entries) -> Result<Val, ShownErr>
    requires { slot.ty.0 < length acc.now }
    ensures ok { IfOk result (λ v. IsReadAs acc.now slot (D.map entries) (value_of v)) }
    ensures err { IfErr result (IsRefused acc.now slot (D.map entries)) }
{
    match form(acc, slot) {
        TypeDef::Map { key, value, .. } => Ok(Val::Map(pairs(
            alloc, acc, slot, *key, *value, entries,
        )?)),
        TypeDef::Struct(def) => Ok(Val::Struct(fields(alloc, acc, slot, def, entries)?)),
        TypeDef::Union(def) => union_value(alloc, acc, slot, def, entries),
        TypeDef::Unit(_) => unit_value(acc, slot, &entries),
        TypeDef::Any => Ok(Val::Any(Tree::Map(entries))),
        _ => Err(wrong_kind(slot)),
    }
}

// A unit, which is shown as the empty map.
fn unit_value(acc: &Accepted, slot: Slot, entries: &Entries) -> Result<Val, ShownErr>
    requires { IsUnit acc.now slot }
    ensures ok { IfOk result (λ v. IsReadAs acc.now slot (D.map entries.now) (value_of v)) }
    ensures err { IfErr result (IsRefused acc.now slot (D.map entries.now)) }
{
    if entries.len() == 0 {
        Ok(Val::Unit)
    } else {
        Err(ShownErr::Mismatch {
            ty: slot.ty,
            rule: ShownRule::Name,
        })
    }
}

// The entries of a map.
#[cycle(read)]
fn pairs(
    alloc: Global,
    acc: &Accepted,
    slot: Slot,
    key: TypeNo,
    elem: Slot,
    entries: Entries,
) -> Result<ValPairs, ShownErr>
    requires key_there { key.0 < length acc.now }
    requires there { elem.ty.0 < length acc.now }
    requires form { IsMapOf acc.now slot key elem }
    ensures ok { IfOk result (λ pairs. IsReadAs acc.now slot (D.map entries) (V.map pairs)) }
    ensures err { IfErr result (IsRefused acc.now slot (D.map entries)) }
{
    let mut vals = ValPairs::with_room(alloc, entries.len())?;
    for (name, tree) in entries.into_vec() {
        let is_key = is_text(alloc, acc, key, name.as_str())?;
        if !is_key {
            return Err(ShownErr::Mismatch {
                ty: slot.ty,
                rule: ShownRule::Key,
            });
        }
        let val = tree_value(alloc, acc, elem, tree)?;
        vals.push((name, val))?;
    }
    Ok(vals)
}

// The fields of a struct.
#[cycle(read)]
fn fields(
    alloc: Global,
    acc: &Accepted,
    slot: Slot,
    def: &StructDef,
    entries: Entries,
) -> Result<ValFields, ShownErr>
    requires there { slot.ty.0 < length acc.now }
    requires form { form_of acc.now slot ≡ Some (T.Struct def.now) }
    requires within { IsWithin (length acc.now) (T.Struct def.now) }
    ensures ok { IfOk result (λ fields. IsReadAs acc.now slot (D.map entries) (V.struct fields)) }
    ensures err { IfErr result (IsRefused acc.now slot (D.map entries)) }
{
    acc.recall();
    if !are_named(acc, slot, def, &entries) {
        return Err(ShownErr::Mismatch {
            ty: slot.ty,
            rule: ShownRule::Name,
        });
    }
    let mut left = entries.into_vec();
    let mut vals = ValFields::new(alloc);
    for field in def.fields.as_slice() {
        let tree = take_value(&mut left, field.name.as_str());
        let val = field_value(alloc, acc, slot.ty, field, tree)?;
        vals.push(val)?;
    }
    Ok(vals)
}

// A field of a struct, by what stands under its name.
#[cycle(read)]
fn field_value(
    alloc: Global,
    acc: &Accepted,
    ty: TypeNo,
    field: &Field,
    tree: Option<Tree>,
) -> Result<Option<Val>, ShownErr>
    requires { field.now.slot.ty.0 < length acc.now }
    ensures ok { (ms : Members) → option_map data_of tree ≡ value_at field.now.name (members_list ms) → IfOk result (λ val. FieldMeans acc.now field.now ms (optional_of val)) }
    ensures err { (ms : Members) → option_map data_of tree ≡ value_at field.now.name (members_list ms) → IfErr result (IsFieldRefused acc.now ty field.now ms) }
{
    match tree {
        Some(tree) => {
            let val = tree_value(alloc, acc, field.slot, tree)?;
            Ok(Some(val))
        }
        None => left_out(ty, field),
    }
}

// A union.
#[cycle(read)]
fn union_value(
    alloc: Global,
    acc: &Accepted,
    slot: Slot,
    def: &UnionDef,
    entries: Entries,
) -> Result<Val, ShownErr>
    requires there { slot.ty.0 < length acc.now }
    requires form { form_of acc.now slot ≡ Some (T.Union def.now) }
    requires within { IsWithin (length acc.now) (T.Union def.now) }
    ensures ok { IfOk result (λ v. IsReadAs acc.now slot (D.map entries) (value_of v)) }
    ensures err { IfErr result (IsRefused acc.now slot (D.map entries)) }
{
    let Some((name, tree)) = only(entries) else {
        return Err(no_member(slot));
    };
    let Some(n) = member_named(acc, slot, def, name.as_str()) else {
        return Err(no_member(slot));
    };
    let part = Slot {
        ty: def.members.as_slice()[n].ty,
        nullable: false,
    };
    let val = tree_value(alloc, acc, part, tree)?;
    Ok(Val::Union(n as u32, ValPart::new(alloc, val)?))
}

// The map hasn't one entry under the name of a member.
fn no_member(slot: Slot) -> ShownErr
    ensures { result ≡ ShownErr.Mismatch slot.ty ShownRule.Member }
{
    ShownErr::Mismatch {
        ty: slot.ty,
        rule: ShownRule::Member,
    }
}
