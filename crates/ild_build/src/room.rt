//! Whether a value nests at most so many levels, its keys too.
ghost use Rattle.std.specs.Prelude.{◌≡◌, ◌<◌, ◌≤◌, ◌↔◌, IfOk, Some, length, true};
ghost use Rattle.ild_data.specs.Data.{depth, items_depth, members_depth};
ghost use Rattle.ild_data.specs.Seen.{data_of};
ghost use Rattle.ild_schema.specs.Table.{IsWithin};
ghost use Rattle.ild_schema.specs.Value as V;
ghost use Rattle.ild_schema.specs.ValueSeen.{value_of};
ghost use Rattle.ild_typed.specs.Fits.{Fits};
ghost use Rattle.ild_typed.specs.Levels.{levels_of, map_levels, struct_levels};
ghost use Rattle.ild_typed.specs.OfType.{OfType};
ghost use Rattle.ild_build.specs.inside.KeysIn.{IsPlainLayer, KeysIn};

use crate::form::form_of;
use crate::leaf::{has_leaves, is_leaf};
use crate::parts::{part_at, places};
use ild_data::{Entries, Tree, Trees};
use ild_schema::{Accepted, MapForm, Slot, StructForm, TypeDef, Val};
use ild_view_walk::fits_text;
use std::alloc::{AllocError, Global};

fn map_levels(form: &MapForm) -> u32
    ensures { result ≡ map_levels form.now }
{
    match form {
        MapForm::Map | MapForm::StringPairs(_, _) => 1,
        MapForm::ListPairs => 2,
        MapForm::Hamt(_) => 5,
    }
}

fn struct_levels(form: &StructForm) -> u32
    ensures { result ≡ struct_levels form.now }
{
    match form {
        StructForm::ListPairs => 2,
        _ => 1,
    }
}

// How many levels the form of a type takes, but for the data of Any.
fn levels_of(def: &TypeDef) -> u32
    ensures { result ≡ levels_of def.now V.null }
{
    match def {
        TypeDef::Unit(_) | TypeDef::List { .. } | TypeDef::Union(_) => 1,
        TypeDef::Map { form, .. } => map_levels(form),
        TypeDef::Struct(s) => struct_levels(&s.form),
        _ => 0,
    }
}

// Whether a tree nests at most so many levels.
#[cycle(tree)]
fn tree_fits(tree: &Tree, room: u32) -> bool
    ensures { (result ≡ true) ↔ depth (data_of tree.now) ≤ room }
{
    match tree {
        Tree::List(trees) => room > 0 && trees_fit(trees, room - 1),
        Tree::Map(entries) => room > 0 && entries_fit(entries, room - 1),
        _ => true,
    }
}

// Whether each of these trees does.
#[cycle(tree)]
fn trees_fit(trees: &Trees, room: u32) -> bool
    ensures { (result ≡ true) ↔ items_depth trees.now ≤ room }
{
    for part in trees.as_slice() {
        if !tree_fits(part, room) {
            return false;
        }
    }
    true
}

// And each of these entries.
#[cycle(tree)]
fn entries_fit(entries: &Entries, room: u32) -> bool
    ensures { (result ≡ true) ↔ members_depth entries.now ≤ room }
{
    for pair in entries.as_slice() {
        if !tree_fits(&pair.1, room) {
            return false;
        }
    }
    true
}

// Whether the keys of a layer nest at most so many levels.
fn keys_fit(
    alloc: Global,
    acc: &Accepted,
    def: &TypeDef,
    val: &Val,
    room: u32,
) -> Result<bool, AllocError>
    requires { IsWithin (length acc.now) def.now }
    ensures { IfOk result (λ b. KeysIn (OfType acc.now) acc.now def.now (value_of val.now) → (b ≡ true) ↔ KeysIn (Fits acc.now room) acc.now def.now (value_of val.now)) }
{
    match (def, val) {
        (TypeDef::Map { key, .. }, Val::Map(pairs)) => {
            let slot = Slot {
                ty: *key,
                nullable: false,
            };
            if is_leaf(acc, slot) {
                return Ok(true);
            }
            for i in 0..pairs.len() {
                if let Some(pair) = pairs.get(i) {
                    let fit = fits_text(alloc, acc, *key, pair.0.as_str(), room)?;
                    if !fit {
                        return Ok(false);
                    }
                }
            }
            Ok(true)
        }
        _ => Ok(true),
    }
}

/// Whether a value of a type nests at most so many levels.
#[cycle(room)]
pub(crate) fn fits(
    alloc: Global,
    acc: &Accepted,
    slot: Slot,
    val: &Val,
    room: u32,
) -> Result<bool, AllocError>
    requires { slot.ty.0 < length acc.now }
    ensures { IfOk result (λ b. OfType acc.now slot (value_of val.now) → (b ≡ true) ↔ Fits acc.now room slot (value_of val.now)) }
{
    match val {
        Val::Null => Ok(true),
        Val::Any(tree) => Ok(tree_fits(tree, room)),
        _ => layer_fits(alloc, acc, slot, val, room),
    }
}

// The same, where it is neither null nor of Any.
#[cycle(room)]
fn layer_fits(
    alloc: Global,
    acc: &Accepted,
    slot: Slot,
    val: &Val,
    room: u32,
) -> Result<bool, AllocError>
    requires { slot.ty.0 < length acc.now }
    ensures { IfOk result (λ b. IsPlainLayer (value_of val.now) → OfType acc.now slot (value_of val.now) → (b ≡ true) ↔ Fits acc.now room slot (value_of val.now)) }
{
    let def = form_of(acc, slot);
    let levels = levels_of(def);
    if room < levels {
        return Ok(false);
    }
    let left = room - levels;
    if has_leaves(acc, def) {
        return keys_fit(alloc, acc, def, val, left);
    }
    for i in 0..places(val) {
        if let Some((slot, part)) = part_at(def, val, i) {
            let fit = fits(alloc, acc, slot, part, left)?;
            if !fit {
                return Ok(false);
            }
        }
    }
    keys_fit(alloc, acc, def, val, left)
}
