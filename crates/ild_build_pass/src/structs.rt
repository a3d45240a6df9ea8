//! Structs, written: as maps in the key order, as tuples, as lists of pairs and as texts.
ghost use Rattle.std.specs.Prelude.{◌≡◌, ◌<◌, OnOk, OnErr, Some, length, true};
ghost use Rattle.ild_emit.specs.Grown.{IsGrown};
ghost use Rattle.ild_schema.specs.Clear.{AreNamesApart};
ghost use Rattle.ild_schema.specs.Slots.{form_of};
ghost use Rattle.ild_schema.specs.Table.{IsWithin};
ghost use Rattle.ild_schema.specs.Value as V;
ghost use Rattle.ild_schema.specs.Value.{optionals_list};
ghost use Rattle.ild_schema.specs.ValueSeen.{value_of};
ghost use Rattle.ild_schema.specs.declared.def.TypeDef.TheVariants as D;
ghost use Rattle.ild_typed.specs.Hamt.{whole};
ghost use Rattle.ild_build_leaf.specs.Made.{made};
ghost use Rattle.ild_build_pass.specs.Fitting.{FitsIn, PlacesFit};
ghost use Rattle.ild_build_pass.specs.Weights.{weigh};
ghost use Rattle.ild_build_pass.specs.Writes.{Writes};
ghost use Rattle.ild_build_pass.specs.inside.Written.{WritesFields, WritesPairs, WritesPlaces, WritesTuple};

use crate::fronts::begin_fields;
use crate::maps::add_entry;
use crate::pass::add;
use ild_build::{field_at, form_of};
use ild_build_entries::Nodes;
use ild_build_leaf::{add_as_text, kept_at, present, written};
use ild_data::KeyHash;
use ild_emit::Emit;
use ild_schema::{Accepted, Slot, StructDef, StructForm, TypeDef, Val, ValFields, text_of_field};
use std::alloc::{AllocError, Global};

// Appends a struct.
#[cycle(pass)]
#[inline(never)]
pub(crate) fn add_struct<H: KeyHash>(
    alloc: Global,
    acc: &Accepted,
    keys: &H,
    slot: Slot,
    val: &Val,
    vals: &ValFields,
    nodes: &mut Nodes,
    out: &mut Emit,
) -> Result<(), AllocError>
    requires within { slot.ty.0 < length acc.now }
    requires same { value_of val.now ≡ V.struct vals.now }
    requires fits { FitsIn acc.now slot (V.struct vals.now) }
    ensures ok { OnOk result (Writes H.hash_of acc.now (made (whole H.hash_of) acc.now slot (V.struct vals.now)) (λ μ. weigh μ acc.now slot (V.struct vals.now)) out.old out.new nodes.old nodes.new) }
    ensures err { OnErr result (IsGrown out.old out.new) }
{
    acc.recall();
    match form_of(acc, slot) {
        TypeDef::Struct(def) => match def.form {
            StructForm::Map => add_fields(alloc, acc, keys, slot, def, vals, nodes, out),
            StructForm::Tuple => add_tuple(alloc, acc, keys, def, vals, nodes, out),
            StructForm::ListPairs => add_listed(alloc, acc, keys, def, vals, nodes, out),
            StructForm::StringPairs(_, _) => add_as_text(alloc, acc, slot, val, out),
            StructForm::StringJoin(_) => add_as_text(alloc, acc, slot, val, out),
        },
        _ => Ok(()),
    }
}

// Appends the values that are there, without their names.
#[cycle(pass)]
fn add_tuple<H: KeyHash>(
    alloc: Global,
    acc: &Accepted,
    keys: &H,
    def: &StructDef,
    vals: &ValFields,
    nodes: &mut Nodes,
    out: &mut Emit,
) -> Result<(), AllocError>
    requires within { IsWithin (length acc.now) (D.Struct def.now) }
    requires fits { PlacesFit acc.now def.now.fields (optionals_list vals.now) }
    ensures ok { OnOk result (WritesTuple H.hash_of acc.now def.now.fields (optionals_list vals.now) out.old out.new nodes.old nodes.new) }
    ensures err { OnErr result (IsGrown out.old out.new) }
{
    out.head(4, present(vals) as u64)?;
    for (i, field) in def.fields.as_slice().iter().enumerate() {
        let Some(val) = field_at(vals, i) else {
            continue;
        };
        add(alloc, acc, keys, field.slot, val, nodes, out)?;
    }
    Ok(())
}

// Appends the fields that are there and not left out as pairs, in the order of declaration.
#[cycle(pass)]
fn add_listed<H: KeyHash>(
    alloc: Global,
    acc: &Accepted,
    keys: &H,
    def: &StructDef,
    vals: &ValFields,
    nodes: &mut Nodes,
    out: &mut Emit,
) -> Result<(), AllocError>
    requires within { IsWithin (length acc.now) (D.Struct def.now) }
    requires fits { PlacesFit acc.now def.now.fields (optionals_list vals.now) }
    ensures ok { OnOk result (WritesPairs H.hash_of acc.now def.now.fields (optionals_list vals.now) out.old out.new nodes.old nodes.new) }
    ensures err { OnErr result (IsGrown out.old out.new) }
{
    out.head(4, written(&def.fields, vals) as u64)?;
    for (i, field) in def.fields.as_slice().iter().enumerate() {
        let Some(val) = kept_at(field, vals, i) else {
            continue;
        };
        let name = text_of_field(field);
        add_entry(alloc, acc, keys, name, field.slot, val, true, nodes, out)?;
    }
    Ok(())
}

// Appends the fields that are there and not left out as a map, in the key order.
#[cycle(pass)]
fn add_fields<H: KeyHash>(
    alloc: Global,
    acc: &Accepted,
    keys: &H,
    slot: Slot,
    def: &StructDef,
    vals: &ValFields,
    nodes: &mut Nodes,
    out: &mut Emit,
) -> Result<(), AllocError>
    requires low { slot.ty.0 < length acc.now }
    requires known { form_of acc.now slot ≡ Some (D.Struct def.now) }
    requires within { IsWithin (length acc.now) (D.Struct def.now) }
    requires fits { PlacesFit acc.now def.now.fields (optionals_list vals.now) }
    requires apart { AreNamesApart def.now.fields }
    ensures ok { OnOk result (WritesFields H.hash_of acc.now def.now.fields (optionals_list vals.now) out.old out.new nodes.old nodes.new) }
    ensures err { OnErr result (IsGrown out.old out.new) }
{
    let places = begin_fields(acc, slot, def, vals, out)?;
    add_places(alloc, acc, keys, def, vals, places, nodes, out)
}

// Appends those of the fields at these places that are there and not left out, each under its name.
#[cycle(pass)]
pub(crate) fn add_places<H: KeyHash>(
    alloc: Global,
    acc: &Accepted,
    keys: &H,
    def: &StructDef,
    vals: &ValFields,
    places: &[usize],
    nodes: &mut Nodes,
    out: &mut Emit,
) -> Result<(), AllocError>
    requires within { IsWithin (length acc.now) (D.Struct def.now) }
    requires fits { PlacesFit acc.now def.now.fields (optionals_list vals.now) }
    ensures ok { OnOk result (WritesPlaces H.hash_of acc.now def.now.fields (optionals_list vals.now) places.now out.old out.new nodes.old nodes.new) }
    ensures err { OnErr result (IsGrown out.old out.new) }
{
    for place in places {
        let Some(field) = def.fields.get(*place) else {
            continue;
        };
        let Some(part) = kept_at(field, vals, *place) else {
            continue;
        };
        let name = text_of_field(field);
        add_entry(alloc, acc, keys, name, field.slot, part, false, nodes, out)?;
    }
    Ok(())
}
