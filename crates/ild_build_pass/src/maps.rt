//! Maps, written: as maps, as lists of pairs, as texts and as HAMTs.
ghost use Rattle.std.specs.Prelude.{◌≡◌, ◌<◌, OnOk, OnErr, length, List, ℕ, option_map, slice_get};
ghost use Rattle.ild_emit.specs.Grown.{IsGrown};
ghost use Rattle.ild_schema.specs.Value as V;
ghost use Rattle.ild_schema.specs.Value.{Value, pairs_list};
ghost use Rattle.ild_schema.specs.ValueSeen.{value_of};
ghost use Rattle.ild_typed.specs.Hamt.{whole};
ghost use Rattle.ild_build_leaf.specs.Made.{made};
ghost use Rattle.ild_build_pass.specs.inside.Made.{entry_made};
ghost use Rattle.ild_build_pass.specs.Fitting.{EntriesFit, FitsIn, HamtFits};
ghost use Rattle.ild_build_pass.specs.Weights.{weigh};
ghost use Rattle.ild_build_pass.specs.Writes.{Writes};
ghost use Rattle.ild_build_pass.specs.inside.Written.{WritesEntries, WritesHamt};

use crate::fronts::open_entry;
use crate::pass::add;
use ild_build::form_of;
use ild_build_entries::{Nodes, add_root, end_entry, no_entries};
use ild_build_leaf::{add_as_text, add_count, add_key};
use ild_data::{HamtShape, KeyHash};
use ild_emit::Emit;
use ild_schema::{Accepted, MapForm, Slot, TypeDef, Val, ValPairs};
use std::alloc::{AllocError, Global};

// The key and the value of the entry at a place, or `None` past the last.
#[inline(always)]
fn entry_at(pairs: &ValPairs, place: usize) -> Option<(&str, &Val)>
    ensures { option_map {U = List ℕ × Value} (λ e. (e.0.now, value_of e.1.now)) result ≡ slice_get (pairs_list pairs.now) place }
{
    match pairs.get(place) {
        Some(pair) => Some((pair.0.as_str(), &pair.1)),
        None => None,
    }
}

// Appends a map.
#[cycle(pass)]
#[inline(never)]
pub(crate) fn add_map<H: KeyHash>(
    alloc: Global,
    acc: &Accepted,
    keys: &H,
    slot: Slot,
    val: &Val,
    pairs: &ValPairs,
    nodes: &mut Nodes,
    out: &mut Emit,
) -> Result<(), AllocError>
    requires within { slot.ty.0 < length acc.now }
    requires same { value_of val.now ≡ V.map pairs.now }
    requires fits { FitsIn acc.now slot (V.map pairs.now) }
    ensures ok { OnOk result (Writes H.hash_of acc.now (made (whole H.hash_of) acc.now slot (V.map pairs.now)) (λ μ. weigh μ acc.now slot (V.map pairs.now)) out.old out.new nodes.old nodes.new) }
    ensures err { OnErr result (IsGrown out.old out.new) }
{
    acc.recall();
    match form_of(acc, slot) {
        TypeDef::Map { value, form, .. } => match form {
            MapForm::Map => add_pairs(alloc, acc, keys, *value, pairs, false, nodes, out),
            MapForm::ListPairs => add_pairs(alloc, acc, keys, *value, pairs, true, nodes, out),
            MapForm::StringPairs(_, _) => add_as_text(alloc, acc, slot, val, out),
            MapForm::Hamt(shape) => add_hamt(alloc, acc, keys, *shape, *value, pairs, nodes, out),
        },
        _ => Ok(()),
    }
}

// Appends the count of entries, and each, as entries of a map or as pairs.
#[cycle(pass)]
fn add_pairs<H: KeyHash>(
    alloc: Global,
    acc: &Accepted,
    keys: &H,
    value: Slot,
    pairs: &ValPairs,
    paired: bool,
    nodes: &mut Nodes,
    out: &mut Emit,
) -> Result<(), AllocError>
    requires within { value.ty.0 < length acc.now }
    requires fits { EntriesFit acc.now value (pairs_list pairs.now) }
    ensures ok { OnOk result (WritesEntries H.hash_of acc.now value (pairs_list pairs.now) paired out.old out.new nodes.old nodes.new) }
    ensures err { OnErr result (IsGrown out.old out.new) }
{
    add_count(paired, pairs.len(), out)?;
    for i in 0..pairs.len() {
        let Some((key, val)) = entry_at(pairs, i) else {
            return Ok(());
        };
        add_entry(alloc, acc, keys, key, value, val, paired, nodes, out)?;
    }
    Ok(())
}

// Appends the root map of a HAMT of this shape. The blocks beneath its root go to the others, behind those of its values.
#[cycle(pass)]
fn add_hamt<H: KeyHash>(
    alloc: Global,
    acc: &Accepted,
    keys: &H,
    shape: HamtShape,
    value: Slot,
    pairs: &ValPairs,
    nodes: &mut Nodes,
    out: &mut Emit,
) -> Result<(), AllocError>
    requires within { value.ty.0 < length acc.now }
    requires fits { HamtFits acc.now value (pairs_list pairs.now) }
    ensures ok { OnOk result (WritesHamt H.hash_of acc.now value shape pairs.now out.old out.new nodes.old nodes.new) }
    ensures err { OnErr result (IsGrown out.old out.new) }
{
    acc.recall();
    let mut entries = no_entries(alloc, pairs.len())?;
    for i in 0..pairs.len() {
        let Some((key, val)) = entry_at(pairs, i) else {
            return Ok(());
        };
        let begun = open_entry(key, &mut entries)?;
        add(alloc, acc, keys, value, val, nodes, &mut entries.out)?;
        end_entry(keys, key, begun.from, begun.value_from, nodes, &mut entries)?;
    }
    add_root(alloc, shape, entries, nodes, out)
}

// Appends a key and its value, as an entry of a map or as a pair.
#[cycle(pass)]
#[inline(always)]
pub(crate) fn add_entry<H: KeyHash>(
    alloc: Global,
    acc: &Accepted,
    keys: &H,
    key: &str,
    slot: Slot,
    val: &Val,
    paired: bool,
    nodes: &mut Nodes,
    out: &mut Emit,
) -> Result<(), AllocError>
    requires within { slot.ty.0 < length acc.now }
    requires fits { FitsIn acc.now slot (value_of val.now) }
    ensures ok { OnOk result (Writes H.hash_of acc.now (entry_made (whole H.hash_of) acc.now paired key.now slot (value_of val.now))
        (λ μ. weigh μ acc.now slot (value_of val.now)) out.old out.new nodes.old nodes.new) }
    ensures err { OnErr result (IsGrown out.old out.new) }
{
    add_key(paired, key, out)?;
    add(alloc, acc, keys, slot, val, nodes, out)
}
