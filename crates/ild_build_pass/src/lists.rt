//! Lists, written.
ghost use Rattle.std.specs.Prelude.{◌<◌, OnOk, OnErr, length};
ghost use Rattle.ild_emit.specs.Grown.{IsGrown};
ghost use Rattle.ild_schema.specs.Value as V;
ghost use Rattle.ild_schema.specs.Value.{values_list};
ghost use Rattle.ild_typed.specs.Hamt.{whole};
ghost use Rattle.ild_build_leaf.specs.Made.{made};
ghost use Rattle.ild_build_pass.specs.Fitting.{FitsIn, ItemsFit};
ghost use Rattle.ild_build_pass.specs.Weights.{weigh};
ghost use Rattle.ild_build_pass.specs.Writes.{Writes};
ghost use Rattle.ild_build_pass.specs.inside.Written.{WritesItems};

use crate::pass::add;
use ild_build::form_of;
use ild_build_entries::Nodes;
use ild_data::KeyHash;
use ild_emit::Emit;
use ild_schema::{Accepted, Slot, TypeDef, Vals};
use std::alloc::{AllocError, Global};

// Appends a list.
#[cycle(pass)]
#[inline(never)]
pub(crate) fn add_list<H: KeyHash>(
    alloc: Global,
    acc: &Accepted,
    keys: &H,
    slot: Slot,
    vals: &Vals,
    nodes: &mut Nodes,
    out: &mut Emit,
) -> Result<(), AllocError>
    requires within { slot.ty.0 < length acc.now }
    requires fits { FitsIn acc.now slot (V.list vals.now) }
    ensures ok { OnOk result (Writes H.hash_of acc.now (made (whole H.hash_of) acc.now slot (V.list vals.now)) (λ μ. weigh μ acc.now slot (V.list vals.now)) out.old out.new nodes.old nodes.new) }
    ensures err { OnErr result (IsGrown out.old out.new) }
{
    match form_of(acc, slot) {
        TypeDef::List { elem, .. } => add_items(alloc, acc, keys, *elem, vals, nodes, out),
        _ => Ok(()),
    }
}

// Appends the count of elements, and each in this slot.
#[cycle(pass)]
fn add_items<H: KeyHash>(
    alloc: Global,
    acc: &Accepted,
    keys: &H,
    elem: Slot,
    vals: &Vals,
    nodes: &mut Nodes,
    out: &mut Emit,
) -> Result<(), AllocError>
    requires within { elem.ty.0 < length acc.now }
    requires fits { ItemsFit acc.now elem (values_list vals.now) }
    ensures ok { OnOk result (WritesItems H.hash_of acc.now elem (values_list vals.now) out.old out.new nodes.old nodes.new) }
    ensures err { OnErr result (IsGrown out.old out.new) }
{
    out.head(4, vals.len() as u64)?;
    for i in 0..vals.len() {
        let Some(val) = vals.get(i) else {
            return Ok(());
        };
        add(alloc, acc, keys, elem, val, nodes, out)?;
    }
    Ok(())
}
