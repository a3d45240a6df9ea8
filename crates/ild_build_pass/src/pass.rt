//! One pass over a value: each layer by the form of its type.
ghost use Rattle.std.specs.Prelude.{◌<◌, OnOk, OnErr, length};
ghost use Rattle.ild_emit.specs.Grown.{IsGrown};
ghost use Rattle.ild_schema.specs.ValueSeen.{value_of};
ghost use Rattle.ild_typed.specs.Hamt.{whole};
ghost use Rattle.ild_build_leaf.specs.Made.{made};
ghost use Rattle.ild_build_pass.specs.Fitting.{FitsIn};
ghost use Rattle.ild_build_pass.specs.Weights.{weigh};
ghost use Rattle.ild_build_pass.specs.Writes.{Writes};

use crate::lists::add_list;
use crate::maps::add_map;
use crate::structs::add_struct;
use crate::unions::add_union;
use ild_build_entries::Nodes;
use ild_build_leaf::add_leaf;
use ild_data::KeyHash;
use ild_emit::Emit;
use ild_schema::{Accepted, Slot, Val};
use std::alloc::{AllocError, Global};

/// Appends the spelling of a value's representation. The blocks of the nodes of its HAMTs go to the others, each behind its children,
/// and what stands against the value is noted there. An error is want of memory; it may leave the front of the spelling.
#[cycle(pass)]
#[inline(always)]
pub fn add<H: KeyHash>(
    alloc: Global,
    acc: &Accepted,
    keys: &H,
    slot: Slot,
    val: &Val,
    nodes: &mut Nodes,
    out: &mut Emit,
) -> Result<(), AllocError>
    requires within { slot.ty.0 < length acc.now }
    requires fits { FitsIn acc.now slot (value_of val.now) }
    ensures ok { OnOk result (Writes H.hash_of acc.now (made (whole H.hash_of) acc.now slot (value_of val.now)) (λ μ. weigh μ acc.now slot (value_of val.now)) out.old out.new nodes.old nodes.new) }
    ensures err { OnErr result (IsGrown out.old out.new) }
{
    match val {
        // Most values are one of these three: they are told from the others in one step.
        Val::Text(text) => out.text(text.as_str()),
        Val::Int(n) => out.int(*n),
        Val::Bool(b) => out.simple(Some(*b)),
        Val::List(vals) => add_list(alloc, acc, keys, slot, vals, nodes, out),
        Val::Map(pairs) => add_map(alloc, acc, keys, slot, val, pairs, nodes, out),
        Val::Struct(fields) => add_struct(alloc, acc, keys, slot, val, fields, nodes, out),
        Val::Union(number, part) => add_union(
            alloc, acc, keys, slot, val, *number, part, nodes, out,
        ),
        _ => add_leaf(acc, slot, val, out),
    }
}
