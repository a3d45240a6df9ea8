//! A value's blocks, planned: one pass over the value.
ghost use Rattle.std.specs.Prelude.{◌≡◌, ◌<◌, false, length};
ghost use Rattle.ild_data.specs.Limits.{deepest};
ghost use Rattle.ild_schema.specs.ValueSeen.{value_of};
ghost use Rattle.ild_typed.specs.Fits.{Fits};
ghost use Rattle.ild_typed.specs.Judged.{breaks_delimiter, has_hole};
ghost use Rattle.ild_typed.specs.Typed.{Typed};
ghost use Rattle.ild_build_blocks.specs.inside.Planned.{Plans};

use crate::fault::BuildFault;
use crate::planned::Planned;
use ild_build_entries::Nodes;
use ild_build_pass::add;
use ild_bulk::{any_long, is_long};
use ild_data::KeyHash;
use ild_emit::Emit;
use ild_schema::{Accepted, Slot, Val};
use std::alloc::Global;

/// The blocks of a value, or why there are none: first that a HAMT has no trie, and then that a block is too long.
pub(crate) fn plan<H: KeyHash>(
    alloc: Global,
    acc: &Accepted,
    slot: Slot,
    val: &Val,
    keys: &H,
) -> Result<Planned, BuildFault>
    requires within { slot.ty.0 < length acc.now }
    requires typed { Typed acc.now slot (value_of val.now) }
    requires hole { has_hole acc.now slot (value_of val.now) ≡ false }
    requires delimiter { breaks_delimiter acc.now slot (value_of val.now) ≡ false }
    requires fits { Fits acc.now deepest slot (value_of val.now) }
    ensures { Plans H.hash_of acc.now slot (value_of val.now) result }
{
    acc.recall();
    let mut nodes = Nodes {
        blocks: Vec::new(alloc),
        exhausted: false,
        long: false,
    };
    let mut out = Emit::new(alloc);
    add(alloc, acc, keys, slot, val, &mut nodes, &mut out)?;
    if nodes.exhausted {
        return Err(BuildFault::Exhausted);
    }
    let block = out.finish();
    let long = nodes.long | is_long(&block) | any_long(&nodes.blocks);
    if long {
        return Err(BuildFault::Size);
    }
    Ok(Planned {
        block,
        nodes: nodes.blocks,
    })
}
