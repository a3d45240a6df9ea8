//! The root map around a node.
ghost use Rattle.std.specs.Prelude.{◌≡◌, IfErr, IfOk};
ghost use Rattle.ild_data.specs.Data.{Data};
ghost use Rattle.ild_data.specs.Spell.{spell};
ghost use Rattle.ild_path_reroot.specs.Reroots.{IsWritingFault, MakesRoot};
ghost use Rattle.ild_typed.specs.Hamt.{root_map};

use ild_data::{HamtShape, LONGEST_BLOCK, Octets};
use ild_emit::Emit;
use ild_node::HamtFault;
use std::alloc::{AllocError, Global};

/// Room for what stands around the node in a root map.
const AROUND_ROOM: usize = 40;

// The spelling of the root map of a HAMT of this shape, by that of its own node.
fn written(alloc: Global, shape: HamtShape, node: &[u8]) -> Result<Octets, AllocError>
    ensures { (t : Data) → node.now ≡ spell t → IfOk result (λ b. b ≡ spell (root_map shape t)) }
{
    let mut out = Emit::with_room(alloc, node.len().saturating_add(AROUND_ROOM))?;
    out.head(5, 3)?;
    out.text("hamt")?;
    out.spelled(node)?;
    out.text("hashAlg")?;
    out.head(0, 18)?;
    out.text("bucketSize")?;
    out.head(0, shape.bucket as u64)?;
    Ok(out.finish())
}

/// The root map of the HAMT of this shape whose root node was just spelled: it isn't read again.
pub(crate) fn root_around(
    alloc: Global,
    shape: HamtShape,
    node: &Octets,
) -> Result<Octets, HamtFault>
    ensures made { (t : Data) → node.now ≡ spell t → MakesRoot (spell (root_map shape t)) result }
    ensures fault { IfErr result IsWritingFault }
{
    let map = written(alloc, shape, node.as_slice())?;
    if map.as_slice().len() > LONGEST_BLOCK {
        return Err(HamtFault::Size);
    }
    Ok(map)
}
