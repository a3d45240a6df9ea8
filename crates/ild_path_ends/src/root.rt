//! Whether a block is one of a value.
ghost use Rattle.std.specs.Prelude.{IsTrue};
ghost use Rattle.ild_path_ends.specs.Roots.{HasBlock};
ghost use Rattle.ild_view.specs.View.{slot_of, table_of};

use ild_cbor::check;
use ild_data::Octets;
use ild_view::View;
use std::alloc::Global;

/// How many levels a value may nest.
const ROOM: u32 = 96;

/// Whether a block shows a value of the slot of a view. Without memory it isn't told.
pub(crate) fn is_block_of(alloc: Global, root: &View<'_>, block: &Octets) -> bool
    ensures { IsTrue result → ∥ HasBlock (table_of root.now) (slot_of root.now) block.now ∥₁ }
{
    match check(block.as_slice()) {
        Ok(node) => match View::check(alloc, root.schema(), root.slot(), node, ROOM) {
            Ok(_) => true,
            Err(_) => false,
        },
        Err(_) => false,
    }
}
