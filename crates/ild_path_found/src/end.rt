//! The block in which a trail ends.
ghost use Rattle.std.specs.Prelude.{◌≡◌};
ghost use Rattle.ild_hamt.specs.Descending.{trail_blocks};
ghost use Rattle.ild_path_found.specs.Sites.{end_block};

use ild_hamt::Trail;

/// The last block on the way, which begins in the block of the root.
pub fn end_of<'b>(trail: &'b Trail, root: &'b [u8]) -> &'b [u8]
    ensures { result.now ≡ end_block root.now (trail_blocks trail.now) }
{
    let nodes = trail.blocks();
    let count = nodes.len();
    if count == 0 {
        return root;
    }
    nodes[count - 1].as_slice()
}
