//! The block in which a trail ends.
ghost use Rattle.std.specs.Prelude.{◌≡◌};
ghost use Rattle.ild_hamt.specs.Descending.{trail_blocks};
ghost use Rattle.ild_open.specs.Blocks.{bytes_in};
ghost use Rattle.ild_path_found.specs.Sites.{end_block};

use ild_hamt::Trail;
use ild_open::BlockAt;
use ild_path_found::end_of;

/// The last block on the way, which begins in the block of the root. Where it is that one, its id stays known.
pub(crate) fn end_at<'b>(trail: &'b Trail, root: BlockAt<'b>) -> BlockAt<'b>
    ensures { bytes_in result ≡ end_block (bytes_in root.entry) (trail_blocks trail.now) }
{
    let nodes = trail.blocks();
    let count = nodes.len();
    if count == 0 {
        return root;
    }
    BlockAt::of(end_of(trail, root.bytes()))
}
