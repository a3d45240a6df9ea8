//! The blocks of nodes that were read.
ghost use Rattle.ild_hamt.specs.Fetching.{Judges};

use ild_cbor::{BlockWhy, check};
use ild_data::HamtShape;
use ild_node::node_of;

/// What is wrong with a block, where it isn't that of a node of this shape.
pub(crate) fn refusal(shape: HamtShape, block: &[u8]) -> Option<BlockWhy>
    ensures { Judges shape block.now result }
{
    match check(block) {
        Err(fault) => Some(BlockWhy::Cbor(fault)),
        Ok(node) => match node_of(node, shape) {
            Ok(_) => None,
            Err(why) => Some(BlockWhy::Shape(why)),
        },
    }
}
