//! Reading a node beneath the root of a HAMT out of its block.
ghost use Rattle.ild_open_nodes.specs.Reading.{ReadsNode};

use crate::weigh::is_many;
use ild_cbor::{BlockWhy, Why, check};
use ild_data::HamtShape;
use ild_node_slots::{NodeView, node_of};

/// The node of this shape that a block is, which has more entries than a bucket takes where each of its children has; or why it is
/// none.
pub fn node_in(shape: HamtShape, block: &[u8]) -> Result<NodeView<'_>, BlockWhy>
    ensures { ReadsNode shape block.now result }
{
    let node = match check(block) {
        Ok(node) => node,
        Err(fault) => return Err(BlockWhy::Cbor(fault)),
    };
    let view = match node_of(node, shape) {
        Ok(view) => view,
        Err(why) => return Err(BlockWhy::Shape(why)),
    };
    if is_many(view) {
        Ok(view)
    } else {
        Err(BlockWhy::Shape(Why::Trie))
    }
}
