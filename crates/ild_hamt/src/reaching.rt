//! Reading one node on a key's way from a store.
ghost use Rattle.std.specs.Prelude.{◌≡◌, ◌<◌, List, IfOk, option_map};
ghost use Rattle.ild_data.specs.Trie.{TrieSlot};
ghost use Rattle.ild_data.specs.TrieShape.{trie_levels};
ghost use Rattle.ild_node_slots.specs.Views.{HasSlots};
ghost use Rattle.ild_hamt.specs.Fetching.{Fetches};
ghost use Rattle.ild_hamt_climb.specs.NodeBytes.{IsNodeBytes};
ghost use Rattle.ild_hamt.specs.inside.Reaching.{reached_block};
ghost use Rattle.ild_bulk_walker.specs.Gives.{IsNodeOf};
ghost use Rattle.ild_hamt_climb.specs.Way.{slot_for, child_id};

use crate::ending::slot_at;
use crate::reading::refusal;
use ild_cbor::BlockWhy;
use ild_data::{BlockId, HamtShape, Octets};
use ild_edges::{EdgeErr, Store};
use ild_hamt_climb::view_in;
use ild_node::{HamtFault, NodeSlot, NodeView};

/// The block of a node, and the id of its child on a key's way.
#[derive(Drop)]
pub(crate) struct Reached {
    pub(crate) block: Octets,
    pub(crate) child: Option<BlockId>,
}

/// The id of the child on the way of a hash.
pub(crate) fn child_at(
    shape: HamtShape,
    view: NodeView<'_>,
    hash: &[u8; 32],
    depth: u32,
) -> Option<BlockId>
    requires { depth < trie_levels shape }
    ensures { (slots : List TrieSlot) → HasSlots shape view.entry slots → option_map (λ id. id.0) result ≡ child_id (slot_for shape hash.now depth slots) }
{
    match slot_at(shape, view, hash, depth) {
        NodeSlot::Child(id) => Some(id),
        NodeSlot::Empty => None,
        NodeSlot::Bucket(_) => None,
    }
}

// The same of the block of a node.
fn child_in(shape: HamtShape, block: &Octets, hash: &[u8; 32], depth: u32) -> Option<BlockId>
    requires low { depth < trie_levels shape }
    requires known { IsNodeBytes shape block.now }
    ensures { (slots : List TrieSlot) → IsNodeOf shape block.now slots → option_map (λ id. id.0) result ≡ child_id (slot_for shape hash.now depth slots) }
{
    let view = view_in(shape, block);
    child_at(shape, view, hash, depth)
}

/// The node of this shape with an id, which stands at a depth, by one get of the store; or why it isn't to be had.
pub(crate) fn reach<K: Store>(
    shape: HamtShape,
    id: &BlockId,
    hash: &[u8; 32],
    depth: u32,
    store: &mut K,
) -> Result<Reached, HamtFault>
    requires { depth < trie_levels shape }
    ensures fetched { Fetches shape (K.moment store.old) id.now.0 (reached_block result) (K.moment store.new) }
    ensures known { IfOk result (λ r. IsNodeBytes shape r.block) }
    ensures child { IfOk result (λ r. (slots : List TrieSlot) → IsNodeOf shape r.block slots → option_map (λ id. id.0) r.child ≡ child_id (slot_for shape hash.now depth slots)) }
{
    match store.get(id) {
        Ok(Some(block)) => match refusal(shape, block.as_slice()) {
            None => {
                let child = child_in(shape, &block, hash, depth);
                Ok(Reached { block, child })
            }
            Some(why) => Err(HamtFault::Block { id: *id, why }),
        },
        Ok(None) => Err(HamtFault::Block {
            id: *id,
            why: BlockWhy::Missing,
        }),
        Err(EdgeErr::Failed) => Err(HamtFault::Store),
        Err(EdgeErr::Memory) => Err(HamtFault::Memory),
    }
}
