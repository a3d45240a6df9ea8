//! The nodes in blocks that were read before.
ghost use Rattle.std.specs.Prelude.{◌≡◌, List};
ghost use Rattle.ild_data.specs.Trie.{TrieSlot};
ghost use Rattle.ild_node_slots.specs.Views.{HasSlots, view_shape};
ghost use Rattle.ild_hamt_climb.specs.NodeBytes.{IsNodeBlock, IsNodeBytes};
ghost use Rattle.ild_bulk_walker.specs.Gives.{IsNodeOf};

use ild_cbor::known_root;
use ild_data::{HamtShape, Octets};
use ild_node::{NodeView, known_node};

/// The node of a HAMT of this shape that a block is, which was checked when it was read and isn't gone over again.
pub fn view_in(shape: HamtShape, block: &Octets) -> NodeView<'_>
    requires { IsNodeBytes shape block.now }
    ensures node { IsNodeBlock shape block.now }
    ensures own { view_shape result ≡ shape }
    ensures only { (slots : List TrieSlot) → IsNodeOf shape block.now slots → HasSlots shape result slots }
{
    known_node(known_root(block.as_slice()), shape)
}
