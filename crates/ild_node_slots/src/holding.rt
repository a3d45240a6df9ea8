//! What a node's slots hold.
ghost use Rattle.std.specs.Prelude.{◌≡◌, List};
ghost use Rattle.ild_data.specs.Data.{Data};
ghost use Rattle.ild_data.specs.Trie.{TrieSlot};
ghost use Rattle.ild_data.specs.declared.hamt_shape.HamtShape.{HamtShape};
ghost use Rattle.ild_cbor.specs.Nodes.{HasData};
ghost use Rattle.ild_typed.specs.NodeReading.{child_in};
ghost use Rattle.ild_node_slots.specs.Views.{HasSlots, SlotIs, ElementIs, view_node, view_shape};

use crate::bucket::Bucket;
use crate::parts::{child_in, map_bit, ones_below};
use crate::view::{NodeSlot, NodeView};
use ild_cbor::Node;
use ild_data::HamtShape;

/// What an element of a node is: the link of a child, or else a bucket.
pub(crate) fn slot_in(element: Node<'_>) -> NodeSlot<'_>
    ensures { (t : Data) → HasData element.entry t → ElementIs result element.entry (child_in t) }
{
    match child_in(&element) {
        Some(id) => NodeSlot::Child(id),
        None => NodeSlot::Bucket(Bucket { node: element }),
    }
}

impl<'b> NodeView<'b> {
    /// The node's item.
    pub fn node(&self) -> Node<'b>
        ensures { result ≡ view_node self.now }
    {
        self.node
    }

    /// The shape of the HAMT whose node it is.
    pub fn shape(&self) -> HamtShape
        ensures { result ≡ view_shape self.now }
    {
        self.shape
    }

    /// What stands in a slot, which is empty past the last. Of the elements before it only the heads are passed over.
    pub fn slot(&self, i: u8) -> NodeSlot<'b>
        ensures { (p : HamtShape) (slots : List TrieSlot) → HasSlots p self.now slots → SlotIs self.now slots i result }
    {
        if !map_bit(self.map, i as usize) {
            return NodeSlot::Empty;
        }
        match self.data.item(ones_below(self.map, i as usize)) {
            Some(element) => slot_in(element),
            None => NodeSlot::Empty,
        }
    }
}
