//! Nodes of a HAMT, as they stand in a block (IPLD HashMap, "HashMapNode").
ghost use Rattle.ild_node_slots.specs.Slotted.{SomeSlots};

use crate::bucket::Bucket;
use ild_cbor::{Items, Node};
use ild_data::{BlockId, HamtShape};

/// A node of a HAMT of this shape: its map and its elements, in the block where they stand.
#[derive(Clone, Copy)]
pub struct NodeView<'b> {
    pub(crate) node: Node<'b>,
    pub(crate) map: &'b [u8],
    pub(crate) data: Node<'b>,
    pub(crate) elements: Items<'b>,
    pub(crate) shape: HamtShape,
    ghost stands: { ∥ SomeSlots shape node «data» map.now elements ∥₁ },
}

/// What a slot holds.
#[derive(Clone, Copy)]
pub enum NodeSlot<'b> {
    Empty,
    Bucket(Bucket<'b>),
    Child(BlockId),
}
