//! What stands around a slot of a node.
ghost use Rattle.std.specs.Prelude.{◌≡◌, ◌<◌, List, length, slice_index_or};
ghost use Rattle.ild_data.specs.Trie.{TrieSlot, empty, is_used};
ghost use Rattle.ild_data.specs.declared.hamt_shape.HamtShape.{HamtShape};
ghost use Rattle.ild_node_slots.specs.Views.{AreBeside, HasSlots};

use crate::parts::{map_bit, ones_below};
use crate::view::NodeView;

impl<'b> NodeView<'b> {
    /// Whether a slot is used.
    pub fn is_used(&self, i: usize) -> bool
        ensures { (p : HamtShape) (slots : List TrieSlot) → HasSlots p self.now slots → i < length slots → result ≡ is_used (slice_index_or slots i empty) }
    {
        map_bit(self.map, i)
    }

    /// The elements of the slots before one and those of the slots behind it, as they are spelled.
    pub fn around(&self, i: u8) -> (&'b [u8], &'b [u8])
        ensures { (p : HamtShape) (slots : List TrieSlot) → HasSlots p self.now slots → i < length slots → AreBeside slots i result }
    {
        let own = map_bit(self.map, i as usize);
        self.data
            .items_around(ones_below(self.map, i as usize), own as u64)
    }
}
