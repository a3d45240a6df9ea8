//! Going over all slots of a node.
ghost use Rattle.std.specs.Prelude.{◌-◌, List};
ghost use Rattle.std.specs.Iterator.{at_most};
ghost use Rattle.ild_data.specs.Trie.{TrieSlot};
ghost use Rattle.ild_data.specs.declared.hamt_shape.HamtShape.{HamtShape};
ghost use Rattle.ild_node_slots.specs.Steps.{IsAtSlot, SlotsGive};
ghost use Rattle.ild_node_slots.specs.Views.{HasSlots};

use crate::holding::slot_in;
use crate::parts::map_bit;
use crate::slots::Slots;
use crate::view::{NodeSlot, NodeView};

impl<'b> NodeView<'b> {
    /// All slots in order of their indices, those that are empty among them.
    pub fn slots(&self) -> Slots<'b>
        ensures { (p : HamtShape) (slots : List TrieSlot) → HasSlots p self.now slots → IsAtSlot self.now slots 0 result }
    {
        Slots {
            map: self.map,
            next: 0,
            count: self.shape.slots(),
            elements: self.elements,
        }
    }
}

impl<'b> Iterator for Slots<'b> {
    type Item = NodeSlot<'b>;

    ghost next_gives = { SlotsGive };

    ghost remaining = { λ s. at_most (s.count - s.next) };

    fn next(&mut self) -> Option<NodeSlot<'b>> {
        let i = self.next;
        if i == self.count {
            return None;
        }
        self.next = i + 1;
        if !map_bit(self.map, i) {
            return Some(NodeSlot::Empty);
        }
        match self.elements.next() {
            Some(element) => Some(slot_in(element)),
            None => Some(NodeSlot::Empty),
        }
    }
}
