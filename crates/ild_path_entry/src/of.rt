//! An item checked and kept, and what is told of it.
ghost use Rattle.std.specs.Prelude.{◌≡◌, ◌<◌, ◌≤◌, length, true, ℕ};
ghost use Rattle.ild_cbor.specs.Nodes.{HasData};
ghost use Rattle.ild_data.specs.Data.{Data, depth};
ghost use Rattle.ild_schema.specs.Value.{Value};
ghost use Rattle.ild_typed.specs.Fits.{Front};
ghost use Rattle.ild_view.specs.Safe.{is_safe};
ghost use Rattle.ild_view.specs.View.{IsView, slot_of, table_of};
ghost use Rattle.ild_view.specs.Whole.{IsWholeView};

use crate::entry::Entry;
use crate::fault::EntryErr;
use ild_cbor::{Node, known_root};
use ild_node_slots::Spelled;
use ild_schema::{Accepted, Slot};
use ild_view::{View, ViewErr};
use std::alloc::Global;

impl<'s> Entry<'s> {
    ghost use Rattle.ild_path_entry.specs.Entry.{Checks, Enters, data_in, room_in, slot_in, table_in};

    // Whether a value has a front of a slot in a room.
    fn check(
        alloc: Global,
        acc: &'s Accepted,
        slot: Slot,
        item: &Spelled,
        room: u32,
    ) -> Result<(), EntryErr>
        requires within { slot.ty.0 < length acc.now }
        requires safe { is_safe acc.now slot ≡ true }
        ensures { Checks acc.now slot room item.now result }
    {
        let node = known_root(item.as_slice());
        match View::check(alloc, acc, slot, node, room) {
            Ok(_) => Ok(()),
            Err(ViewErr::Shape { ty: _, why, at: _ }) => Err(EntryErr::Shape(why)),
            Err(ViewErr::Memory) => Err(EntryErr::Memory),
        }
    }

    /// The value that an item is, copied from its block: it is `Shape` exactly where the item has no front of the slot that nests no
    /// deeper than the room, with the first cause on the walk of it.
    pub fn of(
        alloc: Global,
        acc: &'s Accepted,
        slot: Slot,
        item: &Node<'_>,
        room: u32,
    ) -> Result<Entry<'s>, EntryErr>
        requires within { slot.ty.0 < length acc.now }
        requires safe { is_safe acc.now slot ≡ true }
        ensures { (t : Data) → HasData item.now t → Enters acc.now slot room t result }
    {
        let item = match Spelled::of(alloc, item) {
            Ok(item) => item,
            Err(_) => return Err(EntryErr::Memory),
        };
        match Self::check(alloc, acc, slot, &item, room) {
            Ok(()) => Ok(Entry {
                acc,
                slot,
                room,
                item,
            }),
            Err(fault) => Err(fault),
        }
    }

    /// Another value of the same slot in the same room, as `of` makes it.
    pub fn renewed(&self, alloc: Global, item: &Node<'_>) -> Result<Entry<'s>, EntryErr>
        ensures { (t : Data) → HasData item.now t → Enters (table_in self.now) (slot_in self.now) (room_in self.now) t result }
    {
        Self::of(alloc, self.acc, self.slot, item, self.room)
    }

    /// The schema.
    pub fn schema(&self) -> &'s Accepted
        ensures { result.now ≡ table_in self.now }
    {
        self.acc
    }

    /// The slot.
    pub fn slot(&self) -> Slot
        ensures { result ≡ slot_in self.now }
    {
        self.slot
    }

    /// How many levels the value may nest.
    pub fn room(&self) -> u32
        ensures { result ≡ room_in self.now }
    {
        self.room
    }

    /// The view of the whole, without work: what `of` accepted isn't read again.
    pub fn view(&self) -> View<'_>
        ensures table { table_of result ≡ table_in self.now }
        ensures slot { slot_of result ≡ slot_in self.now }
        ensures safe { is_safe (table_of result) (slot_of result) ≡ true }
        ensures front { (f : Value) (room : ℕ) → Front (table_in self.now) room (slot_in self.now) f (data_in self.now) → IsView result f }
        ensures whole { IsWholeView result (data_in self.now) }
    {
        let node = known_root(self.item.as_slice());
        View::of(self.acc, self.slot, node)
    }

    /// The item of the whole, which nests no deeper than the room.
    pub fn node(&self) -> Node<'_>
        ensures stands { HasData result (data_in self.now) }
        ensures nests { (t : Data) → HasData result t → depth t ≤ room_in self.now }
    {
        self.acc.recall();
        known_root(self.item.as_slice())
    }
}
