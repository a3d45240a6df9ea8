//! Places.
ghost use Rattle.std.specs.Option.{ForSome};
ghost use Rattle.std.specs.Prelude.{◌≡◌, ◌<◌, ◌≤◌, length, true};
ghost use Rattle.ild_path_place.specs.Links.{IsLinked, may_be};
ghost use Rattle.ild_view.specs.Safe.{is_safe};
ghost use Rattle.ild_view.specs.View.{table_of};

use crate::verb::{Verb, comes};
use ild_data::Path;
use ild_hamt::Trail;
use ild_path_entry::Entry;
use ild_path_hops::Hop;
use ild_schema::Slot;
use ild_view::View;

/// How a path ends in the innermost block.
#[derive(Drop)]
pub enum End<'b> {
    /// With the whole of it: the path is empty.
    Whole,
    /// With these segments, none of which is a HAMT's key.
    InBlock(Path),
    /// With the segments to a HAMT and its key, whose trail this is, and the value there, if there is one.
    AtKey(Path, Trail, Option<Entry<'b>>),
}

/// The place at which a path ends, in a value whose root view this is, for what is to be done there. What it tells was found
/// when it was located.
#[derive(Drop)]
pub struct Place<'b> {
    pub(crate) root: View<'b>,
    pub(crate) verb: Verb,
    pub(crate) hops: Vec<Hop<'b>>,
    pub(crate) end: End<'b>,
    pub(crate) slot: Slot,
    pub(crate) key_fits: bool,
    pub(crate) room: Option<u32>,
    pub(crate) hole: bool,
    ghost within: { slot.ty.0 < length (table_of root) },
    ghost safe: { is_safe (table_of root) slot ≡ true },
    ghost deep: { ForSome room (λ n. n ≤ 96) },
    ghost whole: { may_be end verb ≡ true },
    ghost linked: { ∥ IsLinked root hops.items end ∥₁ },
}

impl<'b> Place<'b> {
    ghost use Rattle.ild_path_place.specs.Tells.{fits_in, hole_in, room_in, slot_in, table_at};
    ghost use Rattle.ild_path_place.specs.Exhausting.{Exhausts};

    /// The slot of the part, one of the table, in which null stands for null alone. Inside an Any it is that of any value, or null.
    pub fn slot(&self) -> Slot
        ensures same { result ≡ slot_in self.now }
        ensures within { result.ty.0 < length (table_at self.now) }
        ensures safe { is_safe (table_at self.now) result ≡ true }
    {
        self.slot
    }

    /// Whether the last segment is a key that is there, or a text of the type of keys, or no key at all.
    pub fn key_fits(&self) -> bool
        ensures { result ≡ fits_in self.now }
    {
        self.key_fits
    }

    /// Whether a tuple has an absent field before a present one with the part that is to come, or without the one that is to go.
    pub fn hole(&self) -> bool
        ensures { result ≡ hole_in self.now }
    {
        self.hole
    }

    /// How many levels the part may nest that is to come, so that the whole value stays within its limit; `None` where the key at which
    /// it would stand is too deep by itself.
    pub fn room(&self) -> Option<u32>
        ensures same { result ≡ room_in self.now }
        ensures deep { ForSome result (λ n. n ≤ 96) }
    {
        self.room
    }

    /// Whether the HAMT at whose key a part is to come would have no trie with it: the key is new, and too many keys agree with it in
    /// all bits of their hashes that levels read.
    pub fn exhausted(&self) -> bool
        ensures { Exhausts self.now.verb self.now.end result }
    {
        match &self.end {
            End::AtKey(_, trail, _) => trail.exhausted() & comes(self.verb),
            End::Whole | End::InBlock(_) => false,
        }
    }
}
