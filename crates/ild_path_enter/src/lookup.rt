//! One HAMT on a path.
ghost use Rattle.std.specs.Option.{ForSome};
ghost use Rattle.std.specs.Prelude.{◌≡◌, ◌<◌, ℕ, Bool, IfOk, List, Some, length, true};
ghost use Rattle.ild_data.specs.Data.{Data};
ghost use Rattle.ild_path_enter.specs.Enters.{CanEnter, EntersHamt, FailsOnly, MeetsSite};
ghost use Rattle.ild_path_entry.specs.Entry.{room_in, table_in};
ghost use Rattle.ild_open_parts.specs.Reads.{OnlyReads};
ghost use Rattle.ild_open_parts.specs.Sites.{Site};
ghost use Rattle.ild_path_found.specs.Sites.{IsSiteOf};
ghost use Rattle.ild_schema.specs.Value.{Pairs, Value, hamt};
ghost use Rattle.ild_schema.specs.declared.number.Slot.{Slot as Place};
ghost use Rattle.ild_view.specs.Safe.{is_safe};
ghost use Rattle.ild_view.specs.View.{IsView};

use crate::entry::entry_in;
use ild_data::KeyHash;
use ild_edges::Store;
use ild_hamt::{Trail, descend};
use ild_node::HamtFault;
use ild_path_entry::Entry;
use ild_path_found::end_of;
use ild_schema::{Accepted, Slot};
use ild_view::View;
use std::alloc::Global;

/// The trail of a key, and the value there, which was checked against the slot of the values.
#[derive(Drop)]
pub struct Entered<'s> {
    pub trail: Trail,
    pub entry: Option<Entry<'s>>,
}

/// A key of the HAMT whose root a view has is looked up, by gets alone, of no more nodes than there are on its way. The root stands in this
/// block, and the room is that of its values. A fault of the store comes only where it failed, and a block is refused only where it is on the
/// HAMT's tree and its cause is there.
pub fn enter<'s, K: Store, H: KeyHash>(
    alloc: Global,
    acc: &'s Accepted,
    slot: Slot,
    view: &View<'_>,
    block: &[u8],
    key: &str,
    room: u32,
    keys: &H,
    store: &mut K,
) -> Result<Entered<'s>, HamtFault>
    requires within { slot.ty.0 < length acc.now }
    requires safe { is_safe acc.now slot ≡ true }
    requires hamt { ∥ ((t : Data) × IsView view.now (hamt t)) ∥₁ }
    ensures reads { (f : Value) → IsView view.now f → OnlyReads (K.moment store.old) (K.moment store.new) }
    ensures table { IfOk result (λ entered. ForSome entered.entry (λ entry. table_in entry ≡ acc.now)) }
    ensures room { IfOk result (λ entered. ForSome entered.entry (λ entry. room_in entry ≡ room)) }
    ensures failed { FailsOnly (K.moment store.old) result (K.moment store.new) }
    ensures refused { (z : Site) → IsSiteOf acc.now slot room view.now block.now z → MeetsSite H.hash_of acc.now block.now key.now z (K.moment store.old) result (K.moment store.new) }
    ensures trie { (is_key : ℕ → List ℕ → Bool) (was : List (List ℕ)) (s : Place) (t : Data) (ps : Pairs) (es : List (List ℕ × Data))
        → IsView view.now (hamt t) → (K.moment store.old).blocks ≡ Some was
        → (can : CanEnter H.hash_of acc.now is_key was s slot room t ps es) → EntersHamt H.hash_of can.hamt.3 acc.now was slot room t ps es key.now (K.moment store.old) result (K.moment store.new) }
{
    let root = match view.hamt() {
        Some(root) => root,
        None => unreachable!(),
    };
    let trail = descend(alloc, root, key, keys, store)?;
    let entry = match trail.found(root) {
        Some(item) => {
            let end = end_of(&trail, block);
            Some(entry_in(alloc, acc, slot, &item, end, room)?)
        }
        None => None,
    };
    Ok(Entered { trail, entry })
}
