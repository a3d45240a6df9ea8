//! Going over a HAMT of which nothing is kept, node by node. A node that was found sound at the same way is passed over.
ghost use Rattle.std.specs.Prelude.{◌≡◌, ◌<◌, ◌≤◌, ◌++◌, ◌∷◌, [], ℕ, List, length, Some, slice_get};
ghost use Rattle.ild_data.specs.Data.{Data};
ghost use Rattle.ild_data.specs.Trie.{TrieSlot, bucket, child};
ghost use Rattle.ild_data.specs.TrieShape.{trie_levels};
ghost use Rattle.ild_node_slots.specs.Views.{HasEntries, HasSlots, SlotHolds};
ghost use Rattle.ild_node_slots.specs.Walks.{SomeEntries, SomeHold};
ghost use Rattle.ild_node_slots.specs.declared.view.NodeView.{NodeView};
ghost use Rattle.ild_open_nodes.specs.inside.Beneath.{PassesBucketEntry, PassesChild, PassesSlot, PassesSlots};
ghost use Rattle.ild_open_read.specs.inside.Sound.{AreSound};

use crate::reader::Reader;
use crate::reading::read_slot;
use ild_cbor::{Node, Piece};
use ild_data::{BlockId, KeyHash};
use ild_edges::Store;
use ild_node_slots::{Bucket, NodeSlot, NodeView, has_level};
use ild_open_known::{Known, ReadAs};
use ild_open_nodes::{block_of, entry_fits, fits, longer, no_trie, node_in};
use ild_open_parts::OpenFault;
use ild_schema::Accepted;

// Goes over an entry in the bucket at an index of the node at the end of a way.
#[cycle(reads)]
fn pass_entry<'b, K: Store, H: KeyHash>(
    reader: &Reader<'_, H>,
    acc: &'b Accepted,
    read_as: ReadAs,
    key: &str,
    item: Node<'b>,
    way: &[u8],
    i: u8,
    at: BlockId,
    known: &mut Known,
    store: &mut K,
) -> Result<(), OpenFault>
    requires keyed { read_as.key.0 < length acc.now }
    requires within { read_as.value.ty.0 < length acc.now }
    requires room { read_as.room ≤ 96 }
    requires short { length way.now < trie_levels read_as.shape }
    requires sound { AreSound H.hash_of acc.now (K.moment store.old) known.old }
    ensures passes { PassesBucketEntry H.hash_of read_as.shape acc.now read_as.room read_as.key read_as.value way.now at.0 i key.now item.entry (K.moment store.old) result (K.moment store.new) }
    ensures sound { AreSound H.hash_of acc.now (K.moment store.new) known.new }
{
    acc.recall();
    if !fits(reader.keys, read_as.shape, way, i, key) {
        return Err(no_trie(at));
    }
    let (ty, value, room) = (read_as.key, read_as.value, read_as.room);
    entry_fits(reader.alloc, acc, ty, value, room, key, item, at)?;
    let part = Piece::Node(item);
    read_slot(reader, acc, value, &part, room, at, known, store)?;
    Ok(())
}

// The same of all entries in the bucket.
#[cycle(reads)]
fn pass_bucket<'b, K: Store, H: KeyHash>(
    reader: &Reader<'_, H>,
    acc: &'b Accepted,
    read_as: ReadAs,
    entries: Bucket<'b>,
    way: &[u8],
    i: u8,
    at: BlockId,
    known: &mut Known,
    store: &mut K,
) -> Result<(), OpenFault>
    requires keyed { read_as.key.0 < length acc.now }
    requires within { read_as.value.ty.0 < length acc.now }
    requires room { read_as.room ≤ 96 }
    requires short { length way.now < trie_levels read_as.shape }
    requires known { ∥ SomeEntries entries ∥₁ }
    requires sound { AreSound H.hash_of acc.now (K.moment store.old) known.old }
    ensures passes { (slots : List TrieSlot) (es : List (List ℕ × Data)) → slice_get slots i ≡ Some (bucket es) → HasEntries entries.entry es
        → PassesSlot H.hash_of read_as.shape acc.now read_as.room read_as.key read_as.value way.now at.0 slots i (bucket es) (K.moment store.old) result (K.moment store.new) }
    ensures sound { AreSound H.hash_of acc.now (K.moment store.new) known.new }
{
    for j in 0..entries.len() {
        let Some((key, item)) = entries.entry(j) else {
            unreachable!();
        };
        pass_entry(reader, acc, read_as, key, item, way, i, at, known, store)?;
    }
    Ok(())
}

// Goes over the node under an id, to which a way leads, unless it was found sound.
#[cycle(reads)]
fn pass_node<'b, K: Store, H: KeyHash>(
    reader: &Reader<'_, H>,
    acc: &'b Accepted,
    read_as: ReadAs,
    id: BlockId,
    way: &[u8],
    known: &mut Known,
    store: &mut K,
) -> Result<(), OpenFault>
    requires keyed { read_as.key.0 < length acc.now }
    requires within { read_as.value.ty.0 < length acc.now }
    requires room { read_as.room ≤ 96 }
    requires short { length way.now < trie_levels read_as.shape }
    requires sound { AreSound H.hash_of acc.now (K.moment store.old) known.old }
    ensures passes { (above : List ℕ) (i : ℕ) → way.now ≡ above ++ i ∷ []
        → PassesChild H.hash_of read_as.shape acc.now read_as.room read_as.key read_as.value above i id.0 (K.moment store.old) result (K.moment store.new) }
    ensures sound { AreSound H.hash_of acc.now (K.moment store.new) known.new }
{
    let seat = read_as.seat_at(id, way);
    if known.has_node(seat, read_as, id, way) {
        return Ok(());
    }
    let block = block_of(id, store)?;
    let view = match node_in(read_as.shape, block.as_slice()) {
        Ok(view) => view,
        Err(why) => return Err(OpenFault::Block { id, why }),
    };
    pass_slots(reader, acc, read_as, view, way, id, known, store)?;
    known.add_node(reader.alloc, seat, read_as, id, way);
    Ok(())
}

// Goes over the child at an index of the node at the end of a way.
#[cycle(reads)]
fn pass_child<'b, K: Store, H: KeyHash>(
    reader: &Reader<'_, H>,
    acc: &'b Accepted,
    read_as: ReadAs,
    id: BlockId,
    way: &[u8],
    i: u8,
    at: BlockId,
    known: &mut Known,
    store: &mut K,
) -> Result<(), OpenFault>
    requires keyed { read_as.key.0 < length acc.now }
    requires within { read_as.value.ty.0 < length acc.now }
    requires room { read_as.room ≤ 96 }
    requires short { length way.now < trie_levels read_as.shape }
    requires sound { AreSound H.hash_of acc.now (K.moment store.old) known.old }
    ensures passes { (slots : List TrieSlot) → slice_get slots i ≡ Some (child id.0)
        → PassesSlot H.hash_of read_as.shape acc.now read_as.room read_as.key read_as.value way.now at.0 slots i (child id.0) (K.moment store.old) result (K.moment store.new) }
    ensures sound { AreSound H.hash_of acc.now (K.moment store.new) known.new }
{
    if !has_level(read_as.shape, way.len() + 1) {
        return Err(no_trie(at));
    }
    let own = longer(reader.alloc, way, i)?;
    pass_node(reader, acc, read_as, id, own.as_slice(), known, store)
}

// Goes over what stands at an index of that node.
#[cycle(reads)]
fn pass_at<'b, K: Store, H: KeyHash>(
    reader: &Reader<'_, H>,
    acc: &'b Accepted,
    read_as: ReadAs,
    slot: NodeSlot<'b>,
    way: &[u8],
    i: u8,
    at: BlockId,
    known: &mut Known,
    store: &mut K,
) -> Result<(), OpenFault>
    requires keyed { read_as.key.0 < length acc.now }
    requires within { read_as.value.ty.0 < length acc.now }
    requires room { read_as.room ≤ 96 }
    requires short { length way.now < trie_levels read_as.shape }
    requires known { ∥ SomeHold slot ∥₁ }
    requires sound { AreSound H.hash_of acc.now (K.moment store.old) known.old }
    ensures passes { (v : NodeView) (slots : List TrieSlot) (s : TrieSlot) → slice_get slots i ≡ Some s → SlotHolds v slots i slot.entry s
        → PassesSlot H.hash_of read_as.shape acc.now read_as.room read_as.key read_as.value way.now at.0 slots i s (K.moment store.old) result (K.moment store.new) }
    ensures sound { AreSound H.hash_of acc.now (K.moment store.new) known.new }
{
    match slot {
        NodeSlot::Empty => Ok(()),
        NodeSlot::Bucket(entries) => {
            pass_bucket(reader, acc, read_as, entries, way, i, at, known, store)
        }
        NodeSlot::Child(id) => pass_child(reader, acc, read_as, id, way, i, at, known, store),
    }
}

/// Goes over all slots of the node at the end of a way, which stands in a block.
#[cycle(reads)]
pub(crate) fn pass_slots<'b, K: Store, H: KeyHash>(
    reader: &Reader<'_, H>,
    acc: &'b Accepted,
    read_as: ReadAs,
    view: NodeView<'b>,
    way: &[u8],
    at: BlockId,
    known: &mut Known,
    store: &mut K,
) -> Result<(), OpenFault>
    requires keyed { read_as.key.0 < length acc.now }
    requires within { read_as.value.ty.0 < length acc.now }
    requires room { read_as.room ≤ 96 }
    requires short { length way.now < trie_levels read_as.shape }
    requires sound { AreSound H.hash_of acc.now (K.moment store.old) known.old }
    ensures passes { (slots : List TrieSlot) → HasSlots read_as.shape view.entry slots
        → PassesSlots H.hash_of read_as.shape acc.now read_as.room read_as.key read_as.value way.now at.0 slots (K.moment store.old) result (K.moment store.new) }
    ensures sound { AreSound H.hash_of acc.now (K.moment store.new) known.new }
{
    let mut slots = view.slots();
    for i in 0..view.shape().slots() {
        let Some(slot) = slots.next() else {
            unreachable!();
        };
        pass_at(reader, acc, read_as, slot, way, i as u8, at, known, store)?;
    }
    Ok(())
}
