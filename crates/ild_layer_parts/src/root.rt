//! The entries in the root of a HAMT as parts: of each a key, and then its value.
ghost use Rattle.std.specs.Prelude.{◌≡◌, ◌<◌, ◌≤◌, ◌+◌, ◌-◌, ◌^◌, ℕ, List, IfSome, None, length, slice_get};
ghost use Rattle.ild_data.specs.Data.{Data};
ghost use Rattle.ild_data.specs.Trie.{TrieSlot};
ghost use Rattle.ild_node_slots.specs.Views.{EntryIs, HasEntries, HasSlots};
ghost use Rattle.ild_schema.specs.Slots.{plainly};
ghost use Rattle.ild_schema.specs.declared.row.Row.{Row};
ghost use Rattle.ild_data.specs.declared.hamt_shape.HamtShape.{HamtShape};
ghost use Rattle.ild_typed.specs.RootSpots.{root_spots};
ghost use Rattle.ild_typed.specs.Spots.{Spot};
ghost use Rattle.ild_layer_parts.specs.PassedOver.{IsWhole};
ghost use Rattle.ild_layer_parts.specs.Ready.{AreReady, IsIn, IsPartReady};
ghost use Rattle.ild_layer_parts.specs.declared.parts.Parts.TheVariants as P;
ghost use Rattle.ild_layer_parts.specs.Root.{HasRoot, SplitsRoot, root_left};
ghost use Rattle.ild_layer_parts.specs.Ways.{LeadsTo};

use crate::part::{Part, key_part, value_part};
use ild_cbor::{Node, Piece};
use ild_layer_places::Way;
use ild_node_slots::{Bucket, NodeSlot, NodeView, Slots};
use ild_schema::{Slot, TypeNo};

/// How many entries a bucket has at most, whatever the shape.
const MOST_ENTRIES: usize = 16;

/// The entries in the block of a HAMT's root that are left: those of a bucket from one on, where there is one, and those of
/// the slots behind. So many elements of the node went before. Of an entry the key may have been handed out, and not its value.
#[derive(Clone, Copy)]
pub struct RootEntries<'b> {
    pub(crate) key: TypeNo,
    pub(crate) value: Slot,
    pub(crate) slots: Slots<'b>,
    pub(crate) element: u64,
    pub(crate) bucket: Option<Bucket<'b>>,
    pub(crate) entry: usize,
    pub(crate) held: Option<(&'b str, Node<'b>)>,
}

// The entry of a bucket at a place.
fn entry_at<'b>(bucket: &Bucket<'b>, i: usize) -> Option<(&'b str, Node<'b>)>
    ensures entry { (es : List (List ℕ × Data)) → HasEntries bucket.now es → length es ≤ 16 → EntryIs bucket.now es i (slice_get es i) result }
    ensures most { IfSome result (λ r. i < 16) }
{
    if i < MOST_ENTRIES {
        bucket.entry(i)
    } else {
        None
    }
}

impl<'b> RootEntries<'b> {
    /// The entries in the root of a HAMT, from the first on.
    pub fn of(key: TypeNo, value: Slot, view: &NodeView<'b>) -> RootEntries<'b>
        ensures has { (p : HamtShape) (slots : List TrieSlot) → HasSlots p view.now slots → HasRoot result (root_spots key value 0 slots) }
        ensures ready { (rows : List Row) → IsIn rows (plainly key) → IsIn rows value → AreReady rows (P.Root result) }
    {
        RootEntries {
            key,
            value,
            slots: view.slots(),
            element: 0,
            bucket: None,
            entry: 0,
            held: None,
        }
    }

    // The slots behind.
    fn behind(&self, slots: Slots<'b>, element: u64, bucket: Option<Bucket<'b>>) -> RootEntries<'b>
        ensures { result ≡ record { key = self.now.key; value = self.now.value; slots = slots.entry; element = element; bucket = bucket.entry; entry = 0; held = None } }
    {
        RootEntries {
            key: self.key,
            value: self.value,
            slots,
            element,
            bucket,
            entry: 0,
            held: None,
        }
    }

    // The place of the next element.
    fn next_element(&self) -> u64
        ensures { self.now.element < 2 ^ 64 - 1 → result ≡ self.now.element + 1 }
    {
        self.element.saturating_add(1)
    }

    // The rest of the bucket.
    fn in_bucket(&self, entry: usize, held: Option<(&'b str, Node<'b>)>) -> RootEntries<'b>
        ensures { result ≡ record { key = self.now.key; value = self.now.value; slots = self.now.slots; element = self.now.element; bucket = self.now.bucket; entry = entry; held = held.entry } }
    {
        RootEntries {
            key: self.key,
            value: self.value,
            slots: self.slots,
            element: self.element,
            bucket: self.bucket,
            entry,
            held,
        }
    }

    /// The first key or value, where one is there, and what is behind it.
    pub(crate) fn split_first(&self) -> Option<(Option<Part<'b>>, RootEntries<'b>)>
        ensures step { (rows : List Row) (ps : List Spot) → HasRoot self.now ps → SplitsRoot rows ps result }
        ensures way { (ps : List Spot) → HasRoot self.now ps → IfSome result (λ r. LeadsTo r.0 ps) }
        ensures fewer { IfSome result (λ r. root_left r.1 < root_left self.now) }
        ensures ready { (rows : List Row) → IsIn rows (plainly self.now.key) → IsIn rows self.now.value
            → IfSome result (λ r. IsPartReady rows r.0 × IsIn rows (plainly r.1.key) × IsIn rows r.1.value) }
        ensures whole { IfSome result (λ r. IfSome r.0 (λ x. IsWhole x)) }
    {
        if let Some((_, node)) = self.held {
            let way = Way::ValueInNode(self.element, (self.entry as u64).saturating_sub(1));
            return Some((
                Some(value_part(self.value, Piece::Node(node), way)),
                self.in_bucket(self.entry, None),
            ));
        }
        if let Some(bucket) = self.bucket {
            return match entry_at(&bucket, self.entry) {
                Some((key, node)) => Some((
                    Some(key_part(
                        self.key,
                        key,
                        Way::KeyInNode(self.element, self.entry as u64),
                    )),
                    self.in_bucket(self.entry + 1, Some((key, node))),
                )),
                None => Some((None, self.behind(self.slots, self.next_element(), None))),
            };
        }
        let mut slots = self.slots;
        match slots.next() {
            Some(NodeSlot::Bucket(bucket)) => {
                Some((None, self.behind(slots, self.element, Some(bucket))))
            }
            Some(NodeSlot::Empty) => Some((None, self.behind(slots, self.element, None))),
            Some(NodeSlot::Child(_)) => Some((None, self.behind(slots, self.next_element(), None))),
            None => None,
        }
    }
}
