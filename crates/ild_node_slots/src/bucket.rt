//! Buckets of entries (IPLD HashMap, "Bucket").
ghost use Rattle.std.specs.Prelude.{◌≡◌, ℕ, List, length, slice_get};
ghost use Rattle.std.specs.FinMap.{find};
ghost use Rattle.ild_data.specs.Data.{Data};
ghost use Rattle.ild_data.specs.ByteOrder.{bytewise};
ghost use Rattle.ild_node_slots.specs.Views.{HasEntries, EntryIs, ValueIn, bucket_node};

use crate::parts::{entry_in, value_at};
use ild_cbor::Node;

/// A bucket of a node: a few entries, rising bytewise by key.
#[derive(Clone, Copy)]
pub struct Bucket<'b> {
    pub(crate) node: Node<'b>,
}

impl<'b> Bucket<'b> {
    /// How many entries there are.
    pub fn len(&self) -> usize
        ensures { (es : List (List ℕ × Data)) → HasEntries self.now es → result ≡ length es }
    {
        match self.node.count() {
            Some(n) => n as usize,
            None => 0,
        }
    }

    /// The key and the value of the entry at a place, or `None` past the last.
    pub fn entry(&self, i: usize) -> Option<(&'b str, Node<'b>)>
        ensures { (es : List (List ℕ × Data)) → HasEntries self.now es → EntryIs self.now es i (slice_get es i) result }
    {
        match self.node.item(i as u64) {
            Some(item) => entry_in(&item),
            None => None,
        }
    }

    /// The value at a key, or `None` where there is none. Keys are compared, and of values only the heads are passed over.
    pub fn find(&self, key: &str) -> Option<Node<'b>>
        ensures { (es : List (List ℕ × Data)) → HasEntries self.now es → ValueIn (bucket_node self.now) es key.now (find bytewise key.now es) result }
    {
        match self.node.items() {
            Some(items) => value_at(&self.node, items, key.as_bytes()),
            None => None,
        }
    }
}
