//! The way of a key.
ghost use Rattle.std.specs.Prelude.{All};
ghost use Rattle.ild_hamt_climb.specs.NodeBytes.{IsNodeBytes};

use crate::ending::end_slot;
use crate::rewriting::{rewrite, slot_of};
use ild_cbor::Node;
use ild_data::{HamtShape, KeyHash, Octets, Txt};
use ild_edges::Store;
use ild_hamt_climb::{few_slot, rows_without};
use ild_node::{HamtFault, NodeSlot, NodeView, Rows};
use std::alloc::{AllocError, Global};

/// The nodes on a key's way beneath a root of this shape, as they were read, with the hash of the key and those of the other keys
/// in the bucket in which the way ends. It borrows nothing.
#[derive(Drop)]
pub struct Trail {
    pub(crate) shape: HamtShape,
    pub(crate) key: Txt,
    pub(crate) hash: [u8; 32],
    pub(crate) depth: u32,
    pub(crate) blocks: Vec<Octets>,
    pub(crate) others: Vec<[u8; 32]>,
    pub(crate) exhausted: bool,
    ghost known: { All (IsNodeBytes shape) blocks.items },
}

impl Trail {
    ghost use Rattle.std.specs.Prelude.{◌≡◌, ◌+◌, ℕ, List, length, not, true, IfOk};
    ghost use Rattle.std.specs.FinMap.{find, put};
    ghost use Rattle.ild_data.specs.Data.{Data};
    ghost use Rattle.ild_data.specs.ByteOrder.{bytewise, without};
    ghost use Rattle.ild_data.specs.Trie.{TrieSlot};
    ghost use Rattle.ild_data.specs.declared.hamt_shape.HamtShape.{HamtShape};
    ghost use Rattle.ild_hamt_trie.specs.Way.{along};
    ghost use Rattle.ild_cbor.specs.Nodes.{HasData};
    ghost use Rattle.ild_node.specs.Rows.{NestsIn, deepest_value};
    ghost use Rattle.ild_node_slots.specs.Views.{HasSlots};
    ghost use Rattle.ild_hamt.specs.Descending.{IsTrail, IsTrailOf, trail_blocks, trail_shape};
    ghost use Rattle.ild_hamt.specs.Found.{FindsAtEnd};
    ghost use Rattle.ild_hamt.specs.Given.{GivesWay};
    ghost use Rattle.ild_hamt.specs.Edits.{CausedBy, SetsAlong, IsTrailAlong, RemovesAlong, entries_at_end, is_full_at_end};
    ghost use Rattle.ild_hamt.specs.Removing.{Removes, RestIs};
    ghost use Rattle.ild_edges.specs.Told.{BothTold};
    ghost use Rattle.ild_hamt.specs.Rewriting.{HoldsAfter, IsTrailFrom};
    ghost use Rattle.ild_hamt_climb.specs.Seen.{ValueIs};
    ghost use Rattle.ild_hamt.specs.Setting.{Sets, has_trie};

    /// The blocks that were read, from the child of the root down.
    pub fn blocks(&self) -> &[Octets]
        ensures { result.now ≡ trail_blocks self.now }
    {
        &self.blocks
    }

    /// The value at the key, or `None` where there is none. The root has to be the one whose children were read.
    pub fn found<'a>(&'a self, root: NodeView<'a>) -> Option<Node<'a>>
        ensures trie { (h : List ℕ → List ℕ) (p : HamtShape) (k : List ℕ) (slots : List TrieSlot) (es : List (List ℕ × Data)) → HasSlots p root.entry slots
            → IsTrailOf h p k slots es self.now → ValueIs (find bytewise k es) result }
        // Whatever trie the nodes on the way are of: that of the entry which the last of them has at the key.
        ensures at_end { FindsAtEnd self.now root.entry result }
    {
        match end_slot(self.shape, root, &self.blocks, &self.hash, self.depth) {
            NodeSlot::Bucket(bucket) => bucket.find(self.key.as_str()),
            NodeSlot::Empty => None,
            NodeSlot::Child(_) => None,
        }
    }

    /// Whether the key is absent, and the entries with it have no HAMT: too many keys agree with it in all bits of their hashes that levels read.
    pub fn exhausted(&self) -> bool
        ensures trie { (h : List ℕ → List ℕ) (p : HamtShape) (k : List ℕ) (slots : List TrieSlot) (es : List (List ℕ × Data)) (v : Data) → IsTrailOf h p k slots es self.now
            → result ≡ not (has_trie h p (put bytewise k v es)) }
        // Whatever trie the nodes on the way are of: the bucket in which it ends has no place for the key.
        ensures at_end { (h : List ℕ → List ℕ) (p : HamtShape) (k : List ℕ) (bs : List (List ℕ)) (last : List TrieSlot) → IsTrail h p k bs last self.now → result ≡ is_full_at_end h p k bs last }
    {
        self.exhausted
    }

    // The entries of the bucket in which the way ends, without the key's.
    fn others(&self, alloc: Global, root: NodeView<'_>) -> Result<Rows, AllocError>
        ensures at_end { (h : List ℕ → List ℕ) (k : List ℕ) (slots last : List TrieSlot) → IsTrailAlong (trail_shape self.now) root.entry self.now h k slots last
            → IfOk result (λ rows. rows ≡ without k (entries_at_end h (trail_shape self.now) k (trail_blocks self.now) last)) }
        ensures trie { (h : List ℕ → List ℕ) (k : List ℕ) (slots : List TrieSlot) (es : List (List ℕ × Data)) → IsTrailFrom (trail_shape self.now) root.entry self.now h k slots es
            → IfOk result (λ rows. rows ≡ without k (along h (trail_shape self.now) k (length (trail_blocks self.now) + 1) 0 es)) }
    {
        match end_slot(self.shape, root, &self.blocks, &self.hash, self.depth) {
            NodeSlot::Bucket(bucket) => rows_without(alloc, bucket, self.key.as_str()),
            NodeSlot::Empty => Ok(Rows::new(alloc)),
            NodeSlot::Child(_) => Ok(Rows::new(alloc)),
        }
    }

    // The same where the key is there, or `None` where it isn't.
    fn rest(&self, alloc: Global, root: NodeView<'_>) -> Result<Option<Rows>, AllocError>
        ensures at_end { (h : List ℕ → List ℕ) (k : List ℕ) (slots last : List TrieSlot) → IsTrailAlong (trail_shape self.now) root.entry self.now h k slots last
            → RestIs k (entries_at_end h (trail_shape self.now) k (trail_blocks self.now) last) result }
        ensures trie { (h : List ℕ → List ℕ) (k : List ℕ) (slots : List TrieSlot) (es : List (List ℕ × Data)) → IsTrailFrom (trail_shape self.now) root.entry self.now h k slots es
            → RestIs k (along h (trail_shape self.now) k (length (trail_blocks self.now) + 1) 0 es) result }
    {
        match end_slot(self.shape, root, &self.blocks, &self.hash, self.depth) {
            NodeSlot::Bucket(bucket) => match bucket.find(self.key.as_str()) {
                Some(_) => Ok(Some(rows_without(alloc, bucket, self.key.as_str())?)),
                None => Ok(None),
            },
            NodeSlot::Empty => Ok(None),
            NodeSlot::Child(_) => Ok(None),
        }
    }

    // Sets the value at the key.
    fn set_way<K: Store>(
        self,
        alloc: Global,
        root: NodeView<'_>,
        val: &Node<'_>,
        store: &mut K,
    ) -> Result<Octets, HamtFault>
        requires { NestsIn deepest_value val.now }
        ensures sets { (h : List ℕ → List ℕ) (k : List ℕ) (v : Data) (slots : List TrieSlot) (es : List (List ℕ × Data)) → IsTrailFrom (trail_shape self) root.entry self h k slots es
            → HasData val.now v → has_trie h (trail_shape self) (put bytewise k v es) ≡ true → Sets h (trail_shape self) k v es (K.moment store.old) result (K.moment store.new) }
        ensures edits { (h : List ℕ → List ℕ) (k : List ℕ) (v : Data) (slots last : List TrieSlot) → IsTrailAlong (trail_shape self) root.entry self h k slots last → HasData val.now v
            → SetsAlong (trail_shape self) (trail_blocks self) (is_full_at_end h (trail_shape self) k (trail_blocks self) last) (K.moment store.old) result (K.moment store.new) }
        ensures caused { CausedBy (K.moment store.old) result (K.moment store.new) }
        ensures gets { (K.moment store.new).gets ≡ (K.moment store.old).gets }
    {
        let mut rows = self.others(alloc, root)?;
        rows.put(alloc, self.key.as_str(), val)?;
        let mut plan = Vec::new(alloc);
        let depth = self.depth.saturating_add(1);
        let slot = slot_of(alloc, rows, &self, depth, &mut plan)?;
        rewrite(alloc, root, self, slot, plan, store)
    }

    // Removes the key.
    fn remove_way<K: Store>(
        self,
        alloc: Global,
        root: NodeView<'_>,
        store: &mut K,
    ) -> Result<Octets, HamtFault>
        ensures removes { (h : List ℕ → List ℕ) (k : List ℕ) (slots : List TrieSlot) (es : List (List ℕ × Data)) → IsTrailFrom (trail_shape self) root.entry self h k slots es
            → Removes h (trail_shape self) k es (K.moment store.old) result (K.moment store.new) }
        ensures edits { (h : List ℕ → List ℕ) (k : List ℕ) (slots last : List TrieSlot) → IsTrailAlong (trail_shape self) root.entry self h k slots last
            → RemovesAlong (trail_shape self) k (entries_at_end h (trail_shape self) k (trail_blocks self) last) (trail_blocks self) (K.moment store.old) result (K.moment store.new) }
        ensures caused { CausedBy (K.moment store.old) result (K.moment store.new) }
        ensures gets { (K.moment store.new).gets ≡ (K.moment store.old).gets }
    {
        let rows = match self.rest(alloc, root)? {
            Some(rows) => rows,
            None => return Err(HamtFault::NoKey),
        };
        let shape = self.shape;
        rewrite(
            alloc,
            root,
            self,
            few_slot(shape, rows),
            Vec::new(alloc),
            store,
        )
    }

    /// Sets the value at the key: the answer is the new root node, and the other new nodes on the key's way are put, each
    /// behind the one beneath it. The trail is that of this root, the key isn't exhausted, and the value leaves room for the
    /// node around it. Nothing is put where a new node is longer than a block may be. `_keys` names the hash of the keys; none is
    /// computed, since the trail keeps those that a split needs.
    pub fn set<K: Store, H: KeyHash>(
        self,
        alloc: Global,
        root: NodeView<'_>,
        val: &Node<'_>,
        _keys: &H,
        store: &mut K,
    ) -> Result<Octets, HamtFault>
        requires { NestsIn deepest_value val.now }
        ensures sets { (p : HamtShape) (k : List ℕ) (v : Data) (slots : List TrieSlot) (es : List (List ℕ × Data)) → IsTrailFrom p root.entry self H.hash_of k slots es → HasData val.now v
            → has_trie H.hash_of p (put bytewise k v es) ≡ true → Sets H.hash_of p k v es (K.moment store.old) result (K.moment store.new) }
        // Where the trie beneath the root was held, so is that beneath the answer; and each block that was added has its children held.
        ensures held { (p : HamtShape) (k : List ℕ) (v : Data) (slots : List TrieSlot) (es : List (List ℕ × Data)) → IsTrailFrom p root.entry self H.hash_of k slots es → HasData val.now v
            → has_trie H.hash_of p (put bytewise k v es) ≡ true
            → BothTold (K.moment store.old).blocks (K.moment store.new).blocks (HoldsAfter H.hash_of p es (put bytewise k v es) result) }
        // Each of the new nodes on the key's way was put, also one that was there before.
        ensures gives { (p : HamtShape) (k : List ℕ) (v : Data) (slots : List TrieSlot) (es : List (List ℕ × Data)) → IsTrailFrom p root.entry self H.hash_of k slots es → HasData val.now v
            → has_trie H.hash_of p (put bytewise k v es) ≡ true → GivesWay H.hash_of p k (put bytewise k v es) result (K.moment store.new) }
        // Over every store, of whatever trie the nodes on the way are.
        ensures edits { (p : HamtShape) (k : List ℕ) (v : Data) (slots last : List TrieSlot) → IsTrailAlong p root.entry self H.hash_of k slots last → HasData val.now v
            → SetsAlong p (trail_blocks self) (is_full_at_end H.hash_of p k (trail_blocks self) last) (K.moment store.old) result (K.moment store.new) }
        ensures caused { CausedBy (K.moment store.old) result (K.moment store.new) }
        ensures gets { (K.moment store.new).gets ≡ (K.moment store.old).gets }
    {
        let _text = self.key.as_str();
        self.set_way(alloc, root, val, store)
    }

    /// Removes the key: the answer is the new root node, and the other new nodes on the key's way are put, each behind the one
    /// beneath it. A node beneath which a bucket takes all entries is a bucket in the node above, as far up as needed. Where the
    /// key isn't there, nothing is done. `_keys` names the hash of the keys; none is computed.
    pub fn remove<K: Store, H: KeyHash>(
        self,
        alloc: Global,
        root: NodeView<'_>,
        _keys: &H,
        store: &mut K,
    ) -> Result<Octets, HamtFault>
        ensures removes { (p : HamtShape) (k : List ℕ) (slots : List TrieSlot) (es : List (List ℕ × Data)) → IsTrailFrom p root.entry self H.hash_of k slots es
            → Removes H.hash_of p k es (K.moment store.old) result (K.moment store.new) }
        // Where the trie beneath the root was held, so is that beneath the answer; and each block that was added has its children held.
        ensures held { (p : HamtShape) (k : List ℕ) (slots : List TrieSlot) (es : List (List ℕ × Data)) → IsTrailFrom p root.entry self H.hash_of k slots es
            → BothTold (K.moment store.old).blocks (K.moment store.new).blocks (HoldsAfter H.hash_of p es (without k es) result) }
        // Each of the nodes on the key's way then was put, also one that was there before.
        ensures gives { (p : HamtShape) (k : List ℕ) (slots : List TrieSlot) (es : List (List ℕ × Data)) → IsTrailFrom p root.entry self H.hash_of k slots es
            → GivesWay H.hash_of p k (without k es) result (K.moment store.new) }
        // Over every store, of whatever trie the nodes on the way are.
        ensures edits { (p : HamtShape) (k : List ℕ) (slots last : List TrieSlot) → IsTrailAlong p root.entry self H.hash_of k slots last
            → RemovesAlong p k (entries_at_end H.hash_of p k (trail_blocks self) last) (trail_blocks self) (K.moment store.old) result (K.moment store.new) }
        ensures caused { CausedBy (K.moment store.old) result (K.moment store.new) }
        ensures gets { (K.moment store.new).gets ≡ (K.moment store.old).gets }
    {
        self.remove_way(alloc, root, store)
    }
}
