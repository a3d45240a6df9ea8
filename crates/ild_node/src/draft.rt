//! A node that is written slot by slot.
ghost use Rattle.std.specs.Prelude.{◌≡◌, ◌++◌, ◌∷◌, [], true, Bool, ℕ, List, OnOk, length};
ghost use Rattle.ild_data.specs.Data.{Data};
ghost use Rattle.ild_data.specs.Spell.{spell};
ghost use Rattle.ild_node.specs.Drafts.{map_so_far};
ghost use Rattle.ild_node_slots.specs.Form.{bucket_data};
ghost use Rattle.ild_node.specs.Hashed.{AreHashed};

use crate::hashed::HashedEntry;
use crate::write::{are_bytes, begin_with};
use ild_data::{BlockId, HamtShape, Octets};
use ild_emit::Emit;
use std::alloc::{AllocError, Global};

/// How many bytes the map of the widest node has.
const MAP_BYTES: usize = 32;

/// The front of a node of this shape: the map of its slots so far, how many of those are used, and their elements.
#[derive(Drop)]
pub struct Draft {
    pub(crate) shape: HamtShape,
    pub(crate) map: [u8; MAP_BYTES],
    pub(crate) count: u64,
    pub(crate) elements: Emit,
}

// Sets the bit of an index behind those of the slots so far.
fn set_bit(map: &mut [u8; MAP_BYTES], i: u8)
    ensures { (bits : List Bool) → length bits ≡ i → map.old ≡ map_so_far bits → map.new ≡ map_so_far (bits ++ true ∷ []) }
{
    map[i as usize / 8] |= 1 << (i % 8);
}

// Appends the bucket of entries. An error may leave the front of it.
fn add_entries(out: &mut Emit, entries: &[HashedEntry<'_>]) -> Result<(), AllocError>
    ensures { (h : List ℕ → List ℕ) (es : List (List ℕ × Data)) → AreHashed h es entries.now → OnOk result (out.new ≡ out.old ++ spell (bucket_data es)) }
{
    out.head(4, entries.len() as u64)?;
    for hashed in entries {
        out.spelled(hashed.entry)?;
    }
    Ok(())
}

impl Draft {
    ghost use Rattle.std.specs.Prelude.{◌≡◌, ◌<◌, ◌++◌, ◌∷◌, ◌^◌, [], ℕ, List, length, IfOk, OnOk};
    ghost use Rattle.ild_data.specs.declared.hamt_shape.HamtShape.{HamtShape};
    ghost use Rattle.ild_data.specs.Data.{Data};
    ghost use Rattle.ild_data.specs.Trie.{TrieSlot, bucket, child};
    ghost use Rattle.ild_node.specs.Drafts.{HasWritten, FillBucket};
    ghost use Rattle.ild_node.specs.Hashed.{AreHashed};
    ghost use Rattle.ild_node.specs.Written.{IsNodeBlock};

    /// No slot yet, with room for so many bytes of elements.
    pub fn with_room(alloc: Global, shape: HamtShape, room: usize) -> Result<Draft, AllocError>
        ensures { IfOk result (λ draft. HasWritten shape draft []) }
    {
        Ok(Draft {
            shape,
            map: [0; MAP_BYTES],
            count: 0,
            elements: Emit::with_room(alloc, room)?,
        })
    }

    /// Appends the link to the block of a child, at the index behind those of the slots so far. (An index that is passed over
    /// has an empty slot.)
    pub fn child(&mut self, i: u8, id: &BlockId) -> Result<(), AllocError>
        ensures { (p : HamtShape) (slots : List TrieSlot) → HasWritten p self.old slots → length slots ≡ i → i < 2 ^ p.width → OnOk result (HasWritten p self.new (slots ++ child id.now.0 ∷ [])) }
    {
        are_bytes(&id.0);
        self.elements.block_link(id)?;
        set_bit(&mut self.map, i);
        self.count = self.count.saturating_add(1);
        Ok(())
    }

    /// Appends the bucket of entries, from 1 to as many as one takes, in the same way.
    pub fn bucket(&mut self, i: u8, entries: &[HashedEntry<'_>]) -> Result<(), AllocError>
        ensures { (p : HamtShape) (h : List ℕ → List ℕ) (es : List (List ℕ × Data)) → AreHashed h es entries.now → FillBucket p es
            → (slots : List TrieSlot) → HasWritten p self.old slots → length slots ≡ i → i < 2 ^ p.width → OnOk result (HasWritten p self.new (slots ++ bucket es ∷ [])) }
    {
        add_entries(&mut self.elements, entries)?;
        set_bit(&mut self.map, i);
        self.count = self.count.saturating_add(1);
        Ok(())
    }

    /// The block of the node, of which each index has a slot.
    pub fn finish(self, alloc: Global) -> Result<Octets, AllocError>
        ensures { (p : HamtShape) (slots : List TrieSlot) → HasWritten p self slots → length slots ≡ 2 ^ p.width → IfOk result (IsNodeBlock p slots) }
    {
        let room = self.elements.len();
        let mut out = begin_with(alloc, &self.map[..self.shape.slots() / 8], self.count, room)?;
        out.spelled(self.elements.finish().as_slice())?;
        Ok(out.finish())
    }
}
