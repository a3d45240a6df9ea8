//! A document's value is read, as one that nests at most so many levels as it may beneath a root that names its schema.
ghost use Rattle.std.specs.Prelude.{◌≡◌, ◌<◌, ◌≤◌, None, IfErr, length};
ghost use Rattle.ild_cbor.specs.Block.{IsBlockOf};
ghost use Rattle.ild_cbor.specs.Reading.{fault_of};
ghost use Rattle.ild_data.specs.Data.{Data};
ghost use Rattle.ild_data.specs.Spell.{id_of};
ghost use Rattle.ild_open_held.specs.Splits.{HasFront};
ghost use Rattle.ild_schema.specs.Slots.{plainly};
ghost use Rattle.ild_view_doc.specs.Block.{HasRoot};
ghost use Rattle.ild_named_root.specs.inside.Loading.{HasDocFront, IsMeasuringFault, LoadsBeneath, Measures, ReadsDeeper, ReadsDoc, measured};

use crate::NameFault;
use ild_cbor::{Piece, known_root};
use ild_data::{BlockId, KeyHash};
use ild_edges::Store;
use ild_named::NAMED_ROOM;
use ild_open::OpenFault;
use ild_open_read::read;
use ild_schema::{Accepted, Slot, TypeNo};
use ild_view_walk::{ViewErr, check_item};
use std::alloc::Global;

/// How many levels a value may nest under a bare root.
const ROOM: u32 = 96;

// What the refusal of a value's data by themselves is, in the room that is left.
fn measured(fault: ViewErr) -> NameFault
    ensures { result ≡ measured fault }
{
    match fault {
        ViewErr::Shape { .. } => NameFault::Depth,
        ViewErr::Memory => NameFault::Memory,
    }
}

// Measures the block by itself, without the nodes of its HAMTs: `Depth`, where it nests too many levels.
fn measure(alloc: Global, acc: &Accepted, ty: TypeNo, block: &[u8]) -> Result<(), NameFault>
    requires within { ty.0 < length acc.now }
    requires faultless { fault_of block.now ≡ None }
    ensures measures { (t : Data) → IsBlockOf block.now t → Measures acc.now ty t result }
    ensures fault { IfErr result IsMeasuringFault }
{
    acc.recall();
    let slot = Slot {
        ty,
        nullable: false,
    };
    match check_item(alloc, acc, slot, known_root(block), NAMED_ROOM) {
        Ok(()) => Ok(()),
        Err(fault) => Err(measured(fault)),
    }
}

// Reads the value in a room, and keeps nothing of it.
fn read_in<K: Store, H: KeyHash>(
    alloc: Global,
    acc: &Accepted,
    ty: TypeNo,
    block: &[u8],
    at: BlockId,
    room: u32,
    keys: &H,
    store: &mut K,
) -> Result<(), OpenFault>
    requires within { ty.0 < length acc.now }
    requires faultless { fault_of block.now ≡ None }
    requires named { at.0 ≡ id_of block.now }
    requires room { room ≤ 96 }
    requires front { ∥ HasDocFront acc.now room ty block.now ∥₁ }
    ensures { ReadsDoc H.hash_of acc.now room ty block.now (K.moment store.old) result (K.moment store.new) }
{
    let piece = Piece::Node(known_root(block));
    let slot = Slot {
        ty,
        nullable: false,
    };
    match read(alloc, acc, slot, &piece, room, false, at, keys, store) {
        Ok(_) => {}
        Err(fault) => return Err(fault),
    }
    Ok(())
}

// Why a value is refused that nests too many levels, or whose blocks aren't all there: it is read again as a bare root's value.
fn deeper<K: Store, H: KeyHash>(
    alloc: Global,
    acc: &Accepted,
    ty: TypeNo,
    block: &[u8],
    at: BlockId,
    keys: &H,
    store: &mut K,
) -> NameFault
    requires within { ty.0 < length acc.now }
    requires faultless { fault_of block.now ≡ None }
    requires named { at.0 ≡ id_of block.now }
    requires front { ∥ HasDocFront acc.now 96 ty block.now ∥₁ }
    ensures { ReadsDeeper H.hash_of acc.now ty block.now (K.moment store.old) result (K.moment store.new) }
{
    acc.recall();
    match read_in(alloc, acc, ty, block, at, ROOM, keys, store) {
        Ok(()) => NameFault::Depth,
        Err(OpenFault::Block { id, why }) => NameFault::Block { id, why },
        Err(OpenFault::Store) => NameFault::Store,
        Err(OpenFault::Memory) => NameFault::Memory,
    }
}

// Reads the value whose block by itself nests so few levels.
fn load_shallow<K: Store, H: KeyHash>(
    alloc: Global,
    acc: &Accepted,
    ty: TypeNo,
    block: &[u8],
    at: BlockId,
    keys: &H,
    store: &mut K,
) -> Result<(), NameFault>
    requires within { ty.0 < length acc.now }
    requires faultless { fault_of block.now ≡ None }
    requires named { at.0 ≡ id_of block.now }
    requires root { ∥ HasRoot acc.now ty block.now ∥₁ }
    requires front { (t : Data) → IsBlockOf block.now t → HasFront acc.now 95 (plainly ty, t) }
    ensures { LoadsBeneath H.hash_of acc.now ty block.now (K.moment store.old) result (K.moment store.new) }
{
    acc.recall();
    match read_in(alloc, acc, ty, block, at, NAMED_ROOM, keys, store) {
        Ok(()) => Ok(()),
        Err(OpenFault::Block { .. }) => Err(deeper(alloc, acc, ty, block, at, keys, store)),
        Err(OpenFault::Store) => Err(NameFault::Store),
        Err(OpenFault::Memory) => Err(NameFault::Memory),
    }
}

/// Reads the value of a root block, which may nest 95 levels.
pub(crate) fn load_beneath<K: Store, H: KeyHash>(
    alloc: Global,
    acc: &Accepted,
    ty: TypeNo,
    block: &[u8],
    at: BlockId,
    keys: &H,
    store: &mut K,
) -> Result<(), NameFault>
    requires within { ty.0 < length acc.now }
    requires faultless { fault_of block.now ≡ None }
    requires named { at.0 ≡ id_of block.now }
    requires root { ∥ HasRoot acc.now ty block.now ∥₁ }
    ensures { LoadsBeneath H.hash_of acc.now ty block.now (K.moment store.old) result (K.moment store.new) }
{
    acc.recall();
    match measure(alloc, acc, ty, block) {
        Ok(()) => load_shallow(alloc, acc, ty, block, at, keys, store),
        Err(fault) => Err(fault),
    }
}
