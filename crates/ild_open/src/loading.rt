//! Loading the value at a view.
ghost use Rattle.std.specs.Prelude.{◌≡◌, ◌<◌, ◌≤◌, length, false, true};
ghost use Rattle.ild_cbor.specs.Nodes.{HasData};
ghost use Rattle.ild_cbor.specs.declared.piece.Piece.TheVariants as P;
ghost use Rattle.ild_data.specs.Data.{Data};
ghost use Rattle.ild_data.specs.Limits.{longest_block};
ghost use Rattle.ild_data.specs.Seen.{data_of};
ghost use Rattle.ild_data.specs.Spell.{id_of, spell};
ghost use Rattle.ild_data.specs.Tree.{IsTree};
ghost use Rattle.ild_layer_parts.specs.Ready.{IsInlined};
ghost use Rattle.ild_layer_piece.specs.Pieces.{IsNumbered, StandsFor};
ghost use Rattle.ild_open_held.specs.Splits.{HasFront};
ghost use Rattle.ild_open_parts.specs.Checked.{IsChecked};
ghost use Rattle.ild_open_read.specs.Parts.{ReadsSlot};
ghost use Rattle.ild_typed.proofs.Flat.{IsFlat};
ghost use Rattle.ild_open.specs.inside.Item.{LoadsAlone, LoadsFlat, LoadsPiece};
ghost use Rattle.ild_open.specs.Blocks.{bytes_in};
ghost use Rattle.ild_open.specs.Loaded.{IsShallow, Loads};

use crate::block_at::BlockAt;
use ild_cbor::{Kind, Node, Piece, check};
use ild_data::{BlockId, KeyHash, Tree};
use ild_edges::Store;
use ild_emit::Emit;
use ild_open_read::{OpenFault, read};
use ild_schema::{Accepted, Slot, Val};
use ild_view::View;
use std::alloc::Global;

// The value for which a piece stands, whose data stand in the block of an id.
fn load_in<K: Store, H: KeyHash>(
    alloc: Global,
    acc: &Accepted,
    slot: Slot,
    piece: &Piece<'_>,
    at: BlockId,
    room: u32,
    keys: &H,
    store: &mut K,
) -> Result<Val, OpenFault>
    requires within { slot.ty.0 < length acc.now }
    requires numbered { IsNumbered acc.now piece.now }
    requires inlined { IsInlined acc.now slot piece.now }
    requires room { room ≤ 96 }
    requires tree { ∥ IsChecked acc.now room slot piece.now ∥₁ }
    ensures { ReadsSlot H.hash_of at.0 acc.now room true slot piece.now (K.moment store.old) result (K.moment store.new) }
{
    read(alloc, acc, slot, piece, room, true, at, keys, store)
}

// The value for which a piece stands whose data are no list and no map: no HAMT is in it, so that no block is at fault.
fn load_flat<K: Store, H: KeyHash>(
    alloc: Global,
    acc: &Accepted,
    slot: Slot,
    piece: &Piece<'_>,
    room: u32,
    keys: &H,
    store: &mut K,
) -> Result<Val, OpenFault>
    requires within { slot.ty.0 < length acc.now }
    requires numbered { IsNumbered acc.now piece.now }
    requires inlined { IsInlined acc.now slot piece.now }
    requires room { room ≤ 96 }
    requires tree { ∥ IsChecked acc.now room slot piece.now ∥₁ }
    requires flat { (t : Data) → StandsFor acc.now piece.now t → IsFlat t }
    ensures { LoadsFlat H.hash_of acc.now room slot piece.now (K.moment store.old) result (K.moment store.new) }
{
    // No block is at fault, so that any id does.
    match load_in(alloc, acc, slot, piece, BlockId([0; 32]), room, keys, store) {
        Ok(val) => Ok(val),
        Err(OpenFault::Block { .. }) => unreachable!(),
        Err(OpenFault::Store) => Err(OpenFault::Store),
        Err(OpenFault::Memory) => Err(OpenFault::Memory),
    }
}

// The value of data that bytes spell, which are a block by themselves.
fn load_bytes<K: Store, H: KeyHash>(
    alloc: Global,
    acc: &Accepted,
    slot: Slot,
    tree: &Tree,
    bytes: &[u8],
    room: u32,
    keys: &H,
    store: &mut K,
) -> Result<Val, OpenFault>
    requires within { slot.ty.0 < length acc.now }
    requires room { room ≤ 96 }
    requires front { ∥ HasFront acc.now room (slot, data_of tree.now) ∥₁ }
    requires flat { IsFlat (data_of tree.now) }
    requires short { length (spell (data_of tree.now)) ≤ longest_block }
    requires is_tree { IsTree (data_of tree.now) }
    requires spelled { bytes.now ≡ spell (data_of tree.now) }
    ensures { LoadsAlone H.hash_of acc.now room slot (data_of tree.now) (K.moment store.old) result (K.moment store.new) }
{
    match check(bytes) {
        Ok(node) => load_flat(alloc, acc, slot, &Piece::Node(node), room, keys, store),
        Err(_) => unreachable!(),
    }
}

// The value of a scalar that a block leaves out: it is spelled. An accepted schema has no such scalar that is too long for a block.
fn load_alone<K: Store, H: KeyHash>(
    alloc: Global,
    acc: &Accepted,
    slot: Slot,
    tree: &Tree,
    room: u32,
    keys: &H,
    store: &mut K,
) -> Result<Val, OpenFault>
    requires within { slot.ty.0 < length acc.now }
    requires room { room ≤ 96 }
    requires front { ∥ HasFront acc.now room (slot, data_of tree.now) ∥₁ }
    requires flat { IsFlat (data_of tree.now) }
    requires short { length (spell (data_of tree.now)) ≤ longest_block }
    ensures { LoadsAlone H.hash_of acc.now room slot (data_of tree.now) (K.moment store.old) result (K.moment store.new) }
{
    // It does no work: its clause says that the data are a tree.
    tree.well_formed();
    let mut out = Emit::new(alloc);
    out.tree(tree)?;
    let bytes = out.finish();
    load_bytes(alloc, acc, slot, tree, bytes.as_slice(), room, keys, store)
}

// Whether an item is a list or a map.
fn is_nest(node: &Node<'_>) -> bool
    ensures { result ≡ false → (t : Data) → HasData node.now t → IsFlat t }
{
    match node.kind() {
        Kind::List => true,
        Kind::Map => true,
        _ => false,
    }
}

// The value for which an item stands. The id of its block, which is handed in, is asked for where the item is a list or a map, since
// only then a block may be at fault.
fn load_node<K: Store, H: KeyHash>(
    alloc: Global,
    acc: &Accepted,
    slot: Slot,
    node: &Node<'_>,
    at: BlockAt<'_>,
    room: u32,
    keys: &H,
    store: &mut K,
) -> Result<Val, OpenFault>
    requires within { slot.ty.0 < length acc.now }
    requires inlined { IsInlined acc.now slot (P.Node node.now) }
    requires room { room ≤ 96 }
    requires tree { ∥ IsChecked acc.now room slot (P.Node node.now) ∥₁ }
    ensures { LoadsPiece H.hash_of acc.now room slot (id_of (bytes_in at.entry)) (P.Node node.now) (K.moment store.old) result (K.moment store.new) }
{
    let piece = Piece::Node(*node);
    if is_nest(node) {
        return load_in(alloc, acc, slot, &piece, at.id(), room, keys, store);
    }
    load_flat(alloc, acc, slot, &piece, room, keys, store)
}

// The value for which a piece stands, in this block.
fn load_piece<K: Store, H: KeyHash>(
    alloc: Global,
    acc: &Accepted,
    slot: Slot,
    piece: &Piece<'_>,
    at: BlockAt<'_>,
    room: u32,
    keys: &H,
    store: &mut K,
) -> Result<Val, OpenFault>
    requires within { slot.ty.0 < length acc.now }
    requires numbered { IsNumbered acc.now piece.now }
    requires inlined { IsInlined acc.now slot piece.now }
    requires room { room ≤ 96 }
    requires tree { ∥ IsChecked acc.now room slot piece.now ∥₁ }
    ensures { LoadsPiece H.hash_of acc.now room slot (id_of (bytes_in at.entry)) piece.now (K.moment store.old) result (K.moment store.new) }
{
    match piece {
        Piece::Node(node) => load_node(alloc, acc, slot, node, at, room, keys, store),
        Piece::Inline(_, _) => { load_in(alloc, acc, slot, piece, at.id(), room, keys, store) }
        Piece::Text(_) => load_flat(alloc, acc, slot, piece, room, keys, store),
        Piece::Bytes(_) => load_flat(alloc, acc, slot, piece, room, keys, store),
    }
}

/// The value at a view, whose data stand in this block, and all of whose HAMTs are read from the store, each block once. It may nest so
/// many levels, as its view's data do by themselves. `Block` comes exactly where the store doesn't hold its HAMTs, or where the value
/// nests deeper with them.
pub fn load<K: Store, H: KeyHash>(
    alloc: Global,
    view: &View<'_>,
    at: BlockAt<'_>,
    room: u32,
    keys: &H,
    store: &mut K,
) -> Result<Val, OpenFault>
    requires room { room ≤ 96 }
    requires shallow { ∥ IsShallow room view.now ∥₁ }
    ensures { Loads H.hash_of room view.now (id_of (bytes_in at.entry)) (K.moment store.old) result (K.moment store.new) }
{
    match view.piece() {
        Some(piece) => load_piece(
            alloc,
            view.schema(),
            view.slot(),
            &piece,
            at,
            room,
            keys,
            store,
        ),
        None => {
            let tree = view.rep(alloc)?;
            load_alone(alloc, view.schema(), view.slot(), &tree, room, keys, store)
        }
    }
}
