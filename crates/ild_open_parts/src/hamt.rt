//! The rows of a HAMT, and what stands in each.
ghost use Rattle.std.specs.Prelude.{◌≡◌, ◌<◌, IfOk, length};
ghost use Rattle.std.specs.List.{AllByRecursion};
ghost use Rattle.ild_cbor.specs.declared.piece.Piece.TheVariants as P;
ghost use Rattle.ild_node_slots.specs.Faults.{IsReadFault};
ghost use Rattle.ild_open_parts.specs.Checked.{IsHamtRoot};
ghost use Rattle.ild_open_parts.specs.Hamts.{IsSpelledRow, ListsRoot, RowAnswer, part_fault, told_fault};

use crate::fault::OpenFault;
use ild_bulk_walker::{Row, walk};
use ild_cbor::{BlockWhy, Node, known_root};
use ild_data::{BlockId, HamtShape, KeyHash};
use ild_edges::Store;
use ild_node_slots::{HamtFault, root_of};
use ild_schema::{Accepted, Slot, TypeNo};
use ild_view_walk::{ViewErr, check_item, check_key};
use std::alloc::Global;

/// The fault of a walk, as that of a reader.
pub fn walk_fault(fault: &HamtFault) -> OpenFault
    requires { IsReadFault fault.now }
    ensures { result ≡ told_fault fault.now }
{
    match fault {
        HamtFault::Block { id, why } => OpenFault::Block { id: *id, why: *why },
        HamtFault::Store => OpenFault::Store,
        HamtFault::Memory => OpenFault::Memory,
        HamtFault::Exhausted | HamtFault::Clash { .. } | HamtFault::Size | HamtFault::NoKey =>
            unreachable!(),
    }
}

/// The entries of a HAMT with this root, in the order of their keys; its nodes are read from a store.
pub fn hamt_rows<'b, K: Store, H: KeyHash>(
    alloc: Global,
    shape: HamtShape,
    root: &Node<'b>,
    at: BlockId,
    keys: &H,
    store: &mut K,
) -> Result<Vec<Row>, OpenFault>
    requires root { ∥ IsHamtRoot shape root.now ∥₁ }
    ensures rows { ListsRoot H.hash_of shape at.0 (P.Node root.now) (K.moment store.old) result (K.moment store.new) }
    ensures spelled { IfOk result (λ rows. ∥ AllByRecursion IsSpelledRow rows.items ∥₁) }
{
    let view = match root_of(*root, shape) {
        Ok(view) => view,
        Err(_) => unreachable!(),
    };
    match walk(alloc, view, at, keys, store) {
        Ok(rows) => Ok(rows),
        Err(fault) => Err(walk_fault(&fault)),
    }
}

// The refusal of a key or of a value that stands in a block.
fn part_fault(id: BlockId, fault: ViewErr) -> OpenFault
    ensures { result ≡ part_fault id fault }
{
    match fault {
        ViewErr::Shape { why, .. } => OpenFault::Block {
            id,
            why: BlockWhy::Shape(why),
        },
        ViewErr::Memory => OpenFault::Memory,
    }
}

/// The value that a row spells, where it and the key fit in a room.
pub fn row_item<'r>(
    alloc: Global,
    acc: &'r Accepted,
    key: TypeNo,
    value: Slot,
    row: &'r Row,
    room: u32,
) -> Result<Node<'r>, OpenFault>
    requires keyed { key.0 < length acc.now }
    requires within { value.ty.0 < length acc.now }
    requires spelled { ∥ IsSpelledRow row.now ∥₁ }
    ensures { RowAnswer acc.now room key value row.now result }
{
    let item = known_root(row.value.as_slice());
    if let Err(fault) = check_key(alloc, acc, key, row.key.as_str(), room) {
        return Err(part_fault(row.block, fault));
    }
    match check_item(alloc, acc, value, item, room) {
        Ok(()) => Ok(item),
        Err(fault) => Err(part_fault(row.block, fault)),
    }
}
