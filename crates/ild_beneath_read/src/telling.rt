//! What a block tells of its children.
ghost use Rattle.std.specs.Prelude.{◌≡◌, ◌<◌, IfOk, IfSome, length, map};
ghost use Rattle.ild_beneath.specs.Children.{children_in, children_of};
ghost use Rattle.ild_cbor.specs.Nodes.{HasData};
ghost use Rattle.ild_data.specs.Data.{Data};
ghost use Rattle.ild_dirty.specs.Beneath.{child_seen};
ghost use Rattle.ild_schema.specs.Kinds.{meant};
ghost use Rattle.ild_typed.specs.Slots.{element_of};
ghost use Rattle.ild_beneath_read.specs.inside.Left.{IsIn};
ghost use Rattle.ild_beneath_read.specs.inside.Pushes.{Pushes};

use crate::pushing::{push_node, push_slot};
use ild_beneath::data_are_read;
use ild_cbor::{Node, Piece, check};
use ild_dirty::Child;
use ild_schema::{Accepted, Slot, TypeDef, TypeNo};
use std::alloc::{AllocError, Global};

/// How many steps lead from a block to its parts: as many as a block nests.
const STEPS: u32 = 96;

// The slot of the elements or values of the type with a number, where there is such a type.
fn element_slot(acc: &Accepted, number: u32) -> Option<Slot>
    ensures same { result ≡ element_of (meant acc.now number) }
    ensures within { IfSome result (IsIn acc.now) }
{
    if number >= acc.types() {
        return None;
    }
    match acc.def(acc.base(TypeNo(number))) {
        TypeDef::List { elem, .. } => Some(*elem),
        TypeDef::Map { value, .. } => Some(*value),
        _ => None,
    }
}

// Appends the children that the item of a block tells, at a place of this kind.
fn push_root<'b>(
    alloc: Global,
    acc: &'b Accepted,
    ty: TypeNo,
    kind: u32,
    node: &Node<'b>,
    out: &mut Vec<Child>,
) -> Result<(), AllocError>
    requires { ty.0 < length acc.now }
    ensures { (d : Data) → HasData node.now d → Pushes result out.old.items out.new.items (children_in acc.now ty kind d) }
{
    if kind == 0 {
        let slot = Slot {
            ty,
            nullable: false,
        };
        let piece = Piece::Node(*node);
        return push_slot(alloc, acc, slot, &piece, STEPS, out);
    }
    match element_slot(acc, kind - 1) {
        Some(value) => push_node(alloc, acc, value, kind, node, STEPS, out),
        None => Ok(()),
    }
}

/// The children of a block at the place of a root of a type (kind 0), or of a HAMT's node of the type with a number (kind 1 more), in order.
/// Bytes that are no block have none.
pub fn told_children(
    alloc: Global,
    acc: &Accepted,
    ty: TypeNo,
    kind: u32,
    block: &[u8],
) -> Result<Vec<Child>, AllocError>
    requires { ty.0 < length acc.now }
    ensures { IfOk result (λ found. map child_seen found.items ≡ children_of acc.now ty kind block.now) }
{
    // It does no work: its clause says that the data of a block are read from it.
    data_are_read();
    let mut found = Vec::new(alloc);
    let Ok(node) = check(block) else {
        return Ok(found);
    };
    push_root(alloc, acc, ty, kind, &node, &mut found)?;
    Ok(found)
}
