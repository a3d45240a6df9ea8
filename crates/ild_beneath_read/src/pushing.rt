//! The children that a piece in a slot tells, appended.
ghost use Rattle.std.specs.Prelude.{◌<◌, List, ℕ};
ghost use Rattle.std.specs.List.{flat_map};
ghost use Rattle.ild_beneath.specs.Children.{element_children, found, node_children};
ghost use Rattle.ild_beneath.specs.Parts.{named_parts};
ghost use Rattle.ild_cbor.specs.Nodes.{HasData};
ghost use Rattle.ild_cbor.specs.Steps.{HasItems};
ghost use Rattle.ild_data.specs.Data.{Data, Items as DataItems, items_list};
ghost use Rattle.ild_layer_piece.specs.Entries.{HasLeft};
ghost use Rattle.ild_layer_piece.specs.Pieces.{IsNumbered, StandsFor};
ghost use Rattle.ild_open_held.specs.Splits.{Part};
ghost use Rattle.ild_schema.specs.Clear.{AreNamesApart};
ghost use Rattle.ild_typed.specs.Named.{pair_entries};
ghost use Rattle.ild_beneath_read.specs.inside.Left.{AreWithin, FieldsIn, IsIn, IsLeft};
ghost use Rattle.ild_beneath_read.specs.inside.Opened.{PassesInStruct};
ghost use Rattle.ild_beneath_read.specs.inside.Pushes.{Pushes, told};

use crate::fields::{found_in_list, found_in_map};
use crate::node::{elements_of, push_link};
use crate::opened::Opened;
use crate::parts::Parts;
use crate::piece::opened;
use ild_cbor::{Items, Node, Piece};
use ild_dirty::Child;
use ild_layer_fields::Fields;
use ild_layer_piece::MapEntries;
use ild_schema::{Accepted, Slot};
use std::alloc::{AllocError, Global};

/// Appends what a piece in a slot tells, where so many steps to parts are left.
#[cycle(push)]
pub(crate) fn push_slot<'b>(
    alloc: Global,
    acc: &'b Accepted,
    slot: Slot,
    piece: &Piece<'b>,
    steps: u32,
    out: &mut Vec<Child>,
) -> Result<(), AllocError>
    requires within { IsIn acc.now slot }
    requires numbered { IsNumbered acc.now piece.now }
    requires inlined { PassesInStruct acc.now slot piece.now }
    ensures { (t : Data) → StandsFor acc.now piece.now t → Pushes result out.old.items out.new.items (found acc.now steps slot t) }
{
    acc.recall();
    if steps == 0 {
        return Ok(());
    }
    match opened(acc, slot, piece) {
        Opened::Nothing => Ok(()),
        Opened::Parts(parts) => push_parts(alloc, acc, parts, steps - 1, out),
        Opened::Named(fields, entries) => push_named(alloc, acc, &fields, entries, steps - 1, out),
        Opened::Listed(fields, items) => push_listed(alloc, acc, &fields, items, steps - 1, out),
        Opened::Member(own, part) => push_slot(alloc, acc, own, &part, steps - 1, out),
        Opened::Root(value, node) => {
            let kind = slot.ty.0 + 1;
            push_node(alloc, acc, value, kind, &node, steps - 1, out)
        }
    }
}

// Appends what parts tell, one after another.
#[cycle(push)]
fn push_parts<'b>(
    alloc: Global,
    acc: &'b Accepted,
    parts: Parts<'b>,
    steps: u32,
    out: &mut Vec<Child>,
) -> Result<(), AllocError>
    requires { AreWithin acc.now parts }
    ensures { (ps : List Part) → IsLeft parts.entry ps → Pushes result out.old.items out.new.items (flat_map (told acc.now steps) ps) }
{
    let mut left = parts;
    while let Some((part, behind)) = left.split_first() {
        left = behind;
        let Some((slot, node)) = part else {
            continue;
        };
        push_slot(alloc, acc, slot, &Piece::Node(node), steps, out)?;
    }
    Ok(())
}

// Appends what the fields of a struct tell, whose names are keys of a map.
#[cycle(push)]
fn push_named<'b>(
    alloc: Global,
    acc: &'b Accepted,
    fields: &Fields<'b>,
    entries: MapEntries<'b>,
    steps: u32,
    out: &mut Vec<Child>,
) -> Result<(), AllocError>
    requires apart { AreNamesApart fields.now.def.now.fields }
    requires within { FieldsIn acc.now fields.now.def.now.fields }
    ensures { (es : List (List ℕ × Data)) → HasLeft entries.entry es → Pushes result out.old.items out.new.items (flat_map (told acc.now steps) (named_parts fields.now.def.now.fields es)) }
{
    let nodes = found_in_map(alloc, fields, entries)?;
    let parts = Parts::Found(fields.def.fields.as_slice(), nodes.as_slice());
    push_parts(alloc, acc, parts, steps, out)
}

// Appends what the fields of a struct tell, whose names stand in pairs.
#[cycle(push)]
fn push_listed<'b>(
    alloc: Global,
    acc: &'b Accepted,
    fields: &Fields<'b>,
    items: Items<'b>,
    steps: u32,
    out: &mut Vec<Child>,
) -> Result<(), AllocError>
    requires apart { AreNamesApart fields.now.def.now.fields }
    requires within { FieldsIn acc.now fields.now.def.now.fields }
    ensures { (ds : DataItems) → HasItems items.entry ds
        → Pushes result out.old.items out.new.items (flat_map (told acc.now steps) (named_parts fields.now.def.now.fields (pair_entries (items_list ds)))) }
{
    let nodes = found_in_list(alloc, fields, items)?;
    let parts = Parts::Found(fields.def.fields.as_slice(), nodes.as_slice());
    push_parts(alloc, acc, parts, steps, out)
}

/// Appends what a node of a HAMT tells: each child at a place of this kind, and what stands in the values of its entries.
#[cycle(push)]
pub(crate) fn push_node<'b>(
    alloc: Global,
    acc: &'b Accepted,
    value: Slot,
    kind: u32,
    node: &Node<'b>,
    steps: u32,
    out: &mut Vec<Child>,
) -> Result<(), AllocError>
    requires { IsIn acc.now value }
    ensures { (d : Data) → HasData node.now d → Pushes result out.old.items out.new.items (node_children (found acc.now steps value) kind d) }
{
    let Some(elements) = elements_of(node) else {
        return Ok(());
    };
    let mut left = elements;
    while let Some(element) = left.next() {
        push_element(alloc, acc, value, kind, &element, steps, out)?;
    }
    Ok(())
}

// Appends what an element of a node tells.
#[cycle(push)]
fn push_element<'b>(
    alloc: Global,
    acc: &'b Accepted,
    value: Slot,
    kind: u32,
    element: &Node<'b>,
    steps: u32,
    out: &mut Vec<Child>,
) -> Result<(), AllocError>
    requires { IsIn acc.now value }
    ensures { (d : Data) → HasData element.now d → Pushes result out.old.items out.new.items (element_children (found acc.now steps value) kind d) }
{
    if let Some(cid) = element.link() {
        return push_link(&cid, kind, out);
    }
    match element.items() {
        Some(entries) => push_parts(alloc, acc, Parts::Bucket(value, entries), steps, out),
        None => Ok(()),
    }
}
