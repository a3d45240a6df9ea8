//! Reading the value for which a piece stands, part by part.
mod nodes;

ghost use Rattle.std.specs.Prelude.{◌≡◌, ◌<◌, ◌≤◌, [], false, Some, length, ℕ};
ghost use Rattle.std.specs.List.{AllByRecursion};
ghost use Rattle.ild_cbor.specs.declared.piece.Piece.TheVariants as P;
ghost use Rattle.ild_view_entries.specs.Forms.{MapDelims};
ghost use Rattle.ild_layer_piece.specs.Pieces.{IsNumbered};
ghost use Rattle.ild_schema.specs.Kinds.{meant};
ghost use Rattle.ild_schema.specs.Table.{IsWithin};
ghost use Rattle.ild_schema.specs.declared.def.MapForm.TheVariants as MF;
ghost use Rattle.ild_schema.specs.declared.def.TypeDef.TheVariants as D;
ghost use Rattle.ild_struct.specs.Parts.{HasNumber};
ghost use Rattle.ild_union.specs.Forms.{passes_over};
ghost use Rattle.ild_layer_parts.specs.Ready.{IsInlined};
ghost use Rattle.ild_open_parts.specs.Checked.{IsChecked, IsHamtRoot, IsTyped};
ghost use Rattle.ild_open_parts.specs.Fields.{HasFieldFront, ReadsPart};
ghost use Rattle.ild_open_parts.specs.Hamts.{IsSpelledRow, ReadsHamt, ReadsListed};
ghost use Rattle.ild_open_read.specs.inside.Passing.{ReadsRoot};
ghost use Rattle.ild_open_read.specs.inside.Sound.{AreSound};
ghost use Rattle.ild_open_read.specs.Parts.{HasFronts, ReadsElements, ReadsFields, ReadsForm, ReadsLeft, ReadsMember, ReadsSlot};

use crate::form::hamt_shape;
use crate::passing::root_view;
use crate::reader::Reader;
use crate::reading::nodes::pass_slots;
use ild_bulk_walker::Row;
use ild_cbor::{Node, Piece};
use ild_data::{BlockId, HamtShape, KeyHash};
use ild_edges::Store;
use ild_layer_piece::{is_null_there, items};
use ild_open_known::{Known, ReadAs};
use ild_open_parts::{
    OpenFault, add, add_field, add_pair, hamt_rows, kept_leaf, left_out, levels, member_of,
    part_piece, row_item, union_with, vals_for,
};
use ild_schema::{
    Accepted, Field, MapForm, Slot, StructDef, TypeDef, TypeNo, UnionDef, Val, ValFields, ValPairs,
};
use ild_struct::{Part, layer};
use ild_view_entries::{EntriesLeft, form_entries};

// Reads the elements of a list.
#[cycle(reads)]
fn read_list<'b, K: Store, H: KeyHash>(
    reader: &Reader<'_, H>,
    acc: &'b Accepted,
    elem: Slot,
    piece: &Piece<'b>,
    room: u32,
    at: BlockId,
    known: &mut Known,
    store: &mut K,
) -> Result<Val, OpenFault>
    requires within { elem.ty.0 < length acc.now }
    requires room { room ≤ 96 }
    requires typed { ∥ ((place : ℕ) × IsTyped acc.now room (D.List elem place) piece.now) ∥₁ }
    requires sound { AreSound H.hash_of acc.now (K.moment store.old) known.old }
    ensures reads { ReadsElements H.hash_of at.0 acc.now room reader.now.keep elem piece.now (K.moment store.old) result (K.moment store.new) }
    ensures sound { AreSound H.hash_of acc.now (K.moment store.new) known.new }
{
    acc.recall();
    let Some(mut left) = items(piece) else {
        unreachable!()
    };
    let mut vals = vals_for(reader.alloc, reader.keep, piece)?;
    while let Some(item) = left.next() {
        let part = Piece::Node(item);
        let val = read_slot(reader, acc, elem, &part, room, at, known, store)?;
        add(&mut vals, reader.keep, val)?;
    }
    Ok(Val::List(vals))
}

// Reads the entries that are left of a map.
#[cycle(reads)]
fn read_pairs<'b, K: Store, H: KeyHash>(
    reader: &Reader<'_, H>,
    acc: &'b Accepted,
    value: Slot,
    entries: EntriesLeft<'b>,
    room: u32,
    at: BlockId,
    known: &mut Known,
    store: &mut K,
) -> Result<Val, OpenFault>
    requires within { value.ty.0 < length acc.now }
    requires room { room ≤ 96 }
    requires fronts { ∥ HasFronts acc.now room value entries ∥₁ }
    requires sound { AreSound H.hash_of acc.now (K.moment store.old) known.old }
    ensures reads { ReadsLeft H.hash_of at.0 acc.now room reader.now.keep value entries.entry (K.moment store.old) result (K.moment store.new) }
    ensures sound { AreSound H.hash_of acc.now (K.moment store.new) known.new }
{
    let mut kept = ValPairs::new(reader.alloc);
    let mut left = entries;
    while let Some((key, part, behind)) = left.split_first() {
        let val = read_slot(reader, acc, value, &part, room, at, known, store)?;
        add_pair(reader.alloc, &mut kept, reader.keep, key, val)?;
        left = behind;
    }
    Ok(Val::Map(kept))
}

// Reads the entries that rows spell, each in the block of its row. The keys of the rows become those of the map.
#[cycle(reads)]
fn read_rows<K: Store, H: KeyHash>(
    reader: &Reader<'_, H>,
    acc: &Accepted,
    key: TypeNo,
    value: Slot,
    rows: Vec<Row>,
    room: u32,
    known: &mut Known,
    store: &mut K,
) -> Result<Val, OpenFault>
    requires keyed { key.0 < length acc.now }
    requires within { value.ty.0 < length acc.now }
    requires room { room ≤ 96 }
    requires spelled { ∥ AllByRecursion IsSpelledRow rows.items ∥₁ }
    requires sound { AreSound H.hash_of acc.now (K.moment store.old) known.old }
    ensures reads { ReadsListed H.hash_of acc.now room reader.now.keep key value rows.items (K.moment store.old) result (K.moment store.new) }
    ensures sound { AreSound H.hash_of acc.now (K.moment store.new) known.new }
{
    acc.recall();
    let mut pairs = ValPairs::with_room(reader.alloc, rows.len())?;
    for row in rows {
        let item = row_item(reader.alloc, acc, key, value, &row, room)?;
        let part = Piece::Node(item);
        let val = read_slot(reader, acc, value, &part, room, row.block, known, store)?;
        pairs.push((row.key, val))?;
    }
    Ok(Val::Map(pairs))
}

// Goes over the nodes of a HAMT, the entries of each read in its block, and keeps none.
#[cycle(reads)]
fn pass_rows<'b, K: Store, H: KeyHash>(
    reader: &Reader<'_, H>,
    acc: &'b Accepted,
    key: TypeNo,
    value: Slot,
    shape: HamtShape,
    root: &Node<'b>,
    room: u32,
    at: BlockId,
    known: &mut Known,
    store: &mut K,
) -> Result<Val, OpenFault>
    requires keyed { key.0 < length acc.now }
    requires within { value.ty.0 < length acc.now }
    requires room { room ≤ 96 }
    requires root { ∥ IsHamtRoot shape root.now ∥₁ }
    requires sound { AreSound H.hash_of acc.now (K.moment store.old) known.old }
    ensures reads { ReadsRoot H.hash_of shape at.0 acc.now room false key value (P.Node root.now) (K.moment store.old) result (K.moment store.new) }
    ensures sound { AreSound H.hash_of acc.now (K.moment store.new) known.new }
{
    acc.recall();
    let view = root_view(shape, root);
    let read_as = ReadAs {
        key,
        value,
        shape,
        room,
    };
    pass_slots(reader, acc, read_as, view, &[], at, known, store)?;
    Ok(Val::Null)
}

// Reads the entries of a HAMT: those that are kept in the order of their keys, and else node by node. One that was found sound is passed
// over, unless it is to be kept.
#[cycle(reads)]
fn read_hamt<'b, K: Store, H: KeyHash>(
    reader: &Reader<'_, H>,
    acc: &'b Accepted,
    key: TypeNo,
    value: Slot,
    shape: HamtShape,
    piece: &Piece<'b>,
    room: u32,
    at: BlockId,
    known: &mut Known,
    store: &mut K,
) -> Result<Val, OpenFault>
    requires keyed { key.0 < length acc.now }
    requires within { value.ty.0 < length acc.now }
    requires room { room ≤ 96 }
    requires plain { passes_over piece.now ≡ false }
    requires typed { ∥ ((key_at place : ℕ) × IsTyped acc.now room (D.Map key key_at value place (MF.Hamt shape)) piece.now) ∥₁ }
    requires sound { AreSound H.hash_of acc.now (K.moment store.old) known.old }
    ensures reads { ReadsHamt H.hash_of shape at.0 acc.now room reader.now.keep key value piece.now (K.moment store.old) result (K.moment store.new) }
    ensures sound { AreSound H.hash_of acc.now (K.moment store.new) known.new }
{
    acc.recall();
    let Piece::Node(root) = piece else {
        unreachable!()
    };
    if reader.keep {
        let rows = hamt_rows(reader.alloc, shape, root, at, reader.keys, store)?;
        return read_rows(reader, acc, key, value, rows, room, known, store);
    }
    let read_as = ReadAs {
        key,
        value,
        shape,
        room,
    };
    let seat = read_as.seat(root.spelling());
    if reader.passes(known, seat, read_as, root) {
        return Ok(Val::Null);
    }
    let val = pass_rows(reader, acc, key, value, shape, root, room, at, known, store)?;
    reader.remembers(known, seat, read_as, root);
    Ok(val)
}

// Reads a map, in each form.
#[cycle(reads)]
fn read_map<'b, K: Store, H: KeyHash>(
    reader: &Reader<'_, H>,
    acc: &'b Accepted,
    key: TypeNo,
    value: Slot,
    form: &'b MapForm,
    piece: &Piece<'b>,
    room: u32,
    at: BlockId,
    known: &mut Known,
    store: &mut K,
) -> Result<Val, OpenFault>
    requires keyed { key.0 < length acc.now }
    requires within { value.ty.0 < length acc.now }
    requires numbered { IsNumbered acc.now piece.now }
    requires delims { MapDelims form.now }
    requires room { room ≤ 96 }
    requires plain { passes_over piece.now ≡ false }
    requires typed { ∥ ((key_at place : ℕ) × IsTyped acc.now room (D.Map key key_at value place form.now) piece.now) ∥₁ }
    requires sound { AreSound H.hash_of acc.now (K.moment store.old) known.old }
    ensures reads { ReadsForm H.hash_of at.0 acc.now room reader.now.keep key value form.now piece.now (K.moment store.old) result (K.moment store.new) }
    ensures sound { AreSound H.hash_of acc.now (K.moment store.new) known.new }
{
    acc.recall();
    if let Some(shape) = hamt_shape(form) {
        return read_hamt(
            reader, acc, key, value, shape, piece, room, at, known, store,
        );
    }
    match form_entries(acc, form, piece) {
        Some(entries) => read_pairs(reader, acc, value, entries, room, at, known, store),
        None => unreachable!(),
    }
}

// Reads what stands for a field.
#[cycle(reads)]
fn read_field<'b, K: Store, H: KeyHash>(
    reader: &Reader<'_, H>,
    acc: &'b Accepted,
    field: &'b Field,
    part: &Part<'b>,
    room: u32,
    at: BlockId,
    known: &mut Known,
    store: &mut K,
) -> Result<Option<Val>, OpenFault>
    requires within { field.now.slot.ty.0 < length acc.now }
    requires plain { HasNumber [] part.now }
    requires room { room ≤ 96 }
    requires front { ∥ HasFieldFront acc.now room field.now part.now ∥₁ }
    requires sound { AreSound H.hash_of acc.now (K.moment store.old) known.old }
    ensures reads { ReadsPart H.hash_of at.0 acc.now room reader.now.keep field.now part.now (K.moment store.old) result (K.moment store.new) }
    ensures sound { AreSound H.hash_of acc.now (K.moment store.new) known.new }
{
    acc.recall();
    let Some(piece) = part_piece(part) else {
        return left_out(field, part);
    };
    let val = read_slot(reader, acc, field.slot, &piece, room, at, known, store)?;
    Ok(Some(val))
}

// Reads the fields of a struct.
#[cycle(reads)]
fn read_struct<'b, K: Store, H: KeyHash>(
    reader: &Reader<'_, H>,
    acc: &'b Accepted,
    ty: TypeNo,
    def: &'b StructDef,
    piece: &Piece<'b>,
    room: u32,
    at: BlockId,
    known: &mut Known,
    store: &mut K,
) -> Result<Val, OpenFault>
    requires within { ty.0 < length acc.now }
    requires known { meant acc.now ty.0 ≡ Some (D.Struct def.now) }
    requires parts { IsWithin (length acc.now) (D.Struct def.now) }
    requires numbered { IsNumbered acc.now piece.now }
    requires room { room ≤ 96 }
    requires typed { ∥ IsTyped acc.now room (D.Struct def.now) piece.now ∥₁ }
    requires sound { AreSound H.hash_of acc.now (K.moment store.old) known.old }
    ensures reads { ReadsFields H.hash_of at.0 acc.now room reader.now.keep def.now piece.now (K.moment store.old) result (K.moment store.new) }
    ensures sound { AreSound H.hash_of acc.now (K.moment store.new) known.new }
{
    acc.recall();
    let parts = match layer(acc, ty, *piece) {
        Ok(parts) => parts,
        Err(_) => unreachable!(),
    };
    let mut fields = ValFields::new(reader.alloc);
    for (i, field) in def.fields.as_slice().iter().enumerate() {
        let part = parts.field(i);
        let val = read_field(reader, acc, field, &part, room, at, known, store)?;
        add_field(&mut fields, reader.keep, val)?;
    }
    Ok(Val::Struct(fields))
}

// Reads the member of a union.
#[cycle(reads)]
fn read_union<'b, K: Store, H: KeyHash>(
    reader: &Reader<'_, H>,
    acc: &'b Accepted,
    ty: TypeNo,
    def: &'b UnionDef,
    piece: &Piece<'b>,
    room: u32,
    at: BlockId,
    known: &mut Known,
    store: &mut K,
) -> Result<Val, OpenFault>
    requires within { ty.0 < length acc.now }
    requires known { meant acc.now ty.0 ≡ Some (D.Union def.now) }
    requires parts { IsWithin (length acc.now) (D.Union def.now) }
    requires numbered { IsNumbered acc.now piece.now }
    requires plain { passes_over piece.now ≡ false }
    requires room { room ≤ 96 }
    requires typed { ∥ IsTyped acc.now room (D.Union def.now) piece.now ∥₁ }
    requires sound { AreSound H.hash_of acc.now (K.moment store.old) known.old }
    ensures reads { ReadsMember H.hash_of at.0 acc.now room reader.now.keep def.now piece.now (K.moment store.old) result (K.moment store.new) }
    ensures sound { AreSound H.hash_of acc.now (K.moment store.new) known.new }
{
    acc.recall();
    let (number, slot, part) = member_of(acc, ty, def, piece);
    let val = read_slot(reader, acc, slot, &part, room, at, known, store)?;
    union_with(reader.alloc, reader.keep, number, val)
}

/// The value of a slot for which a piece stands, which was checked against the slot, in a room.
#[cycle(reads)]
pub(crate) fn read_slot<'b, K: Store, H: KeyHash>(
    reader: &Reader<'_, H>,
    acc: &'b Accepted,
    slot: Slot,
    piece: &Piece<'b>,
    room: u32,
    at: BlockId,
    known: &mut Known,
    store: &mut K,
) -> Result<Val, OpenFault>
    requires within { slot.ty.0 < length acc.now }
    requires numbered { IsNumbered acc.now piece.now }
    requires inlined { IsInlined acc.now slot piece.now }
    requires room { room ≤ 96 }
    requires checked { ∥ IsChecked acc.now room slot piece.now ∥₁ }
    requires sound { AreSound H.hash_of acc.now (K.moment store.old) known.old }
    ensures reads { ReadsSlot H.hash_of at.0 acc.now room reader.now.keep slot piece.now (K.moment store.old) result (K.moment store.new) }
    ensures sound { AreSound H.hash_of acc.now (K.moment store.new) known.new }
{
    acc.recall();
    if is_null_there(slot, piece) {
        return Ok(Val::Null);
    }
    let ty = slot.ty;
    let def = acc.def(acc.base(ty));
    let Some(less) = room.checked_sub(levels(def)) else {
        unreachable!()
    };
    match def {
        TypeDef::List { elem, .. } => read_list(reader, acc, *elem, piece, less, at, known, store),
        TypeDef::Map {
            key,
            value,
            form,
            ..
        } => read_map(
            reader, acc, *key, *value, form, piece, less, at, known, store,
        ),
        TypeDef::Struct(def) => read_struct(reader, acc, ty, def, piece, less, at, known, store),
        TypeDef::Union(def) => read_union(reader, acc, ty, def, piece, less, at, known, store),
        _ => kept_leaf(reader.alloc, acc, slot, piece, reader.keep),
    }
}
