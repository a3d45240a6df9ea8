//! Writing a HAMT's nodes and its root.
ghost use Rattle.std.specs.Prelude.{◌≡◌, ◌++◌, ◌^◌, ◌*◌, ◌/◌, ◌≤◌, cond, length, map, take, drop, is_some, IfOk, OnOk};
ghost use Rattle.std.specs.List.{AllByRecursion, range_with_len};
ghost use Rattle.ild_data.specs.Bytes.{AreBytes};
ghost use Rattle.ild_data.specs.Data.{Data};
ghost use Rattle.ild_data.specs.Spell.{head, spell, spell_bytes};
ghost use Rattle.ild_data.specs.declared.hamt_shape.HamtShape.{HamtShape};
ghost use Rattle.ild_data.specs.Trie.{byte_of, is_used, elements_of, entry_data};
ghost use Rattle.ild_cbor.specs.Nodes.{HasData};
ghost use Rattle.ild_typed.specs.Hamt.{root_map};
ghost use Rattle.ild_node_slots.specs.Form.{bucket_data};
ghost use Rattle.ild_node.specs.NewSlots.{IndicesRise, IsFilled, IsFilledSlot, hold_seen, slot_seen, slots_seen, spread, is_next};
ghost use Rattle.std.specs.List.{count_by};
ghost use Rattle.ild_node.specs.Rows.{AreRows, row_seen};
ghost use Rattle.ild_node.specs.Written.{IsNodeBlock, IsSound, bytes_of_bits, spelled};

use crate::hold::{NewHold, NewSlot};
use crate::row::Row;
use crate::rows::Rows;
use ild_cbor::Node;
use ild_data::{HamtShape, Octets};
use ild_emit::Emit;
use std::alloc::{AllocError, Global};

fn bit(on: bool) -> u8
    ensures small { result ≤ 1 }
    ensures one { result ≡ cond on 1 0 }
{
    if on { 1 } else { 0 }
}

// The byte of eight slots, the first the least significant.
fn byte_of(used: &[bool]) -> u8
    requires { length used.now ≡ 8 }
    ensures { result ≡ byte_of used.now }
{
    match used {
        [a, b, c, d, e, f, g, h] => {
            bit(*a)
                + 2 * bit(*b)
                + 4 * bit(*c)
                + 8 * bit(*d)
                + 16 * bit(*e)
                + 32 * bit(*f)
                + 64 * bit(*g)
                + 128 * bit(*h)
        }
        _ => 0,
    }
}

// The map of a node, of which these slots are used.
fn map_of(alloc: Global, used: &[bool]) -> Result<Vec<u8>, AllocError>
    ensures { IfOk result (λ m. m.items ≡ bytes_of_bits used.now) }
{
    let mut map = Vec::new(alloc);
    map.reserve(used.len() / 8)?;
    for j in 0..used.len() / 8 {
        map.push(byte_of(&used[8 * j..8 * j + 8]))?;
    }
    Ok(map)
}

// Whether the slot of this number, of those that are given, has the index.
fn is_at(slots: &[NewSlot], next: usize, index: usize) -> bool
    ensures { result ≡ is_next index (drop next slots.now) }
{
    match slots.get(next) {
        Some(slot) => slot.index as usize == index,
        None => false,
    }
}

// Which of so many slots are used, where the used ones are given.
fn used_at(alloc: Global, slots: &[NewSlot], count: usize) -> Result<Vec<bool>, AllocError>
    ensures { IfOk result (λ u. u.items ≡ map is_used (spread 0 count slots.now)) }
{
    let mut used = Vec::new(alloc);
    let mut next = 0;
    for i in 0..count {
        let on = is_at(slots, next, i);
        used.push(on)?;
        next += bit(on) as usize;
    }
    Ok(used)
}

// Which slots are used.
fn used_of(alloc: Global, slots: &[Option<NewHold>]) -> Result<Vec<bool>, AllocError>
    ensures { IfOk result (λ u. u.items ≡ map is_used (map slot_seen slots.now)) }
{
    let mut used = Vec::new(alloc);
    for slot in slots {
        used.push(slot.is_some())?;
    }
    Ok(used)
}

/// How many are set.
pub(crate) fn count_of(used: &[bool]) -> u64
    ensures { result ≡ count_by (λ b. b) used.now }
{
    let mut count = 0;
    for on in used {
        count += *on as u64;
    }
    count
}

/// Room for the beginning of a node.
const FRONT_ROOM: usize = 40;

/// The beginning of a node with this map, up to its elements, with room for so many bytes behind it.
pub(crate) fn begin_with(
    alloc: Global,
    map: &[u8],
    elements: u64,
    room: usize,
) -> Result<Emit, AllocError>
    ensures { IfOk result (λ out. out ≡ head 4 2 ++ spell_bytes map.now ++ head 4 elements) }
{
    let mut out = Emit::with_room(alloc, room.saturating_add(FRONT_ROOM))?;
    out.head(4, 2)?;
    out.bytes(map)?;
    out.head(4, elements)?;
    Ok(out)
}

/// The beginning of a node, up to its elements.
pub(crate) fn begin(alloc: Global, used: &[bool], elements: u64) -> Result<Emit, AllocError>
    ensures { IfOk result (λ out. out ≡ head 4 2 ++ spell_bytes (bytes_of_bits used.now) ++ head 4 elements) }
{
    begin_with(alloc, &map_of(alloc, used)?, elements, 0)
}

/// Appends an entry of a bucket. An error may leave the front of it.
pub fn add_entry(out: &mut Emit, row: &Row) -> Result<(), AllocError>
    ensures { OnOk result (out.new ≡ out.old ++ spell (entry_data (row_seen row.now))) }
{
    out.head(4, 2)?;
    out.bytes(row.key.as_str().as_bytes())?;
    out.spelled(row.value.as_slice())
}

fn add_bucket(out: &mut Emit, rows: &Rows) -> Result<(), AllocError>
    ensures bucket { OnOk result (out.new ≡ out.old ++ spell (bucket_data rows.now)) }
    ensures rows { AreRows rows.now }
{
    let rows = rows.as_slice();
    out.head(4, rows.len() as u64)?;
    for row in rows {
        add_entry(out, row)?;
    }
    Ok(())
}

// The items of a slice of bytes are bytes; a caller that needs the fact makes this call, which does no work.
pub(crate) fn are_bytes(bytes: &[u8])
    ensures { AreBytes bytes.now }
{}

// Appends the element of a used slot.
fn add_hold(out: &mut Emit, hold: &NewHold) -> Result<(), AllocError>
    ensures element { OnOk result (out.new ≡ out.old ++ spelled (elements_of (hold_seen hold.now))) }
    ensures sound { (p : HamtShape) → IsFilled p hold.now → OnOk result (IsSound p (hold_seen hold.now)) }
{
    match hold {
        NewHold::Bucket(rows) => add_bucket(out, rows),
        NewHold::Child(id) => {
            are_bytes(&id.0);
            out.block_link(id)
        }
    }
}

/// Appends the element of a slot, where it has one.
pub(crate) fn add_slot(out: &mut Emit, slot: &Option<NewHold>) -> Result<(), AllocError>
    ensures element { OnOk result (out.new ≡ out.old ++ spelled (elements_of (slot_seen slot.now))) }
    ensures sound { (p : HamtShape) → IsFilledSlot p slot.now → OnOk result (IsSound p (slot_seen slot.now)) }
{
    match slot {
        Some(hold) => add_hold(out, hold),
        None => Ok(()),
    }
}

/// The block of the node of this shape whose used slots these are. Their indices rise below the number of its slots, and each bucket
/// has from 1 to as many entries as the shape says.
pub fn write_node(alloc: Global, shape: HamtShape, slots: &[NewSlot]) -> Result<Octets, AllocError>
    requires rise { IndicesRise shape 0 slots.now }
    requires filled { AllByRecursion (λ s. IsFilled shape s.hold) slots.now }
    ensures { IfOk result (λ out. IsNodeBlock shape (slots_seen shape slots.now) out) }
{
    let used = used_at(alloc, slots, shape.slots())?;
    let mut out = begin(alloc, &used, slots.len() as u64)?;
    for slot in slots {
        add_hold(&mut out, &slot.hold)?;
    }
    Ok(out.finish())
}

/// The block of the node of which each index has a slot here, used or not. Each bucket has from 1 to as many entries as the shape says.
pub fn write_slots(alloc: Global, slots: &[Option<NewHold>]) -> Result<Octets, AllocError>
    ensures { (p : HamtShape) → length slots.now ≡ 2 ^ p.width → AllByRecursion (IsFilledSlot p) slots.now → IfOk result (λ out. IsNodeBlock p (map slot_seen slots.now) out) }
{
    let used = used_of(alloc, slots)?;
    let mut out = begin(alloc, &used, count_of(&used))?;
    for slot in slots {
        add_slot(&mut out, slot)?;
    }
    Ok(out.finish())
}

/// The root map of a HAMT of this shape, whose own node this is.
pub fn write_root(alloc: Global, shape: HamtShape, node: &Node<'_>) -> Result<Octets, AllocError>
    ensures { (t : Data) → HasData node.now t → IfOk result (λ out. out ≡ spell (root_map shape t)) }
{
    let mut out = Emit::new(alloc);
    out.head(5, 3)?;
    out.text("hamt")?;
    out.node(node)?;
    out.text("hashAlg")?;
    out.head(0, 18)?;
    out.text("bucketSize")?;
    out.head(0, shape.bucket as u64)?;
    Ok(out.finish())
}
