//! The nodes of a HAMT, before any is put.
ghost use Rattle.std.specs.Prelude.{◌≡◌, ◌^◌, ◌-◌, ◌<◌, ◌≤◌, ◌==◌, [], List, ℕ, IfOk, OnOk, length, map};
ghost use Rattle.std.specs.List.{filter};
ghost use Rattle.ild_data.specs.Data.{Data};
ghost use Rattle.ild_data.specs.Trie.{TrieSlot};
ghost use Rattle.ild_data.specs.TrieShape.{trie_levels, index};
ghost use Rattle.ild_node.specs.Drafts.{HasWritten};
ghost use Rattle.ild_node.specs.Hashed.{AreHashed};
ghost use Rattle.ild_node.specs.Keyed.{keyed_rows};
ghost use Rattle.ild_node.specs.NewSlots.{IsFilledSlot};
ghost use Rattle.ild_node.specs.Rows.{AreRows};
ghost use Rattle.ild_bulk.specs.Keyed.{AreBare, AreEmpty, AreKeyed, AreMarked, HasMarks, HasParts, Parted, hashed_index, hashed_part};
ghost use Rattle.ild_bulk.specs.Planned.{PlansInto, PlansNode, PlansSlot};

use crate::entries::{BorrowedMark, entries_with, pieces};
use crate::fault::PlanFault;
use crate::marked::Marked;
use ild_data::{HamtShape, NamedBlock, Octets};
use ild_node::{Draft, HashedEntry, Keyed, NewHold, Rows, has_level, index_of};
use std::alloc::{AllocError, Global};

/// So many entries at most are looked through for each index that they have.
const FEW: usize = 24;

/// How many bytes the link to a child takes.
const LINK_ROOM: usize = 41;

/// The entries of a node by the index of their keys.
type Parts<'r> = Vec<Vec<HashedEntry<'r>>>;

/// The marks of entries by the index of their keys.
type MarkParts<'m> = Vec<Vec<BorrowedMark<'m>>>;

// More of many entries seldom have the same index.
fn share_of(shape: HamtShape, count: usize) -> usize {
    count.saturating_add(count / 4) >> shape.width
}

// As many entries as the buckets of a node take.
fn most_of(shape: HamtShape) -> usize {
    (shape.bucket as usize) << shape.width
}

// How many bytes the links to as many children as a node has slots take.
fn links_room(shape: HamtShape) -> usize {
    LINK_ROOM << shape.width
}

// How many bytes the elements of a node take, or a few more. Entries of one node stand far apart in their buffer, so the ends of each
// are looked at here: these loads don't wait for one another, and find the entries before they are copied one by one.
fn room_of(shape: HamtShape, entries: &[HashedEntry<'_>]) -> usize {
    if entries.len() > most_of(shape) {
        return links_room(shape);
    }
    let mut room: usize = 0;
    let mut seen: u8 = 0;
    for hashed in entries {
        room = room.saturating_add(hashed.entry.len().saturating_add(2));
        seen |= end_bytes(hashed.entry);
    }
    room.saturating_add(seen as usize)
}

// The bits that the first or the last of some bytes has.
fn end_bytes(bytes: &[u8]) -> u8 {
    match (bytes.first(), bytes.last()) {
        (Some(first), Some(last)) => *first | *last,
        _ => 0,
    }
}

// An empty vector with room for so many entries.
fn part_for<'r>(alloc: Global, room: usize) -> Result<Vec<HashedEntry<'r>>, AllocError>
    ensures { IfOk result (λ part. part.items ≡ []) }
{
    let mut part = Vec::new(alloc);
    part.reserve(room)?;
    Ok(part)
}

// As many empty vectors as a node has slots, new ones with room for so many entries. Those of a node that is done are taken again.
fn emptied<'r>(
    alloc: Global,
    shape: HamtShape,
    spare: Option<Parts<'r>>,
    room: usize,
) -> Result<Parts<'r>, AllocError>
    ensures { IfOk result (λ parts. AreEmpty (2 ^ shape.width) parts.items) }
{
    let mut parts = match spare {
        Some(parts) => parts,
        None => Vec::new(alloc),
    };
    parts.truncate(shape.slots());
    for i in 0..shape.slots() {
        if i < parts.len() {
            parts[i].clear();
        } else {
            parts.push(part_for(alloc, room)?)?;
        }
    }
    Ok(parts)
}

// The entries by the index of their keys at a depth.
fn parted<'r>(
    alloc: Global,
    shape: HamtShape,
    entries: &[HashedEntry<'r>],
    depth: u32,
    spare: Option<Parts<'r>>,
) -> Result<Parts<'r>, AllocError>
    requires { depth < trie_levels shape }
    ensures { IfOk result (λ parts. Parted (hashed_index shape depth) (2 ^ shape.width) entries.now parts.items) }
{
    let mut parts = emptied(alloc, shape, spare, share_of(shape, entries.len()))?;
    for entry in entries {
        let index = index_of(&entry.hash, depth, shape);
        parts[index as usize].push(*entry)?;
    }
    Ok(parts)
}

// As many vectors as a node has slots, with room for so many marks each.
fn no_marks<'m>(alloc: Global, shape: HamtShape, room: usize) -> Result<MarkParts<'m>, AllocError>
    ensures { IfOk result (λ parts. AreBare (2 ^ shape.width) parts.items) }
{
    let mut parts = Vec::new(alloc);
    for _ in 0..shape.slots() {
        let part = Vec::with_capacity(alloc, room)?;
        parts.push(part)?;
    }
    Ok(parts)
}

// The marks by the index of their keys at a depth.
fn marks_apart<'m, M: Marked>(
    alloc: Global,
    shape: HamtShape,
    marks: &'m [M],
    depth: u32,
) -> Result<MarkParts<'m>, AllocError>
    requires { depth < trie_levels shape }
    ensures many { IfOk result (λ parts. length parts.items ≡ 2 ^ shape.width) }
    ensures parts { (h : List ℕ → List ℕ) (b : List ℕ) (es : List (List ℕ × Data)) → AreMarked h b es (map M.mark_seen marks.now) → IfOk result (λ parts. HasMarks h shape depth b es parts.items) }
{
    let mut parts = no_marks(alloc, shape, share_of(shape, marks.len()))?;
    for marked in marks {
        let mark = marked.mark();
        let index = index_of(&mark.hash, depth, shape);
        parts[index as usize].push(BorrowedMark { mark })?;
    }
    Ok(parts)
}

// Leaves the entries of one index at a depth in a vector that is used again.
fn part_of<'r>(
    shape: HamtShape,
    entries: &[HashedEntry<'r>],
    depth: u32,
    i: usize,
    part: &mut Vec<HashedEntry<'r>>,
) -> Result<(), AllocError>
    requires { depth < trie_levels shape }
    ensures { OnOk result (part.new.items ≡ hashed_part shape depth entries.now i) }
{
    part.clear();
    for entry in entries {
        if index_of(&entry.hash, depth, shape) as usize == i {
            part.push(*entry)?;
        }
    }
    Ok(())
}

// The lesser of two indices, where the first isn't below a bound.
fn nearer(index: usize, from: usize, least: usize) -> usize
    ensures least { result ≤ least }
    ensures near { from ≤ index → result ≤ index }
    ensures from { from ≤ least → from ≤ result }
{
    if index >= from && index < least {
        index
    } else {
        least
    }
}

// The least index from one on that an entry has at a depth, or else the number of slots.
fn next_index(shape: HamtShape, entries: &[HashedEntry<'_>], depth: u32, from: usize) -> usize
    requires { depth < trie_levels shape }
    ensures most { result ≤ 2 ^ shape.width }
    ensures from { from ≤ 2 ^ shape.width → from ≤ result }
    ensures none { (i : ℕ) → from ≤ i → i < result → hashed_part shape depth entries.now i ≡ [] }
{
    let mut least = shape.slots();
    for entry in entries {
        least = nearer(index_of(&entry.hash, depth, shape) as usize, from, least);
    }
    least
}

/// The block of the root node of the HAMT of this shape of entries that are marked in their bytes, in the bytewise order of their keys. The blocks beneath it
/// are appended, each behind those beneath it.
pub fn plan_marked<M: Marked>(
    alloc: Global,
    shape: HamtShape,
    bytes: &[u8],
    marks: &[M],
    blocks: &mut Vec<NamedBlock>,
) -> Result<Octets, PlanFault>
    ensures { (h : List ℕ → List ℕ) (es : List (List ℕ × Data)) → AreMarked h bytes.now es (map M.mark_seen marks.now) → AreRows es
        → PlansNode h shape (trie_levels shape - 0) 0 es result blocks.old.items blocks.new.items }
{
    let mut spare = Vec::new(alloc);
    if marks.len() <= most_of(shape) {
        let pieces = pieces(alloc, bytes, marks)?;
        return plan_node(alloc, shape, &pieces, 0, &mut spare, blocks);
    }
    let parts = marks_apart(alloc, shape, marks, 0)?;
    plan_marks(alloc, shape, bytes, &parts, 0, &mut spare, blocks)
}

// The same of many entries whose marks stand by their index already: those of one index at a time are cut out of the bytes.
fn plan_marks<'r>(
    alloc: Global,
    shape: HamtShape,
    bytes: &'r [u8],
    parts: &[Vec<BorrowedMark<'_>>],
    depth: u32,
    spare: &mut Vec<Parts<'r>>,
    blocks: &mut Vec<NamedBlock>,
) -> Result<Octets, PlanFault>
    requires depth { depth < trie_levels shape }
    requires many { length parts.now ≡ 2 ^ shape.width }
    ensures { (h : List ℕ → List ℕ) (es : List (List ℕ × Data)) → HasMarks h shape depth bytes.now es parts.now → AreRows es
        → PlansNode h shape (trie_levels shape - depth) depth es result blocks.old.items blocks.new.items }
{
    let mut draft = Draft::with_room(alloc, shape, links_room(shape))?;
    for i in 0..shape.slots() {
        let part = pieces(alloc, bytes, &parts[i])?;
        plan_part(
            alloc,
            shape,
            &part,
            depth + 1,
            i as u8,
            spare,
            &mut draft,
            blocks,
        )?;
    }
    Ok(draft.finish(alloc)?)
}

// The rows of a bucket, made anew.
fn bucket_of(alloc: Global, rows: &[Keyed<'_>]) -> Result<Rows, AllocError>
    requires { AreRows (keyed_rows rows.now) }
    ensures { IfOk result (λ b. b ≡ keyed_rows rows.now) }
{
    let mut copies = Vec::new(alloc);
    for keyed in rows {
        copies.push(keyed.row.copy()?)?;
    }
    Ok(Rows::known(copies))
}

/// The block of the node of entries at a depth. The blocks beneath it are appended, each behind those beneath it. The vectors of
/// nodes that are done are kept as spare ones.
#[cycle(plan)]
pub(crate) fn plan_node<'r>(
    alloc: Global,
    shape: HamtShape,
    entries: &[HashedEntry<'r>],
    depth: u32,
    spare: &mut Vec<Parts<'r>>,
    blocks: &mut Vec<NamedBlock>,
) -> Result<Octets, PlanFault>
    ensures { (h : List ℕ → List ℕ) (es : List (List ℕ × Data)) → AreHashed h es entries.now → AreRows es
        → PlansNode h shape (trie_levels shape - depth) depth es result blocks.old.items blocks.new.items }
{
    if !has_level(shape, depth as usize) {
        return Err(PlanFault::Exhausted);
    }
    if entries.len() <= FEW {
        return plan_few(alloc, shape, entries, depth, spare, blocks);
    }
    plan_many(alloc, shape, entries, depth, spare, blocks)
}

// The same of many entries: all slots are gone over.
#[cycle(plan)]
fn plan_many<'r>(
    alloc: Global,
    shape: HamtShape,
    entries: &[HashedEntry<'r>],
    depth: u32,
    spare: &mut Vec<Parts<'r>>,
    blocks: &mut Vec<NamedBlock>,
) -> Result<Octets, PlanFault>
    requires { depth < trie_levels shape }
    ensures { (h : List ℕ → List ℕ) (es : List (List ℕ × Data)) → AreHashed h es entries.now → AreRows es
        → PlansNode h shape (trie_levels shape - depth) depth es result blocks.old.items blocks.new.items }
{
    let parts = parted(alloc, shape, entries, depth, spare.pop())?;
    let block = plan_parts(
        alloc,
        shape,
        &parts,
        depth,
        room_of(shape, entries),
        spare,
        blocks,
    )?;
    spare.push(parts)?;
    Ok(block)
}

/// The same of entries that stand in their parts already, with room for so many bytes of elements.
#[cycle(plan)]
pub(crate) fn plan_parts<'r>(
    alloc: Global,
    shape: HamtShape,
    parts: &[Vec<HashedEntry<'r>>],
    depth: u32,
    room: usize,
    spare: &mut Vec<Parts<'r>>,
    blocks: &mut Vec<NamedBlock>,
) -> Result<Octets, PlanFault>
    requires depth { depth < trie_levels shape }
    requires many { length parts.now ≡ 2 ^ shape.width }
    ensures { (h : List ℕ → List ℕ) (es : List (List ℕ × Data)) → HasParts h shape depth es parts.now → AreRows es
        → PlansNode h shape (trie_levels shape - depth) depth es result blocks.old.items blocks.new.items }
{
    let mut draft = Draft::with_room(alloc, shape, room)?;
    for i in 0..shape.slots() {
        plan_part(
            alloc,
            shape,
            &parts[i],
            depth + 1,
            i as u8,
            spare,
            &mut draft,
            blocks,
        )?;
    }
    Ok(draft.finish(alloc)?)
}

// The same of few: only the indices that they have are gone over.
#[cycle(plan)]
fn plan_few<'r>(
    alloc: Global,
    shape: HamtShape,
    entries: &[HashedEntry<'r>],
    depth: u32,
    spare: &mut Vec<Parts<'r>>,
    blocks: &mut Vec<NamedBlock>,
) -> Result<Octets, PlanFault>
    requires { depth < trie_levels shape }
    ensures { (h : List ℕ → List ℕ) (es : List (List ℕ × Data)) → AreHashed h es entries.now → AreRows es
        → PlansNode h shape (trie_levels shape - depth) depth es result blocks.old.items blocks.new.items }
{
    let mut draft = Draft::with_room(alloc, shape, room_of(shape, entries))?;
    let mut part = part_for(alloc, entries.len())?;
    let mut i = next_index(shape, entries, depth, 0);
    while i < shape.slots() {
        part_of(shape, entries, depth, i, &mut part)?;
        plan_part(
            alloc,
            shape,
            &part,
            depth + 1,
            i as u8,
            spare,
            &mut draft,
            blocks,
        )?;
        i = next_index(shape, entries, depth, i + 1);
    }
    Ok(draft.finish(alloc)?)
}

// Appends the slot of entries to the node above, at this index.
#[cycle(plan)]
fn plan_part<'r>(
    alloc: Global,
    shape: HamtShape,
    entries: &[HashedEntry<'r>],
    depth: u32,
    i: u8,
    spare: &mut Vec<Parts<'r>>,
    draft: &mut Draft,
    blocks: &mut Vec<NamedBlock>,
) -> Result<(), PlanFault>
    requires { i < 2 ^ shape.width }
    ensures { (h : List ℕ → List ℕ) (es : List (List ℕ × Data)) → AreHashed h es entries.now → AreRows es → (slots : List TrieSlot) → HasWritten shape draft.old slots → length slots ≡ i
        → PlansInto h shape (trie_levels shape - depth) depth es result slots draft.new blocks.old.items blocks.new.items }
{
    if entries.is_empty() {
        return Ok(());
    }
    if entries.len() <= shape.bucket as usize {
        draft.bucket(i, entries)?;
        return Ok(());
    }
    plan_child(alloc, shape, entries, depth, i, spare, draft, blocks)
}

// The same of entries that a bucket doesn't take.
#[cycle(plan)]
fn plan_child<'r>(
    alloc: Global,
    shape: HamtShape,
    entries: &[HashedEntry<'r>],
    depth: u32,
    i: u8,
    spare: &mut Vec<Parts<'r>>,
    draft: &mut Draft,
    blocks: &mut Vec<NamedBlock>,
) -> Result<(), PlanFault>
    requires many { shape.bucket < length entries.now }
    requires slot { i < 2 ^ shape.width }
    ensures { (h : List ℕ → List ℕ) (es : List (List ℕ × Data)) → AreHashed h es entries.now → AreRows es → (slots : List TrieSlot) → HasWritten shape draft.old slots → length slots ≡ i
        → PlansInto h shape (trie_levels shape - depth) depth es result slots draft.new blocks.old.items blocks.new.items }
{
    let child = NamedBlock::of(plan_node(alloc, shape, entries, depth, spare, blocks)?);
    draft.child(i, &child.id())?;
    blocks.push(child)?;
    Ok(())
}

// The block of the node of rows at a depth, which are spelled first.
fn plan_rows(
    alloc: Global,
    shape: HamtShape,
    rows: &[Keyed<'_>],
    depth: u32,
    blocks: &mut Vec<NamedBlock>,
) -> Result<Octets, PlanFault>
    requires { AreRows (keyed_rows rows.now) }
    ensures { (h : List ℕ → List ℕ) → AreKeyed h rows.now → PlansNode h shape (trie_levels shape - depth) depth (keyed_rows rows.now) result blocks.old.items blocks.new.items }
{
    let entries = entries_with(alloc, rows)?;
    let bytes = entries.out.finish();
    let pieces = pieces(alloc, bytes.as_slice(), &entries.marks)?;
    let mut spare = Vec::new(alloc);
    plan_node(alloc, shape, &pieces, depth, &mut spare, blocks)
}

/// The slot that rows have in a node above them, which stands one level higher than this depth, by the hashes that come with
/// them. The blocks of their own node and of those beneath it, where there are any, are appended, each behind those beneath it.
pub fn plan_keyed(
    alloc: Global,
    shape: HamtShape,
    rows: &[Keyed<'_>],
    depth: u32,
    blocks: &mut Vec<NamedBlock>,
) -> Result<Option<NewHold>, PlanFault>
    requires { AreRows (keyed_rows rows.now) }
    ensures plans { (h : List ℕ → List ℕ) → AreKeyed h rows.now → PlansSlot h shape (trie_levels shape - depth) depth (keyed_rows rows.now) result blocks.old.items blocks.new.items }
    ensures filled { IfOk result (IsFilledSlot shape) }
{
    if rows.is_empty() {
        return Ok(None);
    }
    if rows.len() <= shape.bucket as usize {
        return Ok(Some(NewHold::Bucket(bucket_of(alloc, rows)?)));
    }
    let block = NamedBlock::of(plan_rows(alloc, shape, rows, depth, blocks)?);
    let id = block.id();
    blocks.push(block)?;
    Ok(Some(NewHold::Child(id)))
}
