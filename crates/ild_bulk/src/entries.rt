//! Entries in one buffer: each is spelled once, while its key is hashed, so that a bucket takes it in one piece.
ghost use Rattle.std.specs.Prelude.{◌≡◌, ◌++◌, ◌∷◌, ◌+◌, ◌≤◌, [], ℕ, List, IfOk, OnOk, drop, length, map, take};
ghost use Rattle.ild_data.specs.Data.{Data};
ghost use Rattle.ild_node.specs.Hashed.{AreHashed};
ghost use Rattle.ild_node.specs.Keyed.{keyed_rows};
ghost use Rattle.ild_node.specs.Rows.{row_seen, rows_seen};
ghost use Rattle.ild_bulk.specs.Keyed.{AreKeyed, AreMarked, HasEntries, IsMarked, entry_front, entry_spelled};

use crate::marked::Marked;
use ild_data::KeyHash;
use ild_emit::Emit;
use ild_node::{HashedEntry, Keyed, Row, add_entry};
use std::alloc::{AllocError, Global};

/// For each of many entries so many bytes are taken at once.
const USUAL_ENTRY: usize = 16;

/// Where an entry stands in a buffer, and the hash of its key.
#[derive(Clone, Copy)]
pub struct Mark {
    pub hash: [u8; 32],
    pub from: usize,
    pub len: usize,
}

/// The mark of an entry, and its key.
#[derive(Clone, Copy)]
pub struct KeyedMark<'k> {
    pub key: &'k str,
    pub mark: Mark,
}

/// A mark that stands elsewhere.
#[derive(Clone, Copy)]
pub(crate) struct BorrowedMark<'m> {
    pub(crate) mark: &'m Mark,
}

/// Entries that are spelled in one buffer, with a mark for each.
#[derive(Drop)]
pub(crate) struct Entries {
    pub(crate) out: Emit,
    pub(crate) marks: Vec<Mark>,
}

/// Appends what stands before the value of an entry. An error may leave the front of it.
pub fn begin_entry(out: &mut Emit, key: &str) -> Result<(), AllocError>
    ensures { OnOk result (out.new ≡ out.old ++ entry_front key.now) }
{
    out.head(4, 2)?;
    out.bytes(key.as_bytes())
}

/// The mark of the last entry of a buffer, which stands behind so many bytes.
pub fn mark_of(out: &Emit, from: usize, hash: [u8; 32]) -> Mark
    ensures { (h : List ℕ → List ℕ) (e : List ℕ × Data) (front : List ℕ) → out.now ≡ front ++ entry_spelled e → from ≡ length front → hash ≡ h e.0 → IsMarked h out.now e result }
{
    Mark {
        hash,
        from,
        len: out.len().saturating_sub(from),
    }
}

// No entry yet, with room for the marks of so many.
fn none_yet(alloc: Global, count: usize) -> Result<Entries, AllocError>
    ensures { (h : List ℕ → List ℕ) → IfOk result (HasEntries h []) }
{
    let mut marks = Vec::new(alloc);
    marks.reserve(count)?;
    Ok(Entries {
        out: Emit::with_room(alloc, count.saturating_mul(USUAL_ENTRY))?,
        marks,
    })
}

// Appends an entry.
fn add(entries: &mut Entries, row: &Row, hash: [u8; 32]) -> Result<(), AllocError>
    ensures { (h : List ℕ → List ℕ) (es : List (List ℕ × Data)) → HasEntries h es entries.old → hash ≡ h (row_seen row.now).0
        → OnOk result (HasEntries h (es ++ row_seen row.now ∷ []) entries.new) }
{
    let from = entries.out.len();
    add_entry(&mut entries.out, row)?;
    entries.marks.push(mark_of(&entries.out, from, hash))?;
    Ok(())
}

/// The entries of rows, each of whose keys is hashed once.
pub(crate) fn entries_of<H: KeyHash>(
    alloc: Global,
    rows: &[Row],
    keys: &H,
) -> Result<Entries, AllocError>
    ensures { IfOk result (HasEntries H.hash_of (rows_seen rows.now)) }
{
    let mut entries = none_yet(alloc, rows.len())?;
    for row in rows {
        let hash = keys.hash(row.key.as_str().as_bytes());
        add(&mut entries, row, hash)?;
    }
    Ok(entries)
}

/// The same of rows that come with their hashes.
pub(crate) fn entries_with(alloc: Global, rows: &[Keyed<'_>]) -> Result<Entries, AllocError>
    ensures { (h : List ℕ → List ℕ) → AreKeyed h rows.now → IfOk result (HasEntries h (keyed_rows rows.now)) }
{
    let mut entries = none_yet(alloc, rows.len())?;
    for keyed in rows {
        add(&mut entries, keyed.row, keyed.hash)?;
    }
    Ok(entries)
}

/// The entry that stands at a mark.
pub(crate) fn entry_at<'b>(bytes: &'b [u8], mark: &Mark) -> &'b [u8]
    ensures { mark.now.from + mark.now.len ≤ length bytes.now → result.now ≡ take mark.now.len (drop mark.now.from bytes.now) }
{
    let (_, rest) = bytes.split_at(mark.from.min(bytes.len()));
    let (entry, _) = rest.split_at(mark.len.min(rest.len()));
    entry
}

/// The entries as pieces of the buffer in which they are spelled.
pub(crate) fn pieces<'b, M: Marked>(
    alloc: Global,
    bytes: &'b [u8],
    marks: &[M],
) -> Result<Vec<HashedEntry<'b>>, AllocError>
    ensures { (h : List ℕ → List ℕ) (es : List (List ℕ × Data)) → AreMarked h bytes.now es (map M.mark_seen marks.now) → IfOk result (λ ks. AreHashed h es ks.items) }
{
    let mut pieces = Vec::new(alloc);
    pieces.reserve(marks.len())?;
    for marked in marks {
        let mark = marked.mark();
        pieces.push(HashedEntry {
            hash: mark.hash,
            entry: entry_at(bytes, mark),
        })?;
    }
    Ok(pieces)
}
