//! HAMTs (IPLD HashMap): their entries, and the root maps over them.
ghost use Rattle.std.specs.Prelude.{◌≡◌, ◌+◌, ◌++◌, [], ℕ, List, IfOk, IsPermutation, OnErr, OnOk, length, true};
ghost use Rattle.std.specs.List.Sorted.{IsSortedByKey};
ghost use Rattle.ild_bulk.specs.Build.{is_long};
ghost use Rattle.ild_bulk.specs.Keyed.{entry_front};
ghost use Rattle.ild_data.specs.ByteOrder.{bytewise, no_key_twice};
ghost use Rattle.ild_data.specs.Data.{Data};
ghost use Rattle.ild_data.specs.Spell.{spell};
ghost use Rattle.ild_emit.specs.Grown.{IsGrown};
ghost use Rattle.ild_node_slots.specs.Form.{AreTexts};
ghost use Rattle.ild_node.specs.Rows.{AreShallow, deepest_value};
ghost use Rattle.ild_typed.specs.Hamt.{root_map};
ghost use Rattle.ild_typed.specs.Nested.{BlockIn};
ghost use Rattle.ild_build_entries.specs.Entries.{AddsEntry, AddsRoot, AreKeyedMarks, EndsEntry, FitsEntry};
ghost use Rattle.ild_build_entries.specs.Fine.{IsFine};

use crate::nodes::Nodes;
use ild_bulk::{KeyedMark, PlanFault, begin_entry, mark_of, plan_marked};
use ild_data::{HamtShape, KeyHash, LONGEST_BLOCK};
use ild_emit::Emit;
use std::alloc::{AllocError, Global};

/// For each of many entries so many bytes are taken at once.
const USUAL_ENTRY: usize = 16;

/// Entries that are spelled into one buffer as they come, with a mark for each.
#[derive(Drop)]
pub struct MarkedEntries<'k> {
    pub out: Emit,
    pub marks: Vec<KeyedMark<'k>>,
}

/// No entry yet, with room for so many.
pub fn no_entries<'k>(alloc: Global, count: usize) -> Result<MarkedEntries<'k>, AllocError>
    ensures { IfOk result (λ entries. entries.marks.items ≡ []) }
{
    let mut marks = Vec::new(alloc);
    marks.reserve(count)?;
    Ok(MarkedEntries {
        out: Emit::with_room(alloc, count.saturating_mul(USUAL_ENTRY))?,
        marks,
    })
}

// Whether the last value of a buffer, which stands behind so many bytes, is longer than a block.
fn is_value_long(out: &Emit, from: usize) -> bool
    ensures { (front value : List ℕ) → out.now ≡ front ++ value → from ≡ length front → result ≡ is_long value }
{
    out.len().saturating_sub(from) > LONGEST_BLOCK
}

// How many bytes stand before the last entry, whose value is written already. Where something stands against that, the key is
// written again, over null.
fn end_of_entry(out: &mut Emit, key: &str, from: usize, nodes: &Nodes) -> Result<usize, AllocError>
    ensures { (before value : List ℕ) → out.old ≡ before ++ (entry_front key.now ++ value) → from ≡ length before → (IsFine nodes.now → FitsEntry value)
        → IfOk result (EndsEntry key.now value nodes.now out.old out.new) }
{
    if nodes.exhausted | nodes.long {
        let again = out.len();
        begin_entry(out, key)?;
        out.simple(None)?;
        return Ok(again);
    }
    Ok(from)
}

/// Ends an entry whose key and value are written: so many bytes stand before it, and so many before its value. Where something
/// stands against the value, or it is longer than a block, the key alone counts.
pub fn end_entry<'k, H: KeyHash>(
    keys: &H,
    key: &'k str,
    from: usize,
    value_from: usize,
    nodes: &mut Nodes,
    entries: &mut MarkedEntries<'k>,
) -> Result<(), AllocError>
    ensures { (before value : List ℕ) → entries.old.out ≡ before ++ (entry_front key.now ++ value) → from ≡ length before → value_from ≡ length before + length (entry_front key.now)
        → (IsFine nodes.old → BlockIn deepest_value value) → OnOk result (AddsEntry H.hash_of key.now value nodes.old nodes.new entries.old entries.new) }
{
    nodes.long |= is_value_long(&entries.out, value_from);
    let from = end_of_entry(&mut entries.out, key, from, nodes)?;
    let mark = mark_of(&entries.out, from, keys.hash(key.as_bytes()));
    entries.marks.push(KeyedMark { key, mark })?;
    Ok(())
}

// Brings marks into the order of a bucket.
fn sort_marks(marks: &mut Vec<KeyedMark<'_>>)
    ensures same { IsPermutation marks.old.items marks.new.items }
    ensures order { IsSortedByKey (λ (k : KeyedMark). k.key.now) bytewise marks.new.items }
{
    marks.sort_unstable_by(|a, b| a.key.cmp(b.key));
}

// Appends the root map of a HAMT of this shape over a root node.
fn add_root_map(out: &mut Emit, shape: HamtShape, root: &[u8]) -> Result<(), AllocError>
    ensures ok { (node : Data) → root.now ≡ spell node → OnOk result (out.new ≡ out.old ++ spell (root_map shape node)) }
    ensures grown { IsGrown out.old out.new }
{
    out.head(5, 3)?;
    out.text("hamt")?;
    out.spelled(root)?;
    out.text("hashAlg")?;
    out.head(0, 18)?;
    out.text("bucketSize")?;
    out.head(0, shape.bucket as u64)
}

/// Appends the root map of the HAMT of this shape of these entries. The blocks beneath its root go to the others.
pub fn add_root(
    alloc: Global,
    shape: HamtShape,
    entries: MarkedEntries<'_>,
    nodes: &mut Nodes,
    out: &mut Emit,
) -> Result<(), AllocError>
    ensures ok { (h : List ℕ → List ℕ) (es : List (List ℕ × Data)) → AreKeyedMarks h entries.entry.out es entries.entry.marks.items → no_key_twice es ≡ true → AreTexts es → AreShallow es
        → OnOk result (AddsRoot h shape es out.old out.new nodes.old nodes.new) }
    ensures err { OnErr result (IsGrown out.old out.new) }
{
    let mut entries = entries;
    sort_marks(&mut entries.marks);
    let bytes = entries.out.finish();
    let mut blocks = Vec::new(alloc);
    match plan_marked(alloc, shape, bytes.as_slice(), &entries.marks, &mut blocks) {
        Ok(root) => {
            nodes.blocks.append(&mut blocks)?;
            add_root_map(out, shape, root.as_slice())
        }
        Err(PlanFault::Exhausted) => {
            nodes.exhausted = true;
            Ok(())
        }
        Err(PlanFault::Memory) => Err(AllocError),
    }
}
