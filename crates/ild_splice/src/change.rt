//! The five changes. Each call takes a node of a block of DAG-CBOR, and answers the block whose tree has that part changed: the
//! spelling of it, byte for byte, made from slices of the old block. DAG-CBOR counts items and not bytes, so nothing but the span
//! of that part is another, and what stands before and behind it is copied as it is. Where the new block would have more than 4,194,304 bytes, and only
//! there, the answer is `SpliceErr::Size`. How deep the tree nests is for the caller to see to (`changes_stay_within`).
ghost use Rattle.std.specs.Prelude.{◌≡◌, ◌≤◌, ◌<◌, ◌++◌, ℕ, true, is_some, Some, None};
ghost use Rattle.ild_cbor.specs.Nodes.{HasData};
ghost use Rattle.ild_cbor.specs.Scalar.{kind_of, count_of};
ghost use Rattle.ild_cbor.specs.Span.{entry_of};
ghost use Rattle.ild_cbor.specs.declared.kind.Kind.TheVariants as K;
ghost use Rattle.ild_splice_changes.specs.TreeChange.{replace, insert_item, insert_entry, remove_item, remove_entry};
ghost use Rattle.ild_data.specs.Data.{Data};
ghost use Rattle.ild_data.specs.Spell.{spell};
ghost use Rattle.ild_splice.specs.Made.{lead_bytes};
ghost use Rattle.ild_splice.specs.Splices.{Splices, pair_of};

use crate::cut::{around, part_count};
use crate::entry::entries_around;
use crate::error::SpliceErr;
use crate::piece::{Lead, NewHead, Pieces};
use crate::write::made;
use ild_cbor::Node;
use ild_data::Octets;
use std::alloc::Global;

/// The block in which an item stands, with the item of this spelling in its place, which may nest deeper than a block may.
pub fn replace_with(alloc: Global, part: &Node<'_>, new: &[u8]) -> Result<Octets, SpliceErr>
    ensures { (e : Data) → new.now ≡ spell e → Splices part.now (replace e) result }
{
    let (front, behind) = around(part);
    made(
        alloc,
        &Pieces {
            front,
            head: NewHead::Same,
            before: &[],
            lead: Lead::Nothing,
            new,
            after: &[],
            behind,
        },
    )
}

/// The same with another item, which is copied from its own block.
pub fn replace(alloc: Global, part: &Node<'_>, new: &Node<'_>) -> Result<Octets, SpliceErr>
    ensures { (e : Data) → HasData new.now e → Splices part.now (replace e) result }
{
    replace_with(alloc, part, new.spelling())
}

// The block in which a list stands, with one more item, which is spelled as the lead says and then as another is.
fn with_item(
    alloc: Global,
    list: &Node<'_>,
    at: u64,
    lead: Lead<'_>,
    new: &Node<'_>,
) -> Result<Octets, SpliceErr>
    requires list { (d : Data) → HasData list.now d → kind_of d ≡ K.List }
    requires place { (d : Data) (n : ℕ) → HasData list.now d → count_of d ≡ Some n → at ≤ n }
    ensures { (e u : Data) → HasData new.now e → lead_bytes lead.entry ++ spell e ≡ spell u → Splices list.now (insert_item at u) result }
{
    let (front, behind) = around(list);
    let (before, after) = list.items_around(at, 0);
    made(
        alloc,
        &Pieces {
            front,
            head: NewHead::List(part_count(list).saturating_add(1)),
            before,
            lead,
            new: new.spelling(),
            after,
            behind,
        },
    )
}

/// The block in which a list stands, with one more item at this place of the list, or behind its last. The items before that place
/// are passed over by their heads.
pub fn insert_item(
    alloc: Global,
    list: &Node<'_>,
    at: u64,
    new: &Node<'_>,
) -> Result<Octets, SpliceErr>
    requires list { (d : Data) → HasData list.now d → kind_of d ≡ K.List }
    requires place { (d : Data) (n : ℕ) → HasData list.now d → count_of d ≡ Some n → at ≤ n }
    ensures { (e : Data) → HasData new.now e → Splices list.now (insert_item at e) result }
{
    with_item(alloc, list, at, Lead::Nothing, new)
}

/// The block in which a list stands, with a pair of a key and an item more, a list of the two, at this place of the list, or behind
/// its last. The item is copied from its own block.
pub fn insert_pair(
    alloc: Global,
    list: &Node<'_>,
    at: u64,
    key: &str,
    new: &Node<'_>,
) -> Result<Octets, SpliceErr>
    requires list { (d : Data) → HasData list.now d → kind_of d ≡ K.List }
    requires place { (d : Data) (n : ℕ) → HasData list.now d → count_of d ≡ Some n → at ≤ n }
    ensures { (e : Data) → HasData new.now e → Splices list.now (insert_item at (pair_of key.now e)) result }
{
    with_item(alloc, list, at, Lead::Pair(key), new)
}

/// The block in which a map stands, with one more entry, whose key the map doesn't have, at its place in the order of keys (DAG-CBOR,
/// "Map Keys"). The entries before that place are passed over by their keys and heads.
pub fn insert_entry(
    alloc: Global,
    map: &Node<'_>,
    key: &str,
    new: &Node<'_>,
) -> Result<Octets, SpliceErr>
    requires map { (d : Data) → HasData map.now d → kind_of d ≡ K.Map }
    requires absent { (d : Data) → HasData map.now d → entry_of d key.now ≡ None }
    ensures { (e : Data) → HasData new.now e → Splices map.now (insert_entry key.now e) result }
{
    let (front, behind) = around(map);
    let (before, after) = entries_around(map, key);
    made(
        alloc,
        &Pieces {
            front,
            head: NewHead::Map(part_count(map).saturating_add(1)),
            before,
            lead: Lead::Key(key),
            new: new.spelling(),
            after,
            behind,
        },
    )
}

/// The block in which a list stands, without the item at this place of the list.
pub fn remove_item(alloc: Global, list: &Node<'_>, at: u64) -> Result<Octets, SpliceErr>
    requires list { (d : Data) → HasData list.now d → kind_of d ≡ K.List }
    requires place { (d : Data) (n : ℕ) → HasData list.now d → count_of d ≡ Some n → at < n }
    ensures { Splices list.now (remove_item at) result }
{
    let (front, behind) = around(list);
    let (before, after) = list.items_around(at, 1);
    made(
        alloc,
        &Pieces {
            front,
            head: NewHead::List(part_count(list).saturating_sub(1)),
            before,
            lead: Lead::Nothing,
            new: &[],
            after,
            behind,
        },
    )
}

/// The block in which a map stands, without the entry at this key.
pub fn remove_entry(alloc: Global, map: &Node<'_>, key: &str) -> Result<Octets, SpliceErr>
    requires map { (d : Data) → HasData map.now d → kind_of d ≡ K.Map }
    requires there { (d : Data) → HasData map.now d → is_some (entry_of d key.now) ≡ true }
    ensures { Splices map.now (remove_entry key.now) result }
{
    let (front, behind) = around(map);
    let (before, after) = entries_around(map, key);
    made(
        alloc,
        &Pieces {
            front,
            head: NewHead::Map(part_count(map).saturating_sub(1)),
            before,
            lead: Lead::Nothing,
            new: &[],
            after,
            behind,
        },
    )
}
