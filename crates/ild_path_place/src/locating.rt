//! A path followed to its place.
ghost use Rattle.std.specs.Prelude.{IfOk, ◌≡◌, ◌∷◌, ◌++◌, [], List, Some, ℕ};
ghost use Rattle.ild_data.specs.Data.{Data};
ghost use Rattle.ild_data.specs.Spell.{id_of};
ghost use Rattle.ild_edges.specs.Store.{block_at};
ghost use Rattle.ild_open_parts.specs.Reads.{OnlyReads};
ghost use Rattle.ild_path_found.specs.Sites.{block_in as block_of_piece};
ghost use Rattle.ild_path_inward.specs.Levels.{CanGo};
ghost use Rattle.ild_path_place.specs.Parts.{verb_in};
ghost use Rattle.ild_path_place.specs.Places.{LocatesWhole, Locates};
ghost use Rattle.ild_path_place.specs.Refuses.{RefusesBroken};
ghost use Rattle.ild_path_place.specs.Rooted.{FailsOnly, IsRootedAt};
ghost use Rattle.ild_path_place.specs.Tells.{IsPlaceOf, root_at};
ghost use Rattle.ild_schema.specs.Slots.{plainly};
ghost use Rattle.ild_schema.specs.Value.{Value};
ghost use Rattle.ild_typed.specs.At.{InSlot};
ghost use Rattle.ild_typed.specs.Fits.{Front};
ghost use Rattle.ild_typed.specs.Stands.{Stands, bare};
ghost use Rattle.ild_view.specs.View.{IsView, piece_of, slot_of, table_of};
ghost use Rattle.ild_view_doc.specs.Block.{IsRootBlock};
ghost use Rattle.ild_view_doc.specs.Docs.{block_in, table_in, type_in};

use crate::ending::Found;
use crate::fault::{PathFault, of_hamt};
use crate::inner::end_behind;
use crate::place::{End, Place};
use crate::room::ROOM;
use crate::verb::Verb;
use ild_data::{KeyHash, Path, Txt};
use ild_edges::Store;
use ild_path_inward::{Inward, go_inward};
use ild_schema::Accepted;
use ild_view::View;
use ild_view_doc::Doc;
use std::alloc::Global;

// The place of the whole: nothing is inserted there, and it isn't deleted.
fn whole<'b>(alloc: Global, root: View<'b>, verb: Verb) -> Result<Place<'b>, PathFault>
    ensures whole { LocatesWhole (slot_of root.entry) verb result }
    ensures root { IfOk result (λ place. root_at place ≡ root.entry) }
    ensures done { IfOk result (λ place. verb_in place ≡ verb) }
{
    match verb {
        Verb::Set => Ok(Place {
            root,
            verb,
            hops: Vec::new(alloc),
            end: End::Whole,
            slot: root.slot(),
            key_fits: true,
            room: Some(ROOM),
            hole: false,
        }),
        Verb::Ins => Err(PathFault::Path { k: 0 }),
        Verb::Del => Err(PathFault::Mismatch),
    }
}

// The place at the last of some segments.
fn locate_last<'b, K: Store, H: KeyHash>(
    alloc: Global,
    acc: &'b Accepted,
    root: View<'b>,
    front: &[Txt],
    last: &Txt,
    verb: Verb,
    keys: &H,
    store: &mut K,
) -> Result<Place<'b>, PathFault>
    requires { table_of root ≡ acc.now }
    ensures root { IfOk result (λ place. root_at place ≡ root.entry) }
    ensures done { IfOk result (λ place. verb_in place ≡ verb) }
    ensures reads { OnlyReads (K.moment store.old) (K.moment store.new) }
    ensures failed { FailsOnly (K.moment store.old) result (K.moment store.new) }
    ensures refused { (f : Value) (t : Data) → IsView root.entry f → Front acc.now 96 (slot_of root.entry) f t
        → RefusesBroken H.hash_of acc.now (id_of (block_of_piece (piece_of root.entry))) 96 (slot_of root.entry) t (K.moment store.old) result (K.moment store.new) }
    ensures told { (was : List (List ℕ)) (p : InSlot) (d : Data) → (K.moment store.old).blocks ≡ Some was → CanGo H.hash_of acc.now was 96 p d root.entry
        → Locates H.hash_of acc.now was p (front.now ++ last.now ∷ []) verb (K.moment store.old) result (K.moment store.new) }
{
    let Inward {
        hops,
        front: inner,
        left,
        room,
    } = match go_inward(alloc, acc, &root, front, ROOM, keys, store) {
        Ok(inward) => inward,
        Err(fault) => return Err(of_hamt(&fault)),
    };
    if !left.is_empty() {
        return Err(PathFault::Path {
            k: front.len().saturating_sub(left.len()),
        });
    }
    let Found {
        end,
        slot,
        key_fits,
        room: nests,
        hole,
    } = end_behind(
        alloc,
        acc,
        &root,
        &hops,
        inner,
        last,
        front.len(),
        room,
        verb,
        keys,
        store,
    )?;
    Ok(Place {
        root,
        verb,
        hops,
        end,
        slot,
        key_fits,
        room: nests,
        hole,
    })
}

/// The place at which a path ends in a root block's value, for what is to be done there: each HAMT on the way is entered at its key, by
/// gets alone. `Path` comes exactly where a segment leads nowhere, or nothing may be done at the last one; `Mismatch` where what is to
/// be deleted can't go. On a store that holds the value no block is refused, and on any other
/// only one that is broken, of those that hang on the root's. A fault of the store comes only where it failed.
pub fn locate<'b, K: Store, H: KeyHash>(
    alloc: Global,
    doc: &'b Doc<'_>,
    path: &Path,
    verb: Verb,
    keys: &H,
    store: &mut K,
) -> Result<Place<'b>, PathFault>
    ensures only { OnlyReads (K.moment store.old) (K.moment store.new) }
    ensures failed { FailsOnly (K.moment store.old) result (K.moment store.new) }
    ensures of { IfOk result (λ place. IsPlaceOf (table_in doc.now) (type_in doc.now) place) }
    ensures done { IfOk result (λ place. verb_in place ≡ verb) }
    ensures refused { (f : Value) (root : IsRootBlock (table_in doc.now) (type_in doc.now) (block_in doc.now) f)
        → RefusesBroken H.hash_of (table_in doc.now) (id_of (block_in doc.now)) 96 (plainly (type_in doc.now)) root.tree (K.moment store.old) result (K.moment store.new) }
    ensures stands { (was : List (List ℕ)) (v : Value) → (K.moment store.old).blocks ≡ Some was → block_at was (id_of (block_in doc.now)) ≡ Some (block_in doc.now)
        → Stands bare (block_at was) H.hash_of (table_in doc.now) (type_in doc.now) (id_of (block_in doc.now)) v
        → Locates H.hash_of (table_in doc.now) was (plainly (type_in doc.now), v) path.now verb (K.moment store.old) result (K.moment store.new) }
    ensures rooted { (was : List (List ℕ)) (v : Value) → (K.moment store.old).blocks ≡ Some was → block_at was (id_of (block_in doc.now)) ≡ Some (block_in doc.now)
        → Stands bare (block_at was) H.hash_of (table_in doc.now) (type_in doc.now) (id_of (block_in doc.now)) v
        → IfOk result (IsRootedAt H.hash_of (table_in doc.now) was (plainly (type_in doc.now), v)) }
{
    doc.schema().recall();
    let segments = path.as_slice();
    match segments.last() {
        Some(last) => locate_last(
            alloc,
            doc.schema(),
            doc.view(),
            &segments[..segments.len() - 1],
            last,
            verb,
            keys,
            store,
        ),
        None => whole(alloc, doc.view(), verb),
    }
}
