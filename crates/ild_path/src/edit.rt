//! Edits at a place.
ghost use Rattle.std.specs.Prelude.{◌≡◌, IfOk, true};
ghost use Rattle.ild_edges.specs.Store.{Moment};
ghost use Rattle.ild_path.specs.inside.Pieces.{takes};
ghost use Rattle.ild_path.specs.Replaces.{Brings, Erases, Spares};
ghost use Rattle.ild_path.specs.inside.Replaced.{ReplacesParts};
ghost use Rattle.ild_path_ends.specs.Roots.{HasBlock};
ghost use Rattle.ild_path_place.specs.Comes.{comes};
ghost use Rattle.ild_path_place.specs.Links.{IsLinked};
ghost use Rattle.ild_path_place.specs.Parts.{verb_in};
ghost use Rattle.ild_path_place.specs.Tells.{slot_at, table_at};
ghost use Rattle.ild_path_place.specs.declared.verb.Verb.TheVariants.{Del};
ghost use Rattle.ild_schema.specs.Slots.{plainly};
ghost use Rattle.ild_schema.specs.declared.number.TypeNo.{TypeNo};
ghost use Rattle.ild_view.specs.View.{slot_of, table_of};
ghost use Rattle.ild_view_doc.specs.Block.{HasRoot};

use crate::answer::answer_of;
use crate::fault::EditFault;
use crate::parts::edit_parts;
use ild_cbor::Node;
use ild_data::{KeyHash, NamedBlock};
use ild_edges::Store;
use ild_path_block::PartEdit;
use ild_path_place::{Parts, Place, Verb};
use std::alloc::Global;

// The new root block, with an edit at a place.
fn edited<K: Store, H: KeyHash>(
    alloc: Global,
    parts: Parts<'_>,
    edit: &PartEdit<'_>,
    keys: &H,
    store: &mut K,
) -> Result<NamedBlock, EditFault>
    requires ends { takes parts.end edit.now ≡ true }
    requires linked { ∥ IsLinked parts.root parts.hops.items parts.end ∥₁ }
    ensures spares { Spares (K.moment store.old) result (K.moment store.new) }
    ensures root { IfOk result (λ b. ∥ HasBlock (table_of parts.entry.root) (slot_of parts.entry.root) b ∥₁) }
    ensures edits { ReplacesParts H.hash_of parts.entry edit.now (K.moment store.old) result (K.moment store.new) }
{
    answer_of(edit_parts(alloc, parts, edit, keys, store))
}

/// The new root block, where a part comes to a place that was located to set or to insert. The nodes of the part's value are held before.
pub fn replace<K: Store, H: KeyHash>(
    alloc: Global,
    place: Place<'_>,
    part: &Node<'_>,
    keys: &H,
    store: &mut K,
) -> Result<NamedBlock, EditFault>
    requires { comes (verb_in place) ≡ true }
    ensures spares { Spares (K.moment store.old) result (K.moment store.new) }
    ensures swaps { (n : TypeNo) → slot_at place.entry ≡ plainly n → IfOk result (λ b. ∥ HasRoot (table_at place.entry) n b ∥₁) }
    ensures brings { Brings H.hash_of place.entry part.now (K.moment store.old) result (K.moment store.new) }
{
    let parts = place.into_parts();
    match parts.verb {
        Verb::Set => edited(alloc, parts, &PartEdit::Set(*part), keys, store),
        Verb::Ins => edited(alloc, parts, &PartEdit::Insert(*part), keys, store),
        Verb::Del => unreachable!(),
    }
}

/// The new root block, where the part at a place goes that was located to delete.
pub fn erase<K: Store, H: KeyHash>(
    alloc: Global,
    place: Place<'_>,
    keys: &H,
    store: &mut K,
) -> Result<NamedBlock, EditFault>
    requires { verb_in place ≡ Del }
    ensures spares { Spares (K.moment store.old) result (K.moment store.new) }
    ensures swaps { (n : TypeNo) → slot_at place.entry ≡ plainly n → IfOk result (λ b. ∥ HasRoot (table_at place.entry) n b ∥₁) }
    ensures erases { Erases H.hash_of place.entry (K.moment store.old) result (K.moment store.new) }
{
    edited(alloc, place.into_parts(), &PartEdit::Delete, keys, store)
}
