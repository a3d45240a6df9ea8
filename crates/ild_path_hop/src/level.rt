//! One level outward.
ghost use Rattle.ild_hamt.specs.Edits.{CausedBy};
ghost use Rattle.std.specs.Prelude.{◌≡◌, ℕ, Bool, IfErr, List, Ok, Some};
ghost use Rattle.ild_cbor.specs.Nodes.{HasData};
ghost use Rattle.ild_data.specs.Data.{Data};
ghost use Rattle.ild_edges.specs.Store.{Moment};
ghost use Rattle.ild_cbor.specs.declared.node.Node.{Node as Item};
ghost use Rattle.ild_data.specs.Spell.{spell};
ghost use Rattle.ild_data.specs.Tree.{IsTree};
ghost use Rattle.ild_path_block.specs.Edits.{EditsPart};
ghost use Rattle.ild_path_block.specs.declared.edit.PartEdit.TheVariants.{Set as SetTo};
ghost use Rattle.ild_path_reroot.specs.Reroots.{IsHamtView, IsWritingFault, MakesRoot};
ghost use Rattle.ild_path_hop.specs.Levels.{CutsEntry, IsCutThere, IsLevel, IsSetThere, LeadsToHamt, SetsEntry};
ghost use Rattle.ild_node.specs.Rows.{NestsIn, deepest_value};
ghost use Rattle.ild_schema.specs.Value.{Pairs, Value};
ghost use Rattle.ild_schema.specs.declared.number.Slot.{Slot as Place};
ghost use Rattle.ild_typed.specs.At.{reached};
ghost use Rattle.ild_view.specs.Reaches.{Reaches};
ghost use Rattle.ild_view.specs.View.{IsView, slot_of, table_of};
ghost use Rattle.ild_view.specs.declared.step.Step.TheVariants.{Here};

use ild_cbor::{Node, check};
use ild_data::{KeyHash, Octets, Path};
use ild_edges::Store;
use ild_hamt::Trail;
use ild_node::HamtFault;
use ild_path_block::PartEdit;
use ild_path_edit::block_of_edit;
use ild_path_reroot::{cut_entry, put_entry};
use ild_splice::SpliceErr;
use ild_view::{Step, View};
use std::alloc::Global;

/// The view of the HAMT to which a path leads.
pub fn hamt_at<'a>(root: &View<'a>, front: &'a Path) -> View<'a>
    requires { ∥ LeadsToHamt root.now front.now ∥₁ }
    ensures here { (f : Value) → IsView root.now f → Reaches (table_of root.now) (reached (table_of root.now) 0 (slot_of root.now, f) front.now) (Ok (Here result)) }
    ensures hamt { ∥ IsHamtView result ∥₁ }
{
    match root.at(front, 0) {
        Ok(Step::Here(view)) => view,
        Ok(Step::Enter(_, _)) => unreachable!(),
        Err(_) => unreachable!(),
    }
}

// The block with a root map as the part at a path. Only one that nests deeper than a block may is no block.
fn with_root<'a>(
    alloc: Global,
    root: &View<'a>,
    front: &'a Path,
    map: &Octets,
) -> Result<Octets, HamtFault>
    ensures made { (is_key : ℕ → List ℕ → Bool) (f w c : Value) (t x u : Data) → map.now ≡ spell x → IsTree x
        → ((n : Item) → HasData n x → EditsPart is_key root.now front.now (SetTo n) f w c t u) → MakesRoot (spell u) result }
    ensures fault { IfErr result IsWritingFault }
{
    let item = match check(map.as_slice()) {
        Ok(item) => item,
        Err(_) => return Err(HamtFault::Memory),
    };
    match block_of_edit(alloc, root, front, &PartEdit::Set(item)) {
        Ok(block) => Ok(block),
        Err(SpliceErr::Size) => Err(HamtFault::Size),
        Err(SpliceErr::Memory) => Err(HamtFault::Memory),
    }
}

/// The block of what the value of a root view becomes by setting the entry at a trail's key of the HAMT at a path to what an item
/// stands for. The new nodes of the HAMT are put, each behind those beneath it.
pub fn set_entry<'a, K: Store, H: KeyHash>(
    alloc: Global,
    root: &View<'a>,
    front: &'a Path,
    trail: Trail,
    item: &Node<'_>,
    keys: &H,
    store: &mut K,
) -> Result<Octets, HamtFault>
    requires leads { ∥ LeadsToHamt root.now front.now ∥₁ }
    requires nests { NestsIn deepest_value item.now }
    ensures gets { (K.moment store.new).gets ≡ (K.moment store.old).gets }
    ensures caused { CausedBy (K.moment store.old) result (K.moment store.new) }
    ensures sets { (is_key : ℕ → List ℕ → Bool) (was : List (List ℕ)) (room : ℕ) (v w : Value) (t d u : Data)
        (slot elem : Place) (ps : Pairs) (es : List (List ℕ × Data)) (k : List ℕ) → (K.moment store.old).blocks ≡ Some was
        → IsLevel H.hash_of is_key was room v t root.now → (set : IsSetThere H.hash_of is_key was room v root.now front.now slot elem ps es k w d u trail) → HasData item.now d
        → SetsEntry H.hash_of set.entered.hamt.3 room v front.now ps es k w d u root.now (K.moment store.old) result (K.moment store.new) }
{
    let hamt = hamt_at(root, front);
    let map = put_entry(alloc, &hamt, trail, item, keys, store)?;
    with_root(alloc, root, front, &map)
}

/// The block of what the value of a root view becomes without the entry at a trail's key of the HAMT at a path. The new nodes of the HAMT are put, each behind those beneath it.
pub fn remove_entry<'a, K: Store, H: KeyHash>(
    alloc: Global,
    root: &View<'a>,
    front: &'a Path,
    trail: Trail,
    keys: &H,
    store: &mut K,
) -> Result<Octets, HamtFault>
    requires { ∥ LeadsToHamt root.now front.now ∥₁ }
    ensures gets { (K.moment store.new).gets ≡ (K.moment store.old).gets }
    ensures caused { CausedBy (K.moment store.old) result (K.moment store.new) }
    ensures cuts { (is_key : ℕ → List ℕ → Bool) (was : List (List ℕ)) (room : ℕ) (v : Value) (t u : Data)
        (slot elem : Place) (ps : Pairs) (es : List (List ℕ × Data)) (k : List ℕ) → (K.moment store.old).blocks ≡ Some was
        → IsLevel H.hash_of is_key was room v t root.now → (cut : IsCutThere H.hash_of is_key was room v root.now front.now slot elem ps es k u trail)
        → CutsEntry H.hash_of cut.entered.hamt.3 room v front.now ps es k u root.now (K.moment store.old) result (K.moment store.new) }
{
    let hamt = hamt_at(root, front);
    let map = cut_entry(alloc, &hamt, trail, keys, store)?;
    with_root(alloc, root, front, &map)
}
