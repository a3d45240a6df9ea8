//! An edit in the innermost block.
ghost use Rattle.std.specs.List.{AllByRecursion};
ghost use Rattle.std.specs.Prelude.{◌≡◌, IfErr, IsUtf8, IfOk};
ghost use Rattle.ild_edges.specs.Store.{Moment};
ghost use Rattle.ild_path_ends.specs.Roots.{HasBlock};
ghost use Rattle.ild_view.specs.View.{slot_of, table_of};
ghost use Rattle.ild_hamt.specs.Edits.{CausedBy};
ghost use Rattle.ild_path_hops.specs.Links.{AreLinked};
ghost use Rattle.ild_path_ends.specs.Ends.{EditsInBlock};
ghost use Rattle.ild_path_ends.specs.inside.InBlock.{ChangesBlock};
ghost use Rattle.ild_path_reroot.specs.Reroots.{IsWritingFault};

use crate::finish::finish;
use crate::innermost::innermost;
use ild_data::{KeyHash, NamedBlock, Octets, Path};
use ild_edges::Store;
use ild_node::HamtFault;
use ild_path_block::PartEdit;
use ild_path_hops::Hop;
use ild_path_outward::block_of_edit;
use ild_splice::SpliceErr;
use ild_view::View;
use std::alloc::Global;

// It does no work: its clause says that each segment is a text.
fn are_texts(path: &Path)
    ensures { AllByRecursion IsUtf8 path.now }
{
    let segments = path.as_slice();
    let mut k = 0;
    while k < segments.len() {
        let _text = segments[k].as_str();
        k += 1;
    }
}

// The block of the innermost value that an edit in it makes.
fn changed_block(
    alloc: Global,
    root: &View<'_>,
    hops: &[Hop<'_>],
    path: &Path,
    edit: &PartEdit<'_>,
) -> Result<Octets, HamtFault>
    ensures made { ChangesBlock root.now hops.now path.now edit.now result }
    ensures fault { IfErr result IsWritingFault }
{
    are_texts(path);
    let view = innermost(*root, hops);
    match block_of_edit(alloc, &view, path, edit) {
        Ok(block) => Ok(block),
        Err(SpliceErr::Size) => Err(HamtFault::Size),
        Err(SpliceErr::Memory) => Err(HamtFault::Memory),
    }
}

/// The block of the whole with an edit in the innermost block, that of the last hop's entry or the root's.
pub fn edit_in_block<K: Store, H: KeyHash>(
    alloc: Global,
    root: &View<'_>,
    hops: Vec<Hop<'_>>,
    path: &Path,
    edit: &PartEdit<'_>,
    keys: &H,
    store: &mut K,
) -> Result<NamedBlock, HamtFault>
    requires { ∥ AreLinked root.now hops.items ∥₁ }
    ensures gets { (K.moment store.new).gets ≡ (K.moment store.old).gets }
    ensures caused { CausedBy (K.moment store.old) result (K.moment store.new) }
    ensures root { IfOk result (λ b. ∥ HasBlock (table_of root.now) (slot_of root.now) b ∥₁) }
    ensures edits { EditsInBlock H.hash_of root.now hops.entry.items path.now edit.now (K.moment store.old) result (K.moment store.new) }
{
    let block = changed_block(alloc, root, hops.as_slice(), path, edit)?;
    finish(alloc, root, hops, block, keys, store)
}
