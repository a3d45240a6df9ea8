//! The link at the end of a path, behind the HAMTs on it.
ghost use Rattle.std.specs.Prelude.{◌≡◌, ◌<◌, ℕ, All, IfSome, List, Some, length, option_map, true};
ghost use Rattle.ild_data.specs.Data.{Data};
ghost use Rattle.ild_path_edits.specs.Stop.{stopped};
ghost use Rattle.ild_path_inward.specs.Inwards.{CanGoOn};
ghost use Rattle.ild_path_inward.specs.Levels.{IsUnder};
ghost use Rattle.ild_run_links.specs.Links.{link_to};
ghost use Rattle.ild_run_links.specs.inside.Ends.{named};
ghost use Rattle.ild_schema.specs.Value.{Value};
ghost use Rattle.ild_typed.specs.At.{InSlot, at};
ghost use Rattle.ild_typed_fronts.specs.Front.{in_one_block};
ghost use Rattle.ild_view.specs.View.{IsView, slot_of, table_of};

use crate::linking::typed_link;
use ild_data::{BlockId, Path};
use ild_path_hops::Hop;
use ild_path_inward::halt_in;
use ild_schema::TypeNo;
use ild_view::View;

// The link of the part at which a path stops in the block of a view.
fn link_within(inner: &View<'_>, front: &Path) -> Option<(TypeNo, BlockId)>
    ensures same { (f : Value) → IsView inner.now f → option_map named result ≡ link_to (table_of inner.now) (stopped (table_of inner.now) (slot_of inner.now, f) front.now).part }
    ensures within { IfSome result (λ l. l.0.0 < length (table_of inner.now)) }
{
    typed_link(&halt_in(inner, front.as_slice(), 0).view)
}

/// The link of the part to which a path leads in the innermost block behind these HAMTs.
pub(crate) fn link_behind(
    root: &View<'_>,
    hops: &[Hop<'_>],
    front: &Path,
) -> Option<(TypeNo, BlockId)>
    ensures told { (h : List ℕ → List ℕ) (was : List (List ℕ)) (room : ℕ) (q holder : InSlot) (t : Data) → CanGoOn h (table_of root.now) was room q t root.now hops.now
        → in_one_block (table_of root.now) q front.now ≡ true → at (table_of root.now) q front.now ≡ Some holder → option_map named result ≡ link_to (table_of root.now) holder }
    ensures within { All (IsUnder (table_of root.now)) hops.now → IfSome result (λ l. l.0.0 < length (table_of root.now)) }
{
    match hops.last() {
        Some(hop) => {
            let entry = &hop.entry;
            link_within(&entry.view(), front)
        }
        None => link_within(root, front),
    }
}
