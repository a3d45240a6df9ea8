//! Where a path stops in one tree.
ghost use Rattle.std.specs.Prelude.{◌≡◌, ◌<◌, ◌+◌, ◌^◌, All, option_map};
ghost use Rattle.ild_links.specs.Stops.{link_of};
ghost use Rattle.ild_run_links.specs.inside.Ends.{StopsInDoc, StopsInward, named};
ghost use Rattle.ild_path_inward.specs.Levels.{IsUnder};
ghost use Rattle.ild_view.specs.View.{table_of};

use crate::behind::link_behind;
use crate::fault::{TreeFault, of_hamt};
use ild_data::{BlockId, KeyHash, Path};
use ild_edges::Store;
use ild_links::Stop;
use ild_path_inward::{Inward, go_inward};
use ild_schema::TypeNo;
use ild_view::View;
use ild_view_doc::Doc;
use std::alloc::Global;

/// How many levels a value may nest.
const ROOM: u32 = 96;

// What it is to stop at a part with this link, if it is one.
fn stop_at(link: Option<(TypeNo, BlockId)>) -> Stop
    ensures { link_of result ≡ option_map named link }
{
    match link {
        Some((ty, id)) => Stop::Link(ty, id),
        None => Stop::End,
    }
}

// Where a path stops that led so far, of so many segments from a place on.
fn stop_inward(root: &View<'_>, inward: &Inward<'_, '_>, from: usize, count: usize) -> (Stop, usize)
    requires some { 0 < count }
    requires fits { from + count < 2 ^ 64 }
    requires under { All (IsUnder (table_of root.now)) inward.now.hops.items }
    ensures { StopsInward root.now inward.now from count result.0 result.1 }
{
    let left = inward.left.len();
    let upto = from + count.saturating_sub(left);
    if left == 0 {
        return (Stop::End, upto);
    }
    (
        stop_at(link_behind(root, &inward.hops, &inward.front)),
        upto,
    )
}

/// Where a path stops in the value of a root block, from the place `from` on, and whether a link of a type of links to a block stands
/// there with segments left: by gets alone, of no more nodes than there are on the way.
pub(crate) fn stop_in<K: Store, H: KeyHash>(
    alloc: Global,
    doc: &Doc<'_>,
    path: &Path,
    from: usize,
    keys: &H,
    store: &mut K,
) -> Result<(Stop, usize), TreeFault>
    ensures { StopsInDoc H.hash_of doc.now path.now from (K.moment store.old) result (K.moment store.new) }
{
    doc.schema().recall();
    let segments = path.as_slice();
    if from >= segments.len() {
        return Ok((Stop::End, from));
    }
    let rest = &segments[from..];
    let root = doc.view();
    match go_inward(alloc, doc.schema(), &root, rest, ROOM, keys, store) {
        Ok(inward) => Ok(stop_inward(&root, &inward, from, rest.len())),
        Err(fault) => Err(of_hamt(&fault)),
    }
}
