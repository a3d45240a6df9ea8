//! The tree in which a walk across links ends.
ghost use Rattle.std.specs.Prelude.{◌≡◌, ◌<◌, IfOk, drop, length, option_map};
ghost use Rattle.ild_data.specs.Spell.{id_of};
ghost use Rattle.ild_links_walk.specs.Last.{OpensLast, crossed};
ghost use Rattle.ild_links_walk.specs.inside.Refusals.{open_refusal};

use ild_data::{Path, Sha256Keys, Txt};
use ild_edges::Store;
use ild_links::{Hop, Hops};
use ild_open::{OpenFault, open_root};
use ild_run_standing::standing_are_at;
use ild_schema::Accepted;
use ild_script::No;
use ild_view_doc::Doc;
use std::alloc::{AllocError, Global};

/// The last of the trees that a walk enters, where it crosses a link.
pub fn crossed(hops: &Hops) -> Option<&Hop>
    ensures { option_map (λ h. h.now) result ≡ crossed hops.now }
{
    let count = hops.len();
    if count < 2 {
        return None;
    }
    hops.get(count - 1)
}

// The path of some segments.
fn copy_of(alloc: Global, segments: &[Txt]) -> Result<Path, AllocError>
    ensures { IfOk result (λ p. p ≡ segments.now) }
{
    let mut copies = Vec::new(alloc);
    for segment in segments {
        copies.push(segment.copy()?)?;
    }
    Ok(Path::from_vec(copies))
}

// The segments of a path that are left in a hop's tree.
fn rest_of(alloc: Global, hop: &Hop, path: &Path) -> Result<Path, AllocError>
    ensures { IfOk result (λ p. p ≡ drop hop.now.from path.now) }
{
    let segments = path.as_slice();
    let from = hop.from.min(segments.len());
    copy_of(alloc, &segments[from..])
}

// Why a tree isn't opened, as a line is refused.
fn open_refusal(fault: &OpenFault) -> No
    ensures { result ≡ open_refusal fault.now }
{
    match fault {
        OpenFault::Block { .. } => No::Block,
        OpenFault::Store => No::Store,
        OpenFault::Memory => No::Memory,
    }
}

/// Opens the tree of a hop, under a bare root, and hands it out with the segments of the path from the hop's place on; or it is why the tree
/// isn't opened, as a line is refused.
pub fn open_last<'s, K: Store>(
    alloc: Global,
    acc: &'s Accepted,
    hop: &Hop,
    path: &Path,
    store: &mut K,
) -> Result<(Doc<'s>, Path), No>
    requires { hop.now.ty.0 < length acc.now }
    ensures { OpensLast id_of acc.now hop.now path.now (K.moment store.old) result (K.moment store.new) }
{
    // It does no work: its clause says that a document stands at the value under its root.
    standing_are_at();
    let Ok(rest) = rest_of(alloc, hop, path) else {
        return Err(No::Memory);
    };
    match open_root(alloc, acc, hop.ty, &hop.id, &Sha256Keys, store) {
        Ok(doc) => Ok((doc, rest)),
        Err(fault) => Err(open_refusal(&fault)),
    }
}
