//! The walk of a path from an open document on.
ghost use Rattle.std.specs.Prelude.{◌≡◌};
ghost use Rattle.ild_data.specs.Spell.{id_of};
ghost use Rattle.ild_links_lines.specs.Walks.{WalksAlong};
ghost use Rattle.ild_links_walk.specs.inside.Refusals.{link_refusal, tree_refusal};
ghost use Rattle.ild_run_links.specs.Moments.{HoldsBlock, HoldsValue};

use ild_data::{Path, Sha256Keys};
use ild_edges::Store;
use ild_links::{Hops, LinkErr, TreeErr, follow};
use ild_run_links::LinkedDocs;
use ild_script::No;
use ild_view_doc::Doc;
use std::alloc::Global;

// Why a tree isn't read, as a line is refused.
fn tree_refusal(fault: &TreeErr) -> No
    ensures { result ≡ tree_refusal fault.now }
{
    match fault {
        TreeErr::Block(_) => No::Block,
        TreeErr::Store => No::Store,
        TreeErr::Clash(_, _, _) => No::Clash,
        TreeErr::Memory => No::Memory,
    }
}

// Why a path isn't followed, as a line is refused.
fn link_refusal(fault: &LinkErr) -> No
    ensures { result ≡ link_refusal fault.now }
{
    match fault {
        LinkErr::Depth => No::Depth,
        LinkErr::Tree(fault) => tree_refusal(fault),
    }
}

/// Walks a path from a document on, through the typed links at which it stops, as far as it leads. The answer names the trees that the path
/// enters; or it is why the path isn't followed, as a line is refused.
pub fn walk<K: Store>(alloc: Global, doc: &Doc<'_>, path: &Path, store: &mut K) -> Result<Hops, No>
    requires held { HoldsBlock doc.now (K.moment store.old) }
    requires stands { HoldsValue id_of doc.now (K.moment store.old) }
    ensures { WalksAlong id_of doc.now path.now (K.moment store.old) result (K.moment store.new) }
{
    let mut trees = LinkedDocs::over(alloc, doc, &Sha256Keys, store);
    match follow(alloc, doc.ty(), &doc.root(), path, &mut trees) {
        Ok(hops) => Ok(hops),
        Err(fault) => Err(link_refusal(&fault)),
    }
}
