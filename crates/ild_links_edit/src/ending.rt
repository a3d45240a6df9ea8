//! An edit in the tree in which a path ends.
ghost use Rattle.std.specs.Prelude.{◌<◌, drop, length};
ghost use Rattle.ild_links_edit.specs.inside.Ends.{EditsIn};
ghost use Rattle.ild_run_edit.specs.Edits.{edit_of};

use ild_data::{BlockId, Path, Sha256Keys};
use ild_edges::Store;
use ild_links::Hop;
use ild_links_walk::open_last;
use ild_run_edit::{Verb, edit};
use ild_run_standing::still_replies;
use ild_schema::Accepted;
use ild_script::No;
use std::alloc::Global;

/// Does an edit at the rest of a path in the tree of a hop, which is opened first: the tree's new root.
pub(crate) fn edit_tree<K: Store>(
    alloc: Global,
    acc: &Accepted,
    hop: &Hop,
    verb: Verb,
    path: &Path,
    json: &[u8],
    store: &mut K,
) -> Result<BlockId, No>
    requires { hop.now.ty.0 < length acc.now }
    ensures { EditsIn acc.now hop.now (edit_of verb (drop hop.now.from path.now) json.now) (K.moment store.old) result (K.moment store.new) }
{
    // It does no work: its clause says what is replied where no block comes.
    still_replies();
    let (mut last, rest) = match open_last(alloc, acc, hop, path, store) {
        Ok(opened) => opened,
        Err(refusal) => return Err(refusal),
    };
    match edit(alloc, &mut last, verb, &rest, json, &Sha256Keys, store) {
        Ok(()) => Ok(last.root()),
        Err(refusal) => Err(refusal),
    }
}
