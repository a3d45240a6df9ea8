//! What may stand in a folder of which it is known what was put.
ghost use Rattle.std.specs.BTreeSet.{contains};
ghost use Rattle.std.specs.Ordering.{nat_cmp};
ghost use Rattle.std.specs.Prelude.{◌≡◌, ℕ, IfOk, true};
ghost use Rattle.ild_main_files.specs.inside.Own.{may_stand};

use crate::part::Folder;
use ild_data::BlockId;
use std::alloc::{AllocError, Global};
use std::collections::BTreeSet;

/// The fronts of the ids of all blocks that may stand in a folder, where that is known: the store made it, and put them. Nobody
/// reads them but the next puts, and where memory is wanting for them they are dropped: a put then looks for a file, and answers as before.
pub(crate) type OwnBlocks = Option<BTreeSet<u64>>;

/// The front of an id: its first eight bytes as a number. Where two blocks have one front, a put of the second looks for a file,
/// and finds none.
pub(crate) fn front(id: &BlockId) -> u64 {
    let [a, b, c, d, e, f, g, h, ..] = id.0;
    u64::from_be_bytes([a, b, c, d, e, f, g, h])
}

/// Whether a file may stand under the name of a block whose id has this front. From here on it may.
pub(crate) fn may_stand(own: &mut OwnBlocks, front: u64) -> bool
    ensures was { may_stand own.old front ≡ true → result ≡ true }
    ensures now { may_stand own.new front ≡ true }
    ensures others { (q : ℕ) → may_stand own.old q ≡ true → may_stand own.new q ≡ true }
{
    let Some(fronts) = own else {
        return true;
    };
    match fronts.insert(front) {
        Ok(is_new) => !is_new,
        Err(_) => {
            *own = None;
            true
        }
    }
}

/// A set of one front.
fn only(alloc: Global, front: u64) -> Result<BTreeSet<u64>, AllocError>
    ensures { IfOk result (λ fronts. contains nat_cmp fronts front ≡ true) }
{
    let mut fronts = BTreeSet::new(alloc);
    fronts.insert(front)?;
    Ok(fronts)
}

/// Notes that a block was put. In a folder that was made for it nothing else stands; in another may stand what might before.
pub(crate) fn note(own: &mut OwnBlocks, alloc: Global, whose: Folder, front: u64)
    ensures now { may_stand own.old front ≡ true → may_stand own.new front ≡ true }
{
    match whose {
        Folder::Found => {}
        Folder::Made => *own = only(alloc, front).ok(),
    }
}
