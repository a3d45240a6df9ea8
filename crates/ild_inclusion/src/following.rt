//! A path followed through the blocks of a proof.
ghost use Rattle.std.specs.Prelude.{◌<◌, ◌+◌, ◌^◌, length};
ghost use Rattle.ild_inclusion.specs.Given.{HasMemory};
ghost use Rattle.ild_inclusion.specs.Says.{Ends, Follows};
ghost use Rattle.ild_inclusion.specs.inside.Found.{FoundGives, IsFound};
ghost use Rattle.ild_inclusion.specs.declared.answer.Answer.{Answer};
ghost use Rattle.ild_schema.specs.Value.{Value};
ghost use Rattle.ild_view.specs.View.{IsView, slot_of, table_of};

use crate::fault::{Reject, VerifyErr};
use crate::found::Found;
use crate::segment::{Step, go_on};
use crate::stand::Stand;
use ild_data::{KeyHash, Octets, Path};
use std::alloc::Global;

// What is found at the end of the way, in block `at`: a block that is left over proves nothing.
fn ended<'b>(found: Found<'b>, at: usize, left: &[Octets]) -> Result<Found<'b>, VerifyErr>
    requires { at + length left.now + 1 < 2 ^ 64 }
    ensures { (a : Answer) → IsFound found.entry a → Ends (FoundGives result) at left.now a }
{
    if left.is_empty() {
        Ok(found)
    } else {
        Err(VerifyErr::Reject(Reject::Extra(at + 1)))
    }
}

/// Where a path leads from a value.
pub(crate) fn follow<'b, H: KeyHash>(
    alloc: Global,
    root: Stand<'b>,
    path: &Path,
    keys: &H,
) -> Result<Found<'b>, VerifyErr>
    ensures { (f : Value) → IsView root.entry.view f → HasMemory result
        → Follows H.hash_of (table_of root.entry.view) (FoundGives result) root.entry.room 0 root.entry.at (slot_of root.entry.view, f) path.now root.entry.left.now }
{
    let segments = path.as_slice();
    let mut stand = root;
    let mut k = 0;
    while k < segments.len() {
        match go_on(alloc, &stand, segments[k].as_str(), keys) {
            Ok(Step::On(next)) => {
                stand = next;
            }
            Ok(Step::Off(end)) => return ended(Found::Absent(k), end.at, end.left),
            Err(fault) => return Err(fault),
        }
        k += 1;
    }
    ended(Found::Here(stand.view), stand.at, stand.left)
}
