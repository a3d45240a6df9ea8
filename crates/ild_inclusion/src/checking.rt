//! Proofs checked.
ghost use Rattle.std.specs.Prelude.{◌<◌, length};
ghost use Rattle.ild_inclusion.specs.Given.{HasMemory};
ghost use Rattle.ild_inclusion.specs.Says.{Walks};
ghost use Rattle.ild_inclusion.specs.Verifies.{Verifies, result_of};
ghost use Rattle.ild_inclusion.specs.inside.Found.{FoundGives};

use crate::answer::{Answer, Part};
use crate::entry::fronted;
use crate::fault::{Reject, VerifyErr};
use crate::following::follow;
use crate::found::Found;
use crate::laws::proofs_say_one_thing;
use crate::proof::Proof;
use crate::stand::Stand;
use crate::way::{is_named, item_in};
use crate::writing::{planted, spelled};
use ild_data::{BlockId, KeyHash, Octets, Path};
use ild_schema::{Accepted, Slot, TypeNo};
use std::alloc::Global;

/// How many levels the value under a root may nest.
const ROOM: u32 = 96;

// Where a path leads in the blocks, or what is wrong first on the way.
fn walk<'b, H: KeyHash>(
    alloc: Global,
    acc: &'b Accepted,
    ty: TypeNo,
    root: &BlockId,
    path: &Path,
    blocks: &'b [Octets],
    keys: &H,
) -> Result<Found<'b>, VerifyErr>
    requires { ty.0 < length acc.now }
    ensures { HasMemory result → Walks H.hash_of acc.now ty root.now.0 path.now (FoundGives result) blocks.now }
{
    let Some((first, left)) = blocks.split_first() else {
        return Err(VerifyErr::Reject(Reject::Empty));
    };
    if !is_named(first.as_slice(), root) {
        return Err(VerifyErr::Reject(Reject::Root));
    }
    let node = match item_in(0, first.as_slice()) {
        Ok(node) => node,
        Err(reject) => return Err(VerifyErr::Reject(reject)),
    };
    let slot = Slot {
        ty,
        nullable: false,
    };
    match fronted(alloc, acc, slot, node, ROOM, 0) {
        Ok(view) => follow(
            alloc,
            Stand {
                view,
                room: ROOM,
                at: 0,
                left,
            },
            path,
            keys,
        ),
        Err(fault) => Err(fault),
    }
}

/// What a proof says of a path into the value of a type under a root: the part to which it leads, or from which segment on it leads nowhere. A
/// reject is the first thing on the way that is wrong. No store is asked, no entry is copied but the answer, and each block is read once or twice.
pub fn verify<H: KeyHash>(
    alloc: Global,
    acc: &Accepted,
    ty: TypeNo,
    root: &BlockId,
    path: &Path,
    proof: &Proof,
    keys: &H,
) -> Result<Answer, VerifyErr>
    requires { ty.0 < length acc.now }
    ensures { Verifies H.hash_of acc.now ty root.now.0 path.now proof.now result }
{
    // They do no work: their clauses say that there is one outcome, under the table of an accepted schema.
    proofs_say_one_thing();
    acc.recall();
    match walk(alloc, acc, ty, root, path, proof.blocks(), keys) {
        Ok(found) => spelled(alloc, &found),
        Err(fault) => Err(fault),
    }
}

/// The same, with the representation of the part as a tree.
pub fn verify_part<H: KeyHash>(
    alloc: Global,
    acc: &Accepted,
    ty: TypeNo,
    root: &BlockId,
    path: &Path,
    proof: &Proof,
    keys: &H,
) -> Result<Part, VerifyErr>
    requires { ty.0 < length acc.now }
    ensures { Verifies H.hash_of acc.now ty root.now.0 path.now proof.now (result_of result) }
{
    proofs_say_one_thing();
    acc.recall();
    match walk(alloc, acc, ty, root, path, proof.blocks(), keys) {
        Ok(found) => planted(alloc, &found),
        Err(fault) => Err(fault),
    }
}
