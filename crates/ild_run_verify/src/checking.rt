//! A proof is checked, and the line is written that tells what it says.
ghost use Rattle.std.specs.Prelude.{◌<◌, length};
ghost use Rattle.ild_run_verify.specs.Verified.{VerifiedAs};
ghost use Rattle.ild_run_verify.specs.inside.Tells.{SaidAnswer};

use crate::VerifyFault;
use crate::input::proof_of;
use crate::telling::tell;
use ild_data::{BlockId, KeyHash, Path};
use ild_edges::Sink;
use ild_inclusion::{Part, VerifyErr, verify_part};
use ild_schema::{Accepted, TypeNo};
use std::alloc::Global;

// What an input says of a path, as a proof.
fn part_of<H: KeyHash>(
    alloc: Global,
    acc: &Accepted,
    ty: TypeNo,
    root: &BlockId,
    path: &Path,
    input: &[u8],
    keys: &H,
) -> Result<Part, VerifyFault>
    requires { ty.0 < length acc.now }
    ensures { SaidAnswer H.hash_of acc.now ty root.now.0 path.now input.now result }
{
    let proof = match proof_of(alloc, input) {
        Ok(proof) => proof,
        Err(fault) => return Err(fault),
    };
    match verify_part(alloc, acc, ty, root, path, &proof, keys) {
        Ok(part) => Ok(part),
        Err(VerifyErr::Reject(_)) => Err(VerifyFault::Proof),
        Err(VerifyErr::Memory) => Err(VerifyFault::Memory),
    }
}

/// Checks an input as a proof of what stands at a path in the value of a type under a root, and writes the line that tells what it says: `ok` and
/// the JSON of the part's representation, `no 10 reserved` where that has none, or `absent`. It says whether the part has no JSON. No store is asked.
///
/// An input is refused, and nothing is written, exactly where it isn't the DAG-JSON of a list of bytes, or where something is wrong with a block.
pub fn verify<H: KeyHash, W: Sink>(
    alloc: Global,
    acc: &Accepted,
    ty: TypeNo,
    root: &BlockId,
    path: &Path,
    input: &[u8],
    keys: &H,
    out: &mut W,
) -> Result<bool, VerifyFault>
    requires { ty.0 < length acc.now }
    ensures { VerifiedAs H.hash_of acc.now ty root.now.0 path.now input.now (W.output out.old) result (W.output out.new) }
{
    match part_of(alloc, acc, ty, root, path, input, keys) {
        Ok(part) => tell(alloc, &part, out),
        Err(fault) => Err(fault),
    }
}
