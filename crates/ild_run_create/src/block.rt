//! The value that bytes are given as, and its root block.
ghost use Rattle.std.specs.Prelude.{◌≡◌, ◌<◌, ℕ, List, IfErr, IfOk, length};
ghost use Rattle.ild_schema.specs.Slots.{plainly};
ghost use Rattle.ild_schema.specs.ValueSeen.{value_of};
ghost use Rattle.ild_typed.specs.Typed.{Typed};
ghost use Rattle.ild_run_create.specs.Given.{IsGivenAs};
ghost use Rattle.ild_run_create.specs.inside.Steps.{HasBlock, Stops, built_fault, json_fault, judged_refusal, shown_fault};

use crate::{CreateFault, Refusal};
use ild_build::{Judged, judge};
use ild_build_blocks::{BuildFault, build};
use ild_data::{KeyHash, Octets};
use ild_edges::Store;
use ild_json::{JsonErr, read};
use ild_schema::{Accepted, Slot, TypeNo, Val};
use ild_value::{ShownErr, from_shown};
use std::alloc::Global;

/// How many levels a block nests at most.
const DEEPEST: u32 = 96;

fn json_fault(err: JsonErr) -> CreateFault
    ensures { result ≡ json_fault err }
{
    match err {
        JsonErr::Syntax | JsonErr::Number | JsonErr::Reserved | JsonErr::Bytes | JsonErr::Cid =>
            CreateFault::Refused(Refusal::Json),
        JsonErr::Memory => CreateFault::Memory,
    }
}

fn shown_fault(err: ShownErr) -> CreateFault
    ensures { result ≡ shown_fault err }
{
    match err {
        ShownErr::Mismatch { .. } => CreateFault::Refused(Refusal::Mismatch),
        ShownErr::Memory => CreateFault::Memory,
    }
}

fn judged_refusal(judged: Judged) -> Refusal
    ensures { result ≡ judged_refusal judged }
{
    match judged {
        Judged::Hole => Refusal::Hole,
        Judged::Delimiter => Refusal::Delimiter,
        Judged::Depth => Refusal::Depth,
    }
}

/// The value of a type that bytes are given as.
pub(crate) fn given(
    alloc: Global,
    acc: &Accepted,
    ty: TypeNo,
    bytes: &[u8],
) -> Result<Val, CreateFault>
    requires { ty.0 < length acc.now }
    ensures ok { IfOk result (λ v. IsGivenAs acc.now ty bytes.now (value_of v)) }
    ensures typed { IfOk result (λ v. Typed acc.now (plainly ty) (value_of v)) }
    ensures err { (h : List ℕ → List ℕ) → IfErr result (Stops h acc.now ty bytes.now) }
{
    let tree = match read(alloc, bytes) {
        Ok(tree) => tree,
        Err(err) => return Err(json_fault(err)),
    };
    let slot = Slot {
        ty,
        nullable: false,
    };
    match from_shown(alloc, acc, slot, tree) {
        Ok(val) => Ok(val),
        Err(err) => Err(shown_fault(err)),
    }
}

fn built_fault(fault: BuildFault) -> CreateFault
    ensures { result ≡ built_fault fault }
{
    match fault {
        BuildFault::Exhausted => CreateFault::Refused(Refusal::Exhausted),
        BuildFault::Size => CreateFault::Refused(Refusal::Size),
        BuildFault::Store => CreateFault::Store,
        BuildFault::Clash { id, .. } => CreateFault::Clash(id),
        BuildFault::Memory => CreateFault::Memory,
    }
}

/// The root block of a value, the blocks of whose HAMTs' nodes are put; or the first cause for which no store holds the value.
pub(crate) fn block_of<K: Store, H: KeyHash>(
    alloc: Global,
    acc: &Accepted,
    ty: TypeNo,
    val: &Val,
    keys: &H,
    store: &mut K,
) -> Result<Octets, CreateFault>
    requires within { ty.0 < length acc.now }
    requires typed { Typed acc.now (plainly ty) (value_of val.now) }
    ensures { HasBlock H.hash_of acc.now ty (value_of val.now) (K.moment store.old) result (K.moment store.new) }
{
    let slot = Slot {
        ty,
        nullable: false,
    };
    match judge(alloc, acc, slot, val, DEEPEST) {
        Ok(None) => {}
        Ok(Some(judged)) => return Err(CreateFault::Refused(judged_refusal(judged))),
        Err(_) => return Err(CreateFault::Memory),
    }
    match build(alloc, acc, slot, val, keys, store) {
        Ok(block) => Ok(block),
        Err(fault) => Err(built_fault(fault)),
    }
}
