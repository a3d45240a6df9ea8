//! The empty value of a type: its block is put.
ghost use Rattle.std.specs.Prelude.{◌≡◌, ◌<◌, Some, length, option_map};
ghost use Rattle.ild_schema.specs.Slots.{form_of, plainly};
ghost use Rattle.ild_schema.specs.ValueSeen.{value_of};
ghost use Rattle.ild_run_open.specs.Empty.{empty_in, IsEmpty};
ghost use Rattle.ild_run_open.specs.inside.Steps.{BuildsEmpty, IsOfEmpty, PutsEmpty, TellsBuilt, put_fault};

use crate::StartFault;
use ild_build_blocks::{BuildFault, build};
use ild_data::{KeyHash, Octets};
use ild_edges::Store;
use ild_schema::{Accepted, Slot, TypeDef, TypeNo, Val, ValPairs, Vals};
use ild_script_session::{PutFault, publish};
use std::alloc::Global;

/// The empty value of a form.
fn empty_in(alloc: Global, def: &TypeDef) -> Option<Val>
    ensures { option_map value_of result ≡ empty_in def.now }
{
    match def {
        TypeDef::List { .. } => Some(Val::List(Vals::new(alloc))),
        TypeDef::Map { .. } => Some(Val::Map(ValPairs::new(alloc))),
        _ => None,
    }
}

/// What a type is, copies followed.
fn form(acc: &Accepted, ty: TypeNo) -> &TypeDef
    requires { ty.0 < length acc.now }
    ensures { form_of acc.now (plainly ty) ≡ Some result.now }
{
    acc.def(acc.base(ty))
}

/// Why an empty value isn't built. Its block is short, with no node of a HAMT beside it, so that the store or memory is wanting.
fn built_fault(fault: BuildFault) -> StartFault
    requires { IsOfEmpty fault }
    ensures { TellsBuilt fault result }
{
    match fault {
        BuildFault::Store => StartFault::Store,
        BuildFault::Memory => StartFault::Memory,
        BuildFault::Exhausted | BuildFault::Size | BuildFault::Clash { .. } => unreachable!(),
    }
}

/// The block of an empty value.
fn block_of<K: Store, H: KeyHash>(
    alloc: Global,
    acc: &Accepted,
    ty: TypeNo,
    empty: &Val,
    keys: &H,
    store: &mut K,
) -> Result<Octets, StartFault>
    requires within { ty.0 < length acc.now }
    requires empty { IsEmpty acc.now ty (value_of empty.now) }
    ensures { BuildsEmpty H.hash_of acc.now ty (value_of empty.now) (K.moment store.old) result (K.moment store.new) }
{
    let slot = Slot {
        ty,
        nullable: false,
    };
    match build(alloc, acc, slot, empty, keys, store) {
        Ok(block) => Ok(block),
        Err(fault) => Err(built_fault(fault)),
    }
}

fn put_fault(fault: PutFault) -> StartFault
    ensures { result ≡ put_fault fault }
{
    match fault {
        PutFault::Failed => StartFault::Store,
        PutFault::Clash(id) => StartFault::Clash(id),
        PutFault::Memory => StartFault::Memory,
    }
}

/// Builds and puts the block of the empty value of a type that is a map or a list.
pub(crate) fn put_empty<K: Store, H: KeyHash>(
    alloc: Global,
    acc: &Accepted,
    ty: TypeNo,
    keys: &H,
    store: &mut K,
) -> Result<Octets, StartFault>
    requires { ty.0 < length acc.now }
    ensures { PutsEmpty H.hash_of acc.now ty (K.moment store.old) result (K.moment store.new) }
{
    let Some(empty) = empty_in(alloc, form(acc, ty)) else {
        return Err(StartFault::Mismatch);
    };
    let block = match block_of(alloc, acc, ty, &empty, keys, store) {
        Ok(block) => block,
        Err(fault) => return Err(fault),
    };
    match publish(store, block.as_slice()) {
        Ok(_) => Ok(block),
        Err(fault) => Err(put_fault(fault)),
    }
}
