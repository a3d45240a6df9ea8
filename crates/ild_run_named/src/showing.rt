//! A value is opened by what its root names, and shown.
ghost use Rattle.std.specs.Prelude.{◌≡◌, ◌<◌, length};
ghost use Rattle.ild_run_named.specs.Shows.{Shows};
ghost use Rattle.ild_run_named.specs.inside.Steps.{ValueShows, open_fault};

use crate::typing::type_of;
use ild_data::{BlockId, KeyHash, Txt};
use ild_edges::Store;
use ild_json::PrintErr;
use ild_open_named::{OpenFault, describe, open_named};
use ild_run_show::{ShowFault, shown_text};
use ild_schema::{Accepted, TypeNo};
use std::alloc::Global;

fn open_fault(fault: OpenFault) -> ShowFault
    ensures { result ≡ open_fault fault }
{
    match fault {
        OpenFault::Block { id, why } => ShowFault::Block { id, why },
        OpenFault::Store => ShowFault::Store,
        OpenFault::Memory => ShowFault::Memory,
    }
}

// The JSON of the value of a type beneath a root.
fn show_value<K: Store, H: KeyHash>(
    alloc: Global,
    acc: &Accepted,
    ty: TypeNo,
    id: &BlockId,
    keys: &H,
    store: &mut K,
) -> Result<Txt, ShowFault>
    requires { ty.0 < length acc.now }
    ensures { ValueShows H.hash_of acc.now ty id.now.0 (K.moment store.old) result (K.moment store.new) }
{
    let opened = match open_named(alloc, acc, ty, id, keys, store) {
        Ok(opened) => opened,
        Err(fault) => return Err(open_fault(fault)),
    };
    match shown_text(alloc, acc, ty, &opened.1) {
        Ok(text) => Ok(text),
        Err(PrintErr::Reserved) => Err(ShowFault::Reserved),
        Err(PrintErr::Memory) => Err(ShowFault::Memory),
    }
}

/// The JSON of the value that stands under a block id, in its shown form, of the type that its root names in the schema whose text the
/// root links to. Or else no such value stands there, and a block is told that isn't held or isn't what has to stand there: the root's,
/// the schema's, the schema's again where its text isn't accepted, the root's where its name is no type's, or one of the value. Or the
/// shown form has no JSON, or the store fails. Nothing is put.
pub fn show_named<K: Store, H: KeyHash>(
    alloc: Global,
    id: &BlockId,
    keys: &H,
    store: &mut K,
) -> Result<Txt, ShowFault>
    ensures { Shows H.hash_of id.now.0 (K.moment store.old) result (K.moment store.new) }
{
    let described = match describe(alloc, id, store) {
        Ok(described) => described,
        Err(fault) => return Err(open_fault(fault)),
    };
    let (acc, ty) = match type_of(alloc, id, &described) {
        Ok(typed) => typed,
        Err(fault) => return Err(open_fault(fault)),
    };
    acc.recall();
    show_value(alloc, &acc, ty, id, keys, store)
}
