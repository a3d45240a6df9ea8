//! A value is opened and shown.
ghost use Rattle.std.specs.Prelude.{◌≡◌, ◌<◌, Some, None, length, IfOk, IfErr};
ghost use Rattle.ild_json.specs.Printing.{json_text};
ghost use Rattle.ild_json.specs.declared.error.PrintErr.{PrintErr};
ghost use Rattle.ild_json.specs.declared.error.PrintErr.TheVariants.{Reserved};
ghost use Rattle.ild_schema.specs.Slots.{plainly};
ghost use Rattle.ild_schema.specs.ValueSeen.{value_of};
ghost use Rattle.ild_typed.specs.Shown.{shown};
ghost use Rattle.ild_run_show.specs.Shows.{Shows};

use crate::ShowFault;
use ild_data::{BlockId, KeyHash, Txt};
use ild_edges::Store;
use ild_json::{PrintErr, print};
use ild_open::{OpenFault, open_value};
use ild_schema::{Accepted, Slot, TypeNo, Val};
use ild_value_shown::shown;
use std::alloc::Global;

/// The JSON of a value of a type, in its shown form.
pub fn shown_text(alloc: Global, acc: &Accepted, ty: TypeNo, val: &Val) -> Result<Txt, PrintErr>
    requires { ty.0 < length acc.now }
    ensures ok { IfOk result (λ text. json_text (shown acc.now (plainly ty) (value_of val.now)) ≡ Some text) }
    ensures err { IfErr result (λ err. err ≡ PrintErr.Reserved → json_text (shown acc.now (plainly ty) (value_of val.now)) ≡ None) }
{
    let slot = Slot {
        ty,
        nullable: false,
    };
    let tree = match shown(alloc, acc, slot, val) {
        Ok(tree) => tree,
        Err(_) => return Err(PrintErr::Memory),
    };
    print(alloc, &tree)
}

/// The JSON of the value of a type that stands under a block id, in its shown form. Or else no such value stands there, and a block is
/// told that isn't held or isn't what has to stand there; or the shown form has no JSON; or the store fails. Nothing is put.
pub fn show<K: Store, H: KeyHash>(
    alloc: Global,
    acc: &Accepted,
    ty: TypeNo,
    id: &BlockId,
    keys: &H,
    store: &mut K,
) -> Result<Txt, ShowFault>
    requires { ty.0 < length acc.now }
    ensures { Shows H.hash_of acc.now ty id.now.0 (K.moment store.old) result (K.moment store.new) }
{
    let opened = match open_value(alloc, acc, ty, id, keys, store) {
        Ok(opened) => opened,
        Err(OpenFault::Block { id, why }) => return Err(ShowFault::Block { id, why }),
        Err(OpenFault::Store) => return Err(ShowFault::Store),
        Err(OpenFault::Memory) => return Err(ShowFault::Memory),
    };
    match shown_text(alloc, acc, ty, &opened.1) {
        Ok(text) => Ok(text),
        Err(PrintErr::Reserved) => Err(ShowFault::Reserved),
        Err(PrintErr::Memory) => Err(ShowFault::Memory),
    }
}
