//! The table of a root that names its schema.
ghost use Rattle.std.specs.Prelude.{◌<◌, IfOk, length};
ghost use Rattle.ild_run_named_table.specs.NamedTable.{NamesTable};

use ild_data::BlockId;
use ild_edges::Store;
use ild_named_type::named_schema;
use ild_open_named::{OpenFault, describe};
use ild_run_named::type_of;
use ild_schema::{Accepted, TypeNo};
use std::alloc::Global;

/// The table of the schema that the root under an id names, with the struct of such roots over the type that it names, and the number of
/// that struct: by this table the root is a bare one. Nothing is asked of its value. `Block` comes exactly where the root or the schema's
/// block isn't held, or isn't what has to stand there; or where the schema's text isn't accepted, which tells the schema's block, or the
/// name is no type's, which tells the root. `Store` comes only where the store failed. Nothing is put.
pub fn named_table<K: Store>(
    alloc: Global,
    id: &BlockId,
    store: &mut K,
) -> Result<(Accepted, TypeNo), OpenFault>
    ensures names { NamesTable id.now.0 (K.moment store.old) result (K.moment store.new) }
    ensures within { IfOk result (λ x. x.1.0 < length x.0) }
{
    let described = match describe(alloc, id, store) {
        Ok(described) => described,
        Err(fault) => return Err(fault),
    };
    let (acc, ty) = match type_of(alloc, id, &described) {
        Ok(typed) => typed,
        Err(fault) => return Err(fault),
    };
    match named_schema(alloc, acc, ty) {
        Ok(named) => Ok(named),
        Err(_) => Err(OpenFault::Memory),
    }
}
