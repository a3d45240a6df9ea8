//! Slots of declared types, and trees of JSON texts.
ghost use Rattle.std.specs.Prelude.{◌<◌, IfOk, length};

use ild_data::Tree;
use ild_json::read;
use ild_schema::{Accepted, Slot};
use std::alloc::Global;

/// The slot of a declared type, where null may not stand.
pub(crate) fn slot_of(acc: &Accepted, name: &str) -> Result<Slot, &'static str>
    ensures { IfOk result (λ slot. slot.ty.0 < length acc.now) }
{
    let Some(ty) = acc.type_named(name) else {
        return Err("a type");
    };
    if ty.0 < acc.types() {
        Ok(Slot {
            ty,
            nullable: false,
        })
    } else {
        Err("a type of the table")
    }
}

/// The tree of a JSON text.
pub(crate) fn tree_of(alloc: Global, json: &str) -> Result<Tree, &'static str> {
    match read(alloc, json.as_bytes()) {
        Ok(tree) => Ok(tree),
        Err(_) => Err("JSON"),
    }
}
