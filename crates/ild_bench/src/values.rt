//! Values of a type, whose schema stands here, written. The answer is a sum of lengths, or `None` where the bytes are no JSON of a
//! value that a store can hold, or memory is wanting.
ghost use Rattle.std.specs.Prelude.{◌<◌, IfSome, length};
ghost use Rattle.ild_schema.specs.ValueSeen.{value_of};
ghost use Rattle.ild_typed.specs.Typed.{Typed};

use ild_build::judge;
use ild_build_blocks::build;
use ild_compile::compile;
use ild_data::Sha256Keys;
use ild_edges::MemStore;
use ild_json::read;
use ild_schema::{Accepted, Slot, Val};
use ild_value::from_shown;
use std::alloc::Global;

/// A list of structs, whose names don't rise in the key order, and a list of integers.
const SCHEMA: &str =
    "type People [Person] type Person struct { age Int mail String name String tags [String] ok Bool } type Ints [Int]";

/// The value of a slot that a JSON text means.
fn given(alloc: Global, acc: &Accepted, slot: Slot, bytes: &[u8]) -> Option<Val>
    requires { slot.ty.0 < length acc.now }
    ensures { IfSome result (λ v. Typed acc.now slot (value_of v)) }
{
    let tree = read(alloc, bytes).ok()?;
    match from_shown(alloc, acc, slot, tree) {
        Ok(val) => Some(val),
        Err(_) => None,
    }
}

/// Writes a value so many times, if a store can hold it.
fn write_times(alloc: Global, acc: &Accepted, slot: Slot, val: &Val, times: u32) -> Option<u64>
    requires within { slot.ty.0 < length acc.now }
    requires typed { Typed acc.now slot (value_of val.now) }
{
    match judge(alloc, acc, slot, val, 96) {
        Ok(None) => {}
        _ => return None,
    }
    let mut store = MemStore::new(alloc, &[], &[]).ok()?;
    let mut sum: u64 = 0;
    for _ in 0..times {
        let block = build(alloc, acc, slot, val, &Sha256Keys, &mut store).ok()?;
        sum = sum.wrapping_add(block.as_slice().len() as u64);
    }
    Some(sum)
}

/// The JSON is read as a value of a type once, which is written so many times.
pub(crate) fn write_all(alloc: Global, bytes: &[u8], times: u32, name: &str) -> Option<u64> {
    let acc = compile(alloc, SCHEMA.as_bytes()).ok()?;
    let ty = acc.type_named(name)?;
    if ty.0 >= acc.types() {
        return None;
    }
    let slot = Slot {
        ty,
        nullable: false,
    };
    let val = given(alloc, &acc, slot, bytes)?;
    write_times(alloc, &acc, slot, &val, times)
}
