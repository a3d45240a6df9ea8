//! The check of one block against a type of the schema that stands here.
ghost use Rattle.std.specs.Prelude.{◌<◌, length};

use ild_cbor::check;
use ild_compile::compile;
use ild_schema::Slot;
use ild_view_walk::check_item;
use std::alloc::Global;

/// Lists of structs of ten fields, which stand in a block in the order of their declaration, and in another order; a list, a map
/// and pairs.
const SCHEMA: &str =
    "type Straight struct { a Int bb Int ccc Int dddd Int eeeee String ffffff String ggggggg Int hhhhhhhh \
     Int iiiiiiiii Int jjjjjjjjjj Int } type Crossed struct { ggggggg Int a Int jjjjjjjjjj Int ccc Int hhhhhhhh \
     Int eeeee String bb Int iiiiiiiii Int dddd Int ffffff String } type Straights [Straight] type Crosseds \
     [Crossed] type Ints [Int] type Entries {String:Int} type Pairs {String:Int} representation listpairs";

/// The block is checked against the type.
pub(crate) fn walk_all(alloc: Global, bytes: &[u8], times: u32, name: &str) -> Option<u64> {
    let acc = compile(alloc, SCHEMA.as_bytes()).ok()?;
    let node = check(bytes).ok()?;
    let slot = Slot {
        ty: acc.type_named(name)?,
        nullable: false,
    };
    if slot.ty.0 >= acc.types() {
        return None;
    }
    let mut sum: u64 = 0;
    for _ in 0..times {
        check_item(alloc, &acc, slot, node, 96).ok()?;
        sum = sum.wrapping_add(1);
    }
    Some(sum)
}
