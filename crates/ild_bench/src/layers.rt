//! Work over the structs in the list of one block, whose schema stands here. Each answers a sum that depends on all that was
//! done, or `None` where the bytes are no such block.
ghost use Rattle.std.specs.Prelude.{◌<◌, length};
ghost use Rattle.ild_schema.specs.declared.def.StructDef.{StructDef as Struct};
ghost use Rattle.ild_struct.specs.Parts.{IsStruct};

use ild_cbor::{Items, Piece, check};
use ild_compile::compile;
use ild_schema::{Accepted, TypeDef, TypeNo};
use ild_struct::layer;
use std::alloc::Global;

/// Structs of ten fields, which stand in a block in the order of their declaration, and in another order.
const SCHEMA: &str =
    "type Straight struct { a Int bb Int ccc Int dddd Int eeeee String ffffff String ggggggg Int hhhhhhhh Int iiiiiiiii Int jjjjjjjjjj Int } type Crossed struct { ggggggg Int a Int jjjjjjjjjj Int ccc Int hhhhhhhh Int eeeee String bb Int iiiiiiiii Int dddd Int ffffff String }";

/// What is done with each struct.
#[derive(Clone, Copy)]
pub(crate) enum Work {
    /// Its layer is read.
    Layer,
    /// And all parts that are written.
    Parts,
}

/// Goes over the structs of a list.
fn structs_of(acc: &Accepted, ty: TypeNo, items: Items<'_>, work: Work) -> Option<u64>
    requires within { ty.0 < length acc.now }
    requires form { (s : Struct) × IsStruct acc.now ty.0 s }
{
    let mut sum: u64 = 0;
    let mut left = items;
    while let Some(item) = left.next() {
        let layer = layer(acc, ty, Piece::Node(item)).ok()?;
        sum = sum.wrapping_add(1);
        if let Work::Parts = work {
            let mut parts = layer.present();
            while let Some((place, _)) = parts.next() {
                sum = sum.wrapping_add(place as u64);
            }
        }
    }
    Some(sum)
}

/// All structs of a list are gone over.
pub(crate) fn all_structs(
    alloc: Global,
    bytes: &[u8],
    times: u32,
    name: &str,
    work: Work,
) -> Option<u64> {
    let acc = compile(alloc, SCHEMA.as_bytes()).ok()?;
    let node = check(bytes).ok()?;
    let ty = acc.type_named(name)?;
    if ty.0 >= acc.types() {
        return None;
    }
    let TypeDef::Struct(_) = acc.def(acc.base(ty)) else {
        return None;
    };
    let mut sum: u64 = 0;
    for _ in 0..times {
        sum = sum.wrapping_add(structs_of(&acc, ty, node.items()?, work)?);
    }
    Some(sum)
}
