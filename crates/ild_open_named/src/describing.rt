//! Describing a root.
ghost use Rattle.std.specs.Prelude.{◌≡◌};
ghost use Rattle.ild_open_named.specs.Described.{Describes};
ghost use Rattle.ild_open_named.specs.inside.Found.{NamesIn, PartsIn};

use crate::Described;
use crate::getting::{find_text, get_block, text_in};
use ild_cbor::{BlockWhy, check};
use ild_data::{BlockId, Txt};
use ild_edges::Store;
use ild_named::{NamedParts, named_parts};
use ild_open_read::OpenFault;
use std::alloc::Global;

// The parts of the root that bytes under an id are, or why they are none.
fn parts_in<'b>(id: &BlockId, block: &'b [u8]) -> Result<NamedParts<'b>, OpenFault>
    ensures { PartsIn id.now.0 block.now result }
{
    match check(block) {
        Ok(node) => match named_parts(&node) {
            Ok(parts) => Ok(parts),
            Err(why) => Err(OpenFault::Block {
                id: *id,
                why: BlockWhy::Shape(why),
            }),
        },
        Err(fault) => Err(OpenFault::Block {
            id: *id,
            why: BlockWhy::Cbor(fault),
        }),
    }
}

// The name that they tell, and the id of the schema's block.
fn names_in(alloc: Global, id: &BlockId, block: &[u8]) -> Result<(Txt, BlockId), OpenFault>
    ensures { NamesIn id.now.0 block.now result }
{
    match parts_in(id, block) {
        Ok(parts) => match Txt::of(alloc, parts.name) {
            Ok(name) => Ok((name, parts.schema)),
            Err(_) => Err(OpenFault::Memory),
        },
        Err(fault) => Err(fault),
    }
}

/// What the root under an id tells of its value: the name of the value's type, and the schema's text. Nothing is asked of the value.
/// `Block` comes exactly where the root or the schema's block isn't held, or isn't what has to stand there: a map of exactly the entries
/// `type`, a text, `value`, and `schema`, a block's link; and a text.
pub fn describe<K: Store>(
    alloc: Global,
    id: &BlockId,
    store: &mut K,
) -> Result<Described, OpenFault>
    ensures { Describes id.now.0 (K.moment store.old) result (K.moment store.new) }
{
    let root = match get_block(id, store) {
        Ok(root) => root,
        Err(fault) => return Err(fault),
    };
    let bytes = root.as_slice();
    let (type_name, schema) = match names_in(alloc, id, bytes) {
        Ok(names) => names,
        Err(fault) => return Err(fault),
    };
    let block = match find_text(&schema, store) {
        Ok(block) => block,
        Err(fault) => return Err(fault),
    };
    let bytes = block.as_slice();
    match text_in(alloc, bytes) {
        Ok(source) => Ok(Described {
            type_name,
            schema,
            source,
        }),
        Err(_) => Err(OpenFault::Memory),
    }
}
