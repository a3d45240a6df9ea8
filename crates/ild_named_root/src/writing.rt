//! The two new blocks are written and put.
ghost use Rattle.std.specs.Prelude.{◌≡◌, IfErr};
ghost use Rattle.ild_cbor.specs.Block.{IsBlockOf};
ghost use Rattle.ild_data.specs.Data.{Data};
ghost use Rattle.ild_named_root.specs.inside.Writing.{IsMakingFault, IsPutFault, MakesBlocks, PutsBoth, PutsOne, put_fault};

use crate::NameFault;
use ild_bulk::put_one;
use ild_data::{LONGEST_BLOCK, NamedBlock};
use ild_edges::Store;
use ild_named::{named_block, schema_block};
use ild_node::HamtFault;
use std::alloc::Global;

/// The block of the schema's text, and the root that names a type of it over a block's data, both no longer than blocks may be.
pub(crate) fn new_blocks(
    alloc: Global,
    block: &[u8],
    name: &str,
    source: &str,
) -> Result<(NamedBlock, NamedBlock), NameFault>
    ensures made { (t : Data) → IsBlockOf block.now t → MakesBlocks name.now source.now t result }
    ensures fault { IfErr result IsMakingFault }
{
    let text = match schema_block(alloc, source) {
        Ok(text) => NamedBlock::of(text),
        Err(_) => return Err(NameFault::Memory),
    };
    let root = match named_block(alloc, name, &text.id(), block) {
        Ok(root) => NamedBlock::of(root),
        Err(_) => return Err(NameFault::Memory),
    };
    if text.block().as_slice().len() > LONGEST_BLOCK {
        return Err(NameFault::Size);
    }
    if root.block().as_slice().len() > LONGEST_BLOCK {
        return Err(NameFault::Size);
    }
    Ok((text, root))
}

fn put_fault(fault: HamtFault) -> NameFault
    requires { IsPutFault fault }
    ensures { result ≡ put_fault fault }
{
    match fault {
        HamtFault::Store => NameFault::Store,
        HamtFault::Clash { id, kept, new } => NameFault::Clash { id, kept, new },
        HamtFault::Memory => NameFault::Memory,
        HamtFault::Exhausted | HamtFault::Block { .. } | HamtFault::Size | HamtFault::NoKey =>
            unreachable!(),
    }
}

// Puts a block under its id.
fn put<K: Store>(block: &NamedBlock, store: &mut K) -> Result<(), NameFault>
    ensures { PutsOne (K.moment store.old) block.now result (K.moment store.new) }
{
    match put_one(block, store) {
        Ok(()) => Ok(()),
        Err(fault) => Err(put_fault(fault)),
    }
}

/// Puts the schema's block, and then the root.
pub(crate) fn put_both<K: Store>(
    text: &NamedBlock,
    root: &NamedBlock,
    store: &mut K,
) -> Result<(), NameFault>
    ensures { PutsBoth (K.moment store.old) text.now root.now result (K.moment store.new) }
{
    match put(text, store) {
        Ok(()) => put(root, store),
        Err(fault) => Err(fault),
    }
}
