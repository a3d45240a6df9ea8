//! A value is given a root that names its schema.
ghost use Rattle.std.specs.Prelude.{◌≡◌, ◌<◌, None, length};
ghost use Rattle.ild_cbor.specs.Reading.{fault_of};
ghost use Rattle.ild_data.specs.Spell.{id_of};
ghost use Rattle.ild_view_doc.specs.Block.{HasRoot};
ghost use Rattle.ild_view_doc.specs.Docs.{block_in, table_in, type_in};
ghost use Rattle.ild_named_root.specs.Names.{Names};

use crate::NameFault;
use crate::loading::load_beneath;
use crate::writing::{new_blocks, put_both};
use ild_data::{BlockId, KeyHash};
use ild_edges::Store;
use ild_schema::{Accepted, TypeNo};
use ild_view_doc::Doc;
use std::alloc::Global;

// Gives it to the value of a root block.
fn name_block<K: Store, H: KeyHash>(
    alloc: Global,
    acc: &Accepted,
    ty: TypeNo,
    block: &[u8],
    at: BlockId,
    name: &str,
    source: &str,
    keys: &H,
    store: &mut K,
) -> Result<BlockId, NameFault>
    requires within { ty.0 < length acc.now }
    requires faultless { fault_of block.now ≡ None }
    requires named { at.0 ≡ id_of block.now }
    requires root { ∥ HasRoot acc.now ty block.now ∥₁ }
    ensures { Names H.hash_of acc.now ty block.now name.now source.now (K.moment store.old) result (K.moment store.new) }
{
    acc.recall();
    match load_beneath(alloc, acc, ty, block, at, keys, store) {
        Ok(()) => {}
        Err(fault) => return Err(fault),
    }
    let (text, root) = match new_blocks(alloc, block, name, source) {
        Ok(blocks) => blocks,
        Err(fault) => return Err(fault),
    };
    match put_both(&text, &root, store) {
        Ok(()) => Ok(root.id()),
        Err(fault) => Err(fault),
    }
}

/// Gives the value of a document a root that names the value's type and the schema's text, and answers its id. The value's HAMTs are
/// read first. Then the block of the text is put, and then the root. `Depth` comes where the value nests more than 95 levels, and else
/// `Size` where one of the two blocks is longer than a block may be. Where the document's value stands in a store that tells what it
/// holds, `Block` never comes, `Depth` comes exactly there, and the value stands under the answered id afterwards.
pub fn name_root<K: Store, H: KeyHash>(
    alloc: Global,
    doc: &Doc<'_>,
    name: &str,
    source: &str,
    keys: &H,
    store: &mut K,
) -> Result<BlockId, NameFault>
    ensures { Names H.hash_of (table_in doc.now) (type_in doc.now) (block_in doc.now) name.now source.now (K.moment store.old) result (K.moment store.new) }
{
    let block = doc.block();
    name_block(
        alloc,
        doc.schema(),
        doc.ty(),
        block,
        doc.root(),
        name,
        source,
        keys,
        store,
    )
}
