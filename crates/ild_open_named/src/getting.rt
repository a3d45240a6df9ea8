//! The blocks under the ids of a root that names its schema.
ghost use Rattle.std.specs.Prelude.{◌≡◌, ◌<◌, ℕ, List, length, IfOk};
ghost use Rattle.ild_cbor.specs.Block.{IsBlockOf};
ghost use Rattle.ild_data.specs.Bytes.{AreBytes};
ghost use Rattle.ild_data.specs.Data.{text};
ghost use Rattle.ild_open_named.specs.inside.Found.{FindsText, GetsBlock, IsTextBlock, JudgesText};

use ild_cbor::{BlockWhy, Why, check, known_root};
use ild_data::{BlockId, Octets, Txt};
use ild_edges::{EdgeErr, Store};
use ild_open_read::OpenFault;
use std::alloc::{AllocError, Global};

/// The items of a slice of bytes are bytes; a caller that needs the fact makes this call, which does no work.
pub(crate) fn are_bytes(bytes: &[u8])
    ensures { AreBytes bytes.now }
{}

/// The block under an id.
pub(crate) fn get_block<K: Store>(id: &BlockId, store: &mut K) -> Result<Octets, OpenFault>
    ensures { GetsBlock id.now.0 (K.moment store.old) result (K.moment store.new) }
{
    match store.get(id) {
        Ok(Some(block)) => Ok(block),
        Ok(None) => Err(OpenFault::Block {
            id: *id,
            why: BlockWhy::Missing,
        }),
        Err(EdgeErr::Failed) => Err(OpenFault::Store),
        Err(EdgeErr::Memory) => Err(OpenFault::Memory),
    }
}

// Whether bytes under an id are the block of a text.
fn judge_text(id: &BlockId, block: &[u8]) -> Result<(), OpenFault>
    ensures { JudgesText id.now.0 block.now result }
{
    match check(block) {
        Ok(node) => match node.text() {
            Some(_) => Ok(()),
            None => Err(OpenFault::Block {
                id: *id,
                why: BlockWhy::Shape(Why::Kind),
            }),
        },
        Err(fault) => Err(OpenFault::Block {
            id: *id,
            why: BlockWhy::Cbor(fault),
        }),
    }
}

/// The block of a text that stands under an id.
pub(crate) fn find_text<K: Store>(id: &BlockId, store: &mut K) -> Result<Octets, OpenFault>
    ensures { FindsText id.now.0 (K.moment store.old) result (K.moment store.new) }
{
    let block = match get_block(id, store) {
        Ok(block) => block,
        Err(fault) => return Err(fault),
    };
    match judge_text(id, block.as_slice()) {
        Ok(()) => Ok(block),
        Err(fault) => Err(fault),
    }
}

/// The text that a block is.
pub(crate) fn text_in(alloc: Global, block: &[u8]) -> Result<Txt, AllocError>
    requires { ∥ IsTextBlock block.now ∥₁ }
    ensures { (s : List ℕ) → IsBlockOf block.now (text s) → IfOk result (λ t. t ≡ s) }
{
    match known_root(block).text() {
        Some(text) => Txt::of(alloc, text),
        None => unreachable!(),
    }
}
