//! The block whose CID has a text.
ghost use Rattle.ild_data_root.specs.Root.{AsksRoot, no_root};

use ild_data::{BlockId, TextErr, cid_of_text};
use std::alloc::{AllocError, Global};

// What a text that is no CID's asks for.
fn no_root(err: TextErr) -> Result<Option<BlockId>, AllocError>
    ensures { no_root err result }
{
    match err {
        TextErr::Memory => Err(AllocError),
        TextErr::Prefix | TextErr::Digit | TextErr::Bits | TextErr::Cid(_) => Ok(None),
    }
}

/// The id of the block whose CID has a text: a CIDv1 in base32 with the codec DAG-CBOR and a sha2-256. It is `None` for every other text.
pub fn root_of_text(alloc: Global, text: &str) -> Result<Option<BlockId>, AllocError>
    ensures { AsksRoot text.now result }
{
    match cid_of_text(alloc, text) {
        Ok(cid) => Ok(cid.view().block()),
        Err(err) => no_root(err),
    }
}
