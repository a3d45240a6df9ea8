//! Blocks in which data stand.
ghost use Rattle.std.specs.Prelude.{◌≡◌};
ghost use Rattle.ild_data.specs.Spell.{id_of};
ghost use Rattle.ild_open.specs.Named.{told_id};

use ild_data::{BlockId, block_id};

/// The block in which data stand: its bytes, and its id where that is known, so that it isn't hashed for it.
#[derive(Clone, Copy)]
pub struct BlockAt<'b> {
    pub(crate) bytes: &'b [u8],
    pub(crate) known: Option<BlockId>,
    ghost same: { told_id known bytes.now ≡ id_of bytes.now },
}

impl<'b> BlockAt<'b> {
    ghost use Rattle.ild_open.specs.Blocks.{bytes_in};

    /// A block of which only the bytes are known: it is hashed when its id is asked for.
    pub fn of(bytes: &'b [u8]) -> BlockAt<'b>
        ensures { bytes_in result ≡ bytes.now }
    {
        BlockAt { bytes, known: None }
    }

    /// A block with its id.
    pub fn named(bytes: &'b [u8], id: BlockId) -> BlockAt<'b>
        requires { id.0 ≡ id_of bytes.now }
        ensures { bytes_in result ≡ bytes.now }
    {
        BlockAt {
            bytes,
            known: Some(id),
        }
    }

    /// The bytes of the block.
    pub fn bytes(&self) -> &'b [u8]
        ensures { result.now ≡ bytes_in self.now }
    {
        self.bytes
    }

    /// The id of the block. It is worked out only where it isn't known.
    pub fn id(&self) -> BlockId
        ensures { result.0 ≡ id_of (bytes_in self.now) }
    {
        match self.known {
            Some(id) => id,
            None => block_id(self.bytes),
        }
    }
}
