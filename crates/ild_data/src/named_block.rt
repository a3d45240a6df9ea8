//! Blocks with their ids.
ghost use Rattle.std.specs.Prelude.{◌≡◌};
ghost use Rattle.ild_data.specs.Spell.{id_of};

use crate::id::{BlockId, block_id};
use crate::text::Octets;
use std::alloc::AllocError;
use std::marker::Model;

/// A block with its id (IPLD, "Blocks"), so that it is hashed once.
#[derive(Drop)]
pub struct NamedBlock {
    id: BlockId,
    block: Octets,
}

impl Model for NamedBlock {
    ghost use Rattle.std.specs.Prelude.{◌≡◌, List, ℕ};
    ghost use Rattle.ild_data.specs.Spell.{id_of};

    ghost Value = { List ℕ };

    ghost view = { λ a. a.block };

    ghost invariant = { λ a. a.id.0 ≡ id_of a.block };
}

impl NamedBlock {
    ghost use Rattle.std.specs.Prelude.{IfOk};

    /// A block, which is hashed here.
    pub fn of(block: Octets) -> NamedBlock
        ensures { result ≡ block }
    {
        let id = block_id(block.as_slice());
        NamedBlock { id, block }
    }

    /// The same block once more.
    pub fn copy(&self) -> Result<NamedBlock, AllocError>
        ensures { IfOk result (λ b. b ≡ self.now) }
    {
        Ok(NamedBlock {
            id: self.id,
            block: self.block.copy()?,
        })
    }

    /// The id of the block.
    pub fn id(&self) -> BlockId
        ensures { result.0 ≡ id_of self.now }
    {
        self.id
    }

    /// The block alone.
    pub fn block(&self) -> &Octets
        ensures { result.now ≡ self.now }
    {
        &self.block
    }
}
