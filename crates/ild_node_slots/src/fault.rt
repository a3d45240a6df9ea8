//! Why a call on HAMTs is refused.
ghost use Rattle.std.specs.Prelude.{◌≡◌};
ghost use Rattle.ild_node_slots.specs.declared.fault.HamtFault.TheVariants.{Memory};

use ild_cbor::BlockWhy;
use ild_data::{BlockId, Octets};
use std::alloc::{AllocError, AllocFailed};

/// Why a call that reads or writes the blocks of a HAMT is refused.
#[derive(Drop)]
pub enum HamtFault {
    /// More keys than a bucket takes agree in all bits of their hashes that levels read.
    Exhausted,
    /// The block under an id isn't held, or isn't the node that has to stand there.
    Block {
        id: BlockId,
        why: BlockWhy,
    },
    /// The store failed.
    Store,
    /// Other bytes are held under the id of a block that was to be put: both have this id.
    Clash {
        id: BlockId,
        kept: Octets,
        new: Octets,
    },
    /// A node of the new tree is longer than a block may be.
    Size,
    /// The key isn't there.
    NoKey,
    /// An allocation was refused.
    Memory,
}

impl From<AllocError> for HamtFault {
    ghost from_gives = { λ _ e. e ≡ Memory };

    fn from(_: AllocError) -> Self {
        HamtFault::Memory
    }
}

impl<T: Drop> From<AllocFailed<T>> for HamtFault {
    ghost from_gives = { λ _ e. e ≡ Memory };

    fn from(_: AllocFailed<T>) -> Self {
        HamtFault::Memory
    }
}
