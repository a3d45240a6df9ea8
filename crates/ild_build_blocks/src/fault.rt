//! Why a value has no blocks.
ghost use Rattle.std.specs.Prelude.{◌≡◌};

use ild_data::{BlockId, Octets};
use std::alloc::AllocError;

/// Why the blocks of a value are not there.
#[derive(Drop)]
pub enum BuildFault {
    /// More keys of a HAMT than a bucket takes agree in all bits of their hashes that levels read (IPLD HashMap).
    Exhausted,
    /// A block would be longer than 4,194,304 bytes.
    Size,
    /// The store failed.
    Store,
    /// Other bytes are held under the id of a block that was to be put: both have this id.
    Clash {
        id: BlockId,
        kept: Octets,
        new: Octets,
    },
    /// There is no memory for the blocks.
    Memory,
}

impl From<AllocError> for BuildFault {
    ghost use Rattle.ild_build_blocks.specs.declared.fault.BuildFault.TheVariants.{Memory};

    ghost from_gives = { λ _ e. e ≡ Memory };

    fn from(_refused: AllocError) -> BuildFault {
        BuildFault::Memory
    }
}
