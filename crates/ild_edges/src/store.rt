//! Where blocks are kept.
ghost use Rattle.std.specs.Prelude.{◌≡◌};
ghost use Rattle.ild_data.specs.Spell.{id_of};
ghost use Rattle.ild_edges.specs.Store.{Moment, Gets, Puts};

use crate::EdgeErr;
use ild_data::{BlockId, Octets};

/// Where blocks are kept, each under its id.
pub trait Store {
    /// What is held and was counted at this moment.
    ghost moment: { Self → Moment };

    /// The block under an id, or `None` where there is none.
    fn get(&mut self, id: &BlockId) -> Result<Option<Octets>, EdgeErr>
        ensures { Gets (moment self.old) id.now.0 result (moment self.new) };

    /// Puts a block under its id. `Some` hands back the other bytes that are kept under it.
    fn put(&mut self, id: &BlockId, bytes: &[u8]) -> Result<Option<Octets>, EdgeErr>
        requires { id.now.0 ≡ id_of bytes.now }
        ensures { Puts (moment self.old) bytes.now result (moment self.new) };
}
