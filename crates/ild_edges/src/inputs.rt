//! Named inputs.
ghost use Rattle.ild_edges.specs.Inputs.{Supply, Takes};

use crate::EdgeErr;
use ild_data::Octets;

/// How many bytes an input has at most: 16 MiB.
pub const LONGEST_INPUT: usize = 16_777_216;

/// What a take gives: the whole content, or that it isn't there, or that it is longer than an input may be.
#[derive(Drop)]
pub enum Taken {
    Bytes(Octets),
    Absent,
    Long,
}

/// Where inputs come from.
pub trait Inputs {
    /// What there is and what was counted at this moment.
    ghost supply: { Self → Supply };

    /// Takes the input of a name.
    fn take(&mut self, name: &str) -> Result<Taken, EdgeErr>
        ensures { Takes (supply self.old) name.now result (supply self.new) };
}
