//! The answer, from what is made.
ghost use Rattle.ild_data.specs.Data.{Data};
ghost use Rattle.ild_data.specs.Spell.{spell};
ghost use Rattle.ild_path_block.specs.Items.{MakesItem};
ghost use Rattle.ild_splice.specs.Made.{MakesBytes};

use ild_data::Octets;
use ild_splice::SpliceErr;

/// What is made is the item.
pub(crate) fn told(made: Result<Octets, SpliceErr>) -> Result<Option<Octets>, SpliceErr>
    ensures { (u : Data) → MakesBytes (spell u) made → MakesItem u result }
{
    Ok(Some(made?))
}
