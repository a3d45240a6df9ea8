//! What is told where there is no part.
ghost use Rattle.ild_run_follow.specs.Tells.{TellsNothing};

use crate::fault::ReadFault;
use crate::kind::Tell;
use ild_data::Tree;

/// What is told where a path leads nowhere.
pub(crate) fn absent(tell: Tell) -> Result<Tree, ReadFault>
    ensures { TellsNothing tell result }
{
    match tell {
        Tell::Presence => Ok(Tree::Bool(false)),
        Tell::Shown | Tell::Representation | Tell::Count | Tell::Parts => Err(ReadFault::Path),
    }
}
