//! The faults of HAMTs as those of edits.
ghost use Rattle.std.specs.Prelude.{◌≡◌, false};
ghost use Rattle.ild_path.specs.inside.Pieces.{AnswersAs, names_block};

use crate::fault::EditFault;
use ild_data::NamedBlock;
use ild_node::HamtFault;

/// The answer of an edit through HAMTs, which gets no block, and so refuses none.
pub(crate) fn answer_of(answer: Result<NamedBlock, HamtFault>) -> Result<NamedBlock, EditFault>
    requires { names_block answer ≡ false }
    ensures { AnswersAs answer result }
{
    match answer {
        Ok(block) => Ok(block),
        Err(HamtFault::Exhausted) => Err(EditFault::Exhausted),
        Err(HamtFault::NoKey) => Err(EditFault::NoKey),
        Err(HamtFault::Size) => Err(EditFault::Size),
        Err(HamtFault::Store) => Err(EditFault::Store),
        Err(HamtFault::Clash { id, kept, new }) => {
            // They do no work: their clauses say that both are bytes.
            let _kept = kept.as_slice();
            let _new = new.as_slice();
            Err(EditFault::Clash { id, kept, new })
        }
        Err(HamtFault::Block { .. }) => unreachable!(),
        Err(HamtFault::Memory) => Err(EditFault::Memory),
    }
}
