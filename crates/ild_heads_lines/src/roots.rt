//! The texts of roots.
ghost use Rattle.std.specs.Prelude.{◌≡◌};
ghost use Rattle.ild_data_root.specs.Root.{root_of_text};
ghost use Rattle.ild_script.specs.Reads.{ReadsSo};

use ild_data::BlockId;
use ild_data_root::root_of_text;
use ild_script::LineErr;
use std::alloc::Global;

/// The id of the block whose CID has this text.
pub(crate) fn root_of(alloc: Global, text: &str) -> Result<BlockId, LineErr>
    ensures { ReadsSo (λ id. id.0) result (root_of_text text.now) }
{
    match root_of_text(alloc, text) {
        Ok(Some(id)) => Ok(id),
        Ok(None) => Err(LineErr::Line),
        Err(_) => Err(LineErr::Memory),
    }
}
