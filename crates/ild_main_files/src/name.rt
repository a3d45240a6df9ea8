//! The names of the files of blocks.
ghost use Rattle.std.specs.Prelude.{◌≡◌, ◌≢◌, ◌++◌, codes, string_bytes, IfOk};
ghost use Rattle.std.specs.Fmt.{decimal};
ghost use Rattle.ild_data.specs.CidText.{cid_text_of};
ghost use Rattle.ild_data.specs.Spell.{cid_of};

use ild_data::BlockId;
use std::alloc::{AllocError, Global};

/// Room for what stands behind the folder in a path: a slash, and the 59 letters of a CID.
const NAME_ROOM: usize = 60;

/// The path of a block's file: the folder, and the text of the block's CID.
pub(crate) fn block_path(alloc: Global, folder: &str, id: &BlockId) -> Result<String, AllocError>
    ensures { IfOk result (λ path. string_bytes path ≡ folder.now ++ codes "/" ++ cid_text_of (cid_of id.now.0)) }
{
    let text = id.text(alloc)?;
    let mut path = String::with_capacity(alloc, folder.len().saturating_add(NAME_ROOM))?;
    path.push_str(folder)?;
    path.push_str("/")?;
    path.push_str(text.as_str())?;
    Ok(path)
}

/// The path of what is not yet a block's file: the first, or one with a number beside it.
pub(crate) fn part_path(alloc: Global, path: &str, number: u16) -> Result<String, AllocError>
    ensures first { number ≡ 0 → IfOk result (λ part. string_bytes part ≡ path.now ++ codes ".part") }
    ensures beside { number ≢ 0 → IfOk result (λ part. string_bytes part ≡ path.now ++ (codes ".part" ++ decimal number)) }
{
    if number == 0 {
        return format!(in alloc; "{path}.part");
    }
    format!(in alloc; "{path}.part{number}")
}
