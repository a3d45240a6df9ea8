//! Writing the item of a text.
ghost use Rattle.std.specs.Prelude.{◌≡◌, IfOk};
ghost use Rattle.ild_data.specs.Spell.{spell_text};
ghost use Rattle.ild_splice.specs.Made.{MakesBytes};

use ild_data::{LONGEST_BLOCK, Octets};
use ild_emit::Emit;
use ild_splice::{SpliceErr, text_size};
use std::alloc::{AllocError, Global};

// The spelling of a text, made with its room at once.
fn spelled(alloc: Global, text: &str, room: usize) -> Result<Octets, AllocError>
    ensures { IfOk result (λ b. b ≡ spell_text text.now) }
{
    let mut out = Emit::with_room(alloc, room)?;
    out.text(text)?;
    Ok(out.finish())
}

/// The item of a text, where it is no longer than a block may be: its canonical bytes (DAG-CBOR).
pub(crate) fn text_item(alloc: Global, text: &str) -> Result<Octets, SpliceErr>
    ensures { MakesBytes (spell_text text.now) result }
{
    let size = text_size(text);
    if size > LONGEST_BLOCK as u128 {
        return Err(SpliceErr::Size);
    }
    Ok(spelled(alloc, text, size as usize)?)
}
