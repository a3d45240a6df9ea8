//! What a value is refused for as a whole.
ghost use Rattle.std.specs.Prelude.{◌<◌, IfOk, length};
ghost use Rattle.ild_schema.specs.ValueSeen.{value_of};
ghost use Rattle.ild_typed.specs.Typed.{Typed};
ghost use Rattle.ild_build.specs.IsJudged.{IsJudged};

use crate::hole::has_hole;
use crate::joined::breaks_delimiter;
use crate::room::fits;
use ild_schema::{Accepted, Slot, Val};
use std::alloc::{AllocError, Global};

/// Why no store holds a value, in the order in which it is asked.
#[derive(Clone, Copy, Debug, PartialEq, Eq)]
pub enum Judged {
    /// A tuple has an absent field before a present one.
    Hole,
    /// A delimiter stands elsewhere than at the joints of its text.
    Delimiter,
    /// The value nests too many levels.
    Depth,
}

/// The first cause that a typed value has anywhere, or `None` where it has none and nests at most so many levels, its keys
/// counted as values of their type.
pub fn judge(
    alloc: Global,
    acc: &Accepted,
    slot: Slot,
    val: &Val,
    room: u32,
) -> Result<Option<Judged>, AllocError>
    requires within { slot.ty.0 < length acc.now }
    requires typed { Typed acc.now slot (value_of val.now) }
    ensures { IfOk result (IsJudged acc.now room slot (value_of val.now)) }
{
    if has_hole(acc, slot, val) {
        return Ok(Some(Judged::Hole));
    }
    let mut buffer = String::new(alloc);
    if breaks_delimiter(acc, slot, val, &mut buffer)? {
        return Ok(Some(Judged::Delimiter));
    }
    let fit = fits(alloc, acc, slot, val, room)?;
    if !fit {
        return Ok(Some(Judged::Depth));
    }
    Ok(None)
}
