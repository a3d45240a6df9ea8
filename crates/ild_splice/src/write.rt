//! Writing a changed block.
ghost use Rattle.std.specs.Prelude.{◌≡◌, ◌++◌, IfOk, OnOk};
ghost use Rattle.ild_splice.specs.Made.{MakesBytes, bytes_of, head_bytes, lead_bytes};

use crate::error::SpliceErr;
use crate::piece::{Lead, NewHead, Pieces};
use crate::size::size_of;
use ild_data::{LONGEST_BLOCK, Octets};
use ild_emit::Emit;
use std::alloc::{AllocError, Global};

fn add_head(out: &mut Emit, head: NewHead) -> Result<(), AllocError>
    ensures { OnOk result (out.new ≡ out.old ++ head_bytes head) }
{
    match head {
        NewHead::Same => Ok(()),
        NewHead::List(n) => out.head(4, n),
        NewHead::Map(n) => out.head(5, n),
    }
}

fn add_lead(out: &mut Emit, lead: Lead<'_>) -> Result<(), AllocError>
    ensures { OnOk result (out.new ≡ out.old ++ lead_bytes lead.entry) }
{
    match lead {
        Lead::Nothing => Ok(()),
        Lead::Key(key) => out.text(key),
        Lead::Pair(key) => {
            out.head(4, 2)?;
            out.text(key)
        }
    }
}

// Appends what stands in place of the item. An error may leave the front of it.
fn add_inner(out: &mut Emit, pieces: &Pieces<'_, '_, '_>) -> Result<(), AllocError>
    ensures { OnOk result (out.new ≡ out.old ++ head_bytes pieces.now.head ++ pieces.now.before.now ++ lead_bytes pieces.now.lead ++ pieces.now.new.now ++ pieces.now.after.now) }
{
    add_head(out, pieces.head)?;
    out.spelled(pieces.before)?;
    add_lead(out, pieces.lead)?;
    out.spelled(pieces.new)?;
    out.spelled(pieces.after)
}

// The pieces one behind the other, made with their room at once.
fn joined(alloc: Global, pieces: &Pieces<'_, '_, '_>, room: usize) -> Result<Octets, AllocError>
    ensures { IfOk result (λ b. b ≡ bytes_of pieces.now) }
{
    let mut out = Emit::with_room(alloc, room)?;
    out.spelled(pieces.front)?;
    add_inner(&mut out, pieces)?;
    out.spelled(pieces.behind)?;
    Ok(out.finish())
}

/// The block of these pieces, where they are no longer than a block may be.
pub(crate) fn made(alloc: Global, pieces: &Pieces<'_, '_, '_>) -> Result<Octets, SpliceErr>
    ensures { MakesBytes (bytes_of pieces.now) result }
{
    let size = size_of(pieces);
    if size > LONGEST_BLOCK as u128 {
        return Err(SpliceErr::Size);
    }
    Ok(joined(alloc, pieces, size as usize)?)
}
