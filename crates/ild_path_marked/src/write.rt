//! Writing a new item.
ghost use Rattle.std.specs.Prelude.{◌≡◌, ◌++◌, IfOk, OnOk};
ghost use Rattle.ild_path_marked.specs.inside.Parts.{bytes_of, part_bytes};
ghost use Rattle.ild_path_marked.specs.Tells.{Writes};

use crate::hex::add_hex;
use crate::part::Part;
use crate::size::size_of;
use ild_data::{LONGEST_BLOCK, Octets};
use ild_emit::Emit;
use ild_splice::SpliceErr;
use std::alloc::{AllocError, Global};

fn add_part(out: &mut Emit, part: Part<'_, '_>) -> Result<(), AllocError>
    ensures { OnOk result (out.new ≡ out.old ++ part_bytes part.entry) }
{
    match part {
        Part::Map(n) => out.head(5, n),
        Part::TextHead(n) => out.head(3, n),
        Part::BytesHead(n) => out.head(2, n),
        Part::Text(text) => out.text(text),
        Part::Hex(text) => add_hex(out, text),
        Part::Spelled(bytes) => out.spelled(bytes),
    }
}

// The parts one behind the other, made with their room at once.
fn joined(alloc: Global, parts: &[Part<'_, '_>], room: usize) -> Result<Octets, AllocError>
    ensures { IfOk result (λ b. b ≡ bytes_of parts.now) }
{
    let mut out = Emit::with_room(alloc, room)?;
    for part in parts {
        add_part(&mut out, *part)?;
    }
    Ok(out.finish())
}

/// The item of these parts, where they are no longer than a block may be.
pub(crate) fn made(alloc: Global, parts: &[Part<'_, '_>]) -> Result<Option<Octets>, SpliceErr>
    ensures { Writes (bytes_of parts.now) result }
{
    let size = size_of(parts);
    if size > LONGEST_BLOCK as u128 {
        return Err(SpliceErr::Size);
    }
    let bytes = joined(alloc, parts, size as usize)?;
    Ok(Some(bytes))
}
