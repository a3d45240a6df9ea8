//! Members that stand behind a prefix, of a text or of bytes.
ghost use Rattle.std.specs.Prelude.{◌++◌};
ghost use Rattle.ild_cbor.specs.Nodes.{HasData};
ghost use Rattle.ild_data.specs.Data.{Data};
ghost use Rattle.ild_data.specs.Spell.{spell_bytes, spell_text};
ghost use Rattle.ild_path_marked.specs.inside.Parts.{behind_hex, hex_bytes};
ghost use Rattle.ild_path_marked.specs.Tells.{Tells, Writes};
ghost use Rattle.ild_schema.specs.declared.def.UnionForm.TheVariants as F;
ghost use Rattle.ild_typed.specs.Composed.{marked_form};

use crate::hex::hex_count;
use crate::part::Part;
use crate::write::made;
use ild_cbor::Node;
use ild_data::{Octets, is_hex};
use ild_splice::SpliceErr;
use std::alloc::Global;

// The text that a prefix and another text are together.
fn text_of<'b>(alloc: Global, prefix: &'b str, rest: &'b str) -> Result<Option<Octets>, SpliceErr>
    ensures { Writes (spell_text (prefix.now ++ rest.now)) result }
{
    let (front, back) = (prefix.as_bytes(), rest.as_bytes());
    let Some(size) = (front.len() as u64).checked_add(back.len() as u64) else {
        return Err(SpliceErr::Size);
    };
    made(
        alloc,
        &[
            Part::TextHead(size),
            Part::Spelled(front),
            Part::Spelled(back),
        ],
    )
}

/// The prefix, and the text of the member behind it.
pub(crate) fn behind_text(
    alloc: Global,
    name: &str,
    part: &Node<'_>,
) -> Result<Option<Octets>, SpliceErr>
    ensures { (d : Data) → HasData part.now d → Tells (marked_form F.StringPrefix d name.now) result }
{
    match part.text() {
        Some(text) => text_of(alloc, name, text),
        None => Ok(None),
    }
}

// The byte string of a prefix in hexadecimal and of other bytes behind it.
fn bytes_of(alloc: Global, prefix: &[u8], rest: &[u8]) -> Result<Option<Octets>, SpliceErr>
    ensures { Writes (spell_bytes (hex_bytes prefix.now ++ rest.now)) result }
{
    let Some(size) = (hex_count(prefix) as u64).checked_add(rest.len() as u64) else {
        return Err(SpliceErr::Size);
    };
    made(
        alloc,
        &[
            Part::BytesHead(size),
            Part::Hex(prefix),
            Part::Spelled(rest),
        ],
    )
}

// The same, where the prefix is one in hexadecimal.
fn behind_hex(alloc: Global, name: &str, rest: &[u8]) -> Result<Option<Octets>, SpliceErr>
    ensures { Tells (behind_hex name.now rest.now) result }
{
    let prefix = name.as_bytes();
    if is_hex(prefix) {
        bytes_of(alloc, prefix, rest)
    } else {
        Ok(None)
    }
}

/// The prefix, which is written in hexadecimal, and the bytes of the member behind it.
pub(crate) fn behind_bytes(
    alloc: Global,
    name: &str,
    part: &Node<'_>,
) -> Result<Option<Octets>, SpliceErr>
    ensures { (d : Data) → HasData part.now d → Tells (marked_form F.BytesPrefix d name.now) result }
{
    match part.bytes() {
        Some(bytes) => behind_hex(alloc, name, bytes),
        None => Ok(None),
    }
}
