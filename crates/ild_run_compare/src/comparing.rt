//! Two types are compared, and the line is written that tells the answer.
ghost use Rattle.std.specs.Prelude.{◌≡◌, ◌<◌, length};
ghost use Rattle.ild_schema.specs.Slots.{plainly};
ghost use Rattle.ild_run_compare.specs.Compared.{ComparedAs, Tells, compared_text};

use crate::CompareFault;
use ild_compat::{Differ, compat};
use ild_edges::Sink;
use ild_schema::{Accepted, Slot, TypeNo};
use ild_script_session::write;
use std::alloc::Global;

/// A value of a type, never null.
fn plainly(ty: TypeNo) -> Slot
    ensures { result ≡ plainly ty }
{
    Slot {
        ty,
        nullable: false,
    }
}

fn write_text<W: Sink>(out: &mut W, text: &[u8]) -> Result<(), CompareFault>
    ensures { Tells text.now (W.output out.old) result (W.output out.new) }
{
    match write(out, text) {
        Ok(()) => Ok(()),
        Err(cut) => Err(CompareFault::Cut(cut)),
    }
}

/// Writes the line of an answer. Where the types are compatible, it takes no memory.
fn tell<W: Sink>(alloc: Global, found: Option<Differ>, out: &mut W) -> Result<(), CompareFault>
    ensures { Tells (compared_text found) (W.output out.old) result (W.output out.new) }
{
    match found {
        None => write_text(out, b"ok true\n"),
        Some(differ) => match differ.line(alloc) {
            Ok(line) => write_text(out, line.as_slice()),
            Err(_) => Err(CompareFault::Memory),
        },
    }
}

/// Compares a type of a schema with one of a later schema, writes the line that tells the answer, and says whether they are compatible.
///
/// They are where all that stands as a value of the first type stands, in the same blocks, as one of the other with the same shown form:
/// then the line is `ok true`. Else it is `differ N NAME at A B`: of the types with these numbers, to which the comparison leads, the rule
/// with this number and name fails.
pub fn compare<W: Sink>(
    alloc: Global,
    first: &Accepted,
    a: TypeNo,
    next: &Accepted,
    b: TypeNo,
    out: &mut W,
) -> Result<bool, CompareFault>
    requires first { a.0 < length first.now }
    requires next { b.0 < length next.now }
    ensures { ComparedAs first.now next.now a b (W.output out.old) result (W.output out.new) }
{
    let found = match compat(alloc, first, plainly(a), next, plainly(b)) {
        Ok(found) => found,
        Err(_) => return Err(CompareFault::Memory),
    };
    tell(alloc, found, out)?;
    Ok(found.is_none())
}
