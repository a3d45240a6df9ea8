//! Where the copies of a table end. Each copy is followed once: what lies on a way that was gone keeps its end.
ghost use Rattle.std.specs.Prelude.{◌≡◌, ◌<◌, ℕ, length, IfOk};
ghost use Rattle.ild_schema.specs.Copies.{base};
ghost use Rattle.ild_schema.specs.Ends.{AreEnds, HasEnds, IsEnded};
ghost use Rattle.ild_schema.specs.Table.{IsTable};

use crate::{Row, TypeDef, TypeNo};
use std::alloc::{AllocError, Global};

/// The type to which a type leads: a way that was gone is not gone again.
fn end_from(rows: &[Row], ends: &[Option<TypeNo>], from: TypeNo) -> TypeNo
    requires table { IsTable rows.now }
    requires ends { AreEnds rows.now ends.now }
    requires within { from.0 < length rows.now }
    ensures same { result.0 ≡ base rows.now from.0 }
{
    let mut at = from;
    for _ in 0..rows.len() {
        if let Some(end) = ends[at.0 as usize] {
            return end;
        }
        match &rows[at.0 as usize].def {
            TypeDef::Copy(target) => at = *target,
            _ => return at,
        }
    }
    at
}

/// Keeps the end of each copy on the way from a type.
fn keep_end(rows: &[Row], ends: &mut [Option<TypeNo>], from: TypeNo, end: TypeNo)
    requires table { IsTable rows.now }
    requires ends { AreEnds rows.now ends.old }
    requires within { from.0 < length rows.now }
    requires end { end.0 ≡ base rows.now from.0 }
    ensures ends { AreEnds rows.now ends.new }
    ensures here { IsEnded rows.now ends.new from.0 }
    ensures stays { (n : ℕ) → IsEnded rows.now ends.old n → IsEnded rows.now ends.new n }
{
    let mut at = from;
    for _ in 0..rows.len() {
        if ends[at.0 as usize].is_some() {
            return;
        }
        match &rows[at.0 as usize].def {
            TypeDef::Copy(target) => {
                ends[at.0 as usize] = Some(end);
                at = *target;
            }
            _ => return,
        }
    }
}

/// For each copy of a table the type to which it leads, and `None` for each other type.
pub(crate) fn ends_of(alloc: Global, rows: &[Row]) -> Result<Vec<Option<TypeNo>>, AllocError>
    requires { IsTable rows.now }
    ensures { IfOk result (λ ends. HasEnds rows.now ends.items) }
{
    let mut ends = vec![in alloc; None; rows.len()]?;
    for n in 0..rows.len() {
        let ty = TypeNo(n as u32);
        let end = end_from(rows, &ends, ty);
        keep_end(rows, &mut ends, ty, end);
    }
    Ok(ends)
}
