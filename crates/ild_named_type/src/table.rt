//! The longer table.
ghost use Rattle.std.specs.Prelude.{◌≡◌, ◌<◌, ◌≤◌, length, IfOk};
ghost use Rattle.ild_named_type.specs.Root.{named_rows, root_type};

use crate::row::root_row;
use ild_schema::{Accepted, Schema, TypeNo};
use std::alloc::{AllocError, Global};

/// The schema with the struct of the roots over one of its types, and the number of that struct: its last.
pub fn named_schema(
    alloc: Global,
    acc: Accepted,
    ty: TypeNo,
) -> Result<(Accepted, TypeNo), AllocError>
    requires within { ty.0 < length acc }
    requires room { length acc ≤ 65543 }
    ensures table { IfOk result (λ made. made.0 ≡ named_rows acc ty) }
    ensures number { IfOk result (λ made. made.1 ≡ root_type acc) }
{
    // It says that the table is one for which no rule fails.
    acc.recall();
    let root = TypeNo(acc.types());
    let row = root_row(alloc, ty)?;
    let (mut rows, names) = acc.into_schema().into_rows();
    rows.push(row)?;
    let schema = Schema::with_names(alloc, rows, names)?;
    Ok((Accepted::of(schema), root))
}
