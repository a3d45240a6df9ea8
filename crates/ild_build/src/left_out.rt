//! Fields that are left out of a block, since they have the value that stands for them.
ghost use Rattle.std.specs.Prelude.{◌≡◌, List, Some, true, false};
ghost use Rattle.ild_data.specs.Data.{Data};
ghost use Rattle.ild_schema.specs.Fitting.{ImplicitFits};
ghost use Rattle.ild_schema.specs.ValueSeen.{value_of};
ghost use Rattle.ild_schema.specs.declared.row.Row.{Row};
ghost use Rattle.ild_build.specs.LeftOut.{is_left_out};

use ild_schema::{Field, Scalar, Val};

/// Whether the value is the one that stands for the field where it is left out.
#[inline(always)]
pub fn is_left_out(field: &Field, val: &Val) -> bool
    ensures { result ≡ is_left_out field.now.implicit (value_of val.now) }
{
    match (&field.implicit, val) {
        (Some(Scalar::Bool(implicit)), Val::Bool(b)) => *implicit == *b,
        (Some(Scalar::Int(implicit)), Val::Int(n)) => implicit.get() == n.get(),
        (Some(Scalar::Text(implicit)), Val::Text(text)) => implicit.as_str() == text.as_str(),
        _ => false,
    }
}
