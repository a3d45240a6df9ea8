//! What stands for a field: a piece, or nothing.
ghost use Rattle.std.specs.Prelude.{◌≡◌, IfSome, MatchOption, [], false, true};
ghost use Rattle.ild_struct.specs.Parts.{HasNumber};
ghost use Rattle.ild_union.specs.Forms.{passes_over};
ghost use Rattle.ild_open_parts.specs.Checked.{IsHandedOut, is_out};
ghost use Rattle.ild_open_parts.specs.Fields.{LeftOut, StandsThere};

use crate::fault::OpenFault;
use crate::keeping::implied;
use ild_cbor::Piece;
use ild_schema::{Field, Val};
use ild_struct::Part;

/// The piece that stands for a field, and nothing where none does.
pub fn part_piece<'b>(part: &Part<'b>) -> Option<Piece<'b>>
    ensures stands { MatchOption result (is_out part.now ≡ true) (StandsThere part.now) }
    ensures free { HasNumber [] part.now → IfSome result (λ p. passes_over p ≡ false) }
{
    match part {
        Part::Null(node) => Some(Piece::Node(*node)),
        Part::Held(piece) => Some(*piece),
        Part::Absent | Part::Implicit => None,
    }
}

/// The value of a field for which no piece stands, and nothing where it is absent.
pub fn left_out(field: &Field, part: &Part<'_>) -> Result<Option<Val>, OpenFault>
    requires out { is_out part.now ≡ true }
    requires handed { ∥ IsHandedOut field.now part.now ∥₁ }
    ensures { LeftOut field.now part.now result }
{
    match part {
        Part::Absent => Ok(None),
        Part::Implicit => Ok(Some(implied(field)?)),
        Part::Null(_) | Part::Held(_) => unreachable!(),
    }
}
