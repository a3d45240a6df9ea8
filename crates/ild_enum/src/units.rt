//! Whether a piece stands for a unit.
ghost use Rattle.std.specs.Prelude.{◌≡◌, ◌<◌, List, MatchResult, length};
ghost use Rattle.ild_data.specs.Data.{Data};
ghost use Rattle.ild_enum.specs.inside.Answers.{UnitAnswer, truth_form};
ghost use Rattle.ild_enum.specs.Forms.{IsUnitType};
ghost use Rattle.ild_layer_piece.specs.Answers.{Layered, Refused};
ghost use Rattle.ild_layer_piece.specs.Pieces.{IsNumbered, StandsFor};
ghost use Rattle.ild_schema.specs.declared.row.Row.{Row};
ghost use Rattle.ild_schema.specs.declared.def.UnitForm.TheVariants.{EmptyMap, Null};
ghost use Rattle.ild_typed.specs.Layer as L;

use ild_cbor::{Piece, Why};
use ild_layer_piece::{boolean, entries, is_null};
use ild_schema::{Accepted, TypeDef, TypeNo, UnitForm};

fn null(piece: &Piece<'_>) -> Result<(), Why>
    ensures { (rows : List Row) (t : Data) → StandsFor rows piece.now t → UnitAnswer Null t result }
{
    if is_null(piece) {
        Ok(())
    } else {
        Err(Why::Kind)
    }
}

fn truth(piece: &Piece<'_>, wanted: bool) -> Result<(), Why>
    ensures { (rows : List Row) (t : Data) → StandsFor rows piece.now t → UnitAnswer (truth_form wanted) t result }
{
    match boolean(piece) {
        Some(found) => {
            if found == wanted {
                Ok(())
            } else {
                Err(Why::Member)
            }
        }
        None => Err(Why::Kind),
    }
}

fn empty_map(acc: &Accepted, piece: &Piece<'_>) -> Result<(), Why>
    requires { IsNumbered acc.now piece.now }
    ensures { (t : Data) → StandsFor acc.now piece.now t → UnitAnswer EmptyMap t result }
{
    match entries(acc, piece) {
        Some(mut left) => match left.next() {
            None => Ok(()),
            Some(_) => Err(Why::Count),
        },
        None => Err(Why::Kind),
    }
}

fn of_form(acc: &Accepted, form: UnitForm, piece: &Piece<'_>) -> Result<(), Why>
    requires { IsNumbered acc.now piece.now }
    ensures { (t : Data) → StandsFor acc.now piece.now t → UnitAnswer form t result }
{
    match form {
        UnitForm::Null => null(piece),
        UnitForm::True => truth(piece, true),
        UnitForm::False => truth(piece, false),
        UnitForm::EmptyMap => empty_map(acc, piece),
    }
}

/// Whether a piece stands for the unit: null, a truth value, or the empty map. Else the first cause why it doesn't.
pub fn unit<'b>(acc: &'b Accepted, ty: TypeNo, piece: Piece<'b>) -> Result<(), Why>
    requires within { ty.0 < length acc.now }
    requires form { IsUnitType acc.now ty.0 }
    requires numbered { IsNumbered acc.now piece }
    ensures { (t : Data) → StandsFor acc.now piece.entry t → MatchResult result (λ u. Layered acc.now ty.0 t L.unit) (λ w. Refused acc.now ty.0 t w) }
{
    match acc.def(acc.base(ty)) {
        TypeDef::Unit(form) => of_form(acc, *form, &piece),
        _ => unreachable!(),
    }
}
