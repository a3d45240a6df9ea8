//! Parts of lists, and of what an Any holds.
ghost use Rattle.std.specs.Prelude.{◌≡◌, ◌<◌, ◌^◌, ℕ, List, Some};
ghost use Rattle.ild_data.specs.Data.{Data};
ghost use Rattle.ild_layer_piece.specs.Pieces.{StandsFor};
ghost use Rattle.ild_schema.specs.Prelude.{anything};
ghost use Rattle.ild_schema.specs.declared.row.Row.{Row};
ghost use Rattle.ild_path_steps.specs.Steps.{FoundLead, LiftsAlways};
ghost use Rattle.ild_path_steps.specs.declared.steps.PartSteps.TheVariants as P;
ghost use Rattle.ild_typed.specs.At.{InSlot};
ghost use Rattle.ild_typed.specs.Holder.{any_holder, of_any};
ghost use Rattle.ild_typed.specs.Segment.{index_of, part};

use crate::steps::PartSteps;
use ild_cbor::{Kind, Piece};
use ild_layer_piece::kind;
use ild_view::index;

/// The steps to the element to which a segment leads.
pub(crate) fn item_steps<'a>(segment: &'a str) -> Option<PartSteps<'a>>
    ensures { (i : ℕ) → index_of segment.now ≡ Some i → i < 2 ^ 64 → result ≡ Some (P.Item i) }
{
    match index(segment) {
        Some(i) => Some(PartSteps::Item(i)),
        None => None,
    }
}

/// The steps to the part of a list or a map inside an Any.
pub(crate) fn any_steps<'a>(piece: &Piece<'a>, segment: &'a str) -> Option<PartSteps<'a>>
    ensures lifts { (rows : List Row) (t : Data) (q : InSlot) → StandsFor rows piece.now t → part (any_holder t) segment.now ≡ Some q → LiftsAlways (any_holder t) segment.now result }
    ensures leads { (rows : List Row) (t d : Data) → StandsFor rows piece.now t → part (any_holder t) segment.now ≡ Some (anything, of_any d) → FoundLead result t d }
{
    match kind(piece) {
        Kind::Map => Some(PartSteps::Entry(segment)),
        Kind::List => item_steps(segment),
        Kind::Null | Kind::Bool | Kind::Int | Kind::Text | Kind::Bytes | Kind::Link => None,
    }
}
