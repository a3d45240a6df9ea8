//! What is told of a piece that is refused.
ghost use Rattle.std.specs.Prelude.{◌≡◌, ℕ, List, []};
ghost use Rattle.ild_data.specs.Data as T;
ghost use Rattle.ild_data.specs.Data.{Data};
ghost use Rattle.ild_schema.specs.Slots.{plainly};
ghost use Rattle.ild_schema.specs.declared.row.Row.{Row};
ghost use Rattle.ild_cbor.specs.declared.piece.Piece.{Piece};
ghost use Rattle.ild_typed.specs.Schema.{IsSchema};
ghost use Rattle.ild_typed.specs.Spots.{Spot, key_spot};
ghost use Rattle.ild_view_walk.specs.Told.{IsPlacedBy, TellsPlaceIn};
ghost use Rattle.ild_view_walk.specs.Checks.{Faults, PartFaults, is_depth};
ghost use Rattle.ild_view_walk.specs.inside.Opens.{IsStopped};
ghost use Rattle.ild_layer_parts.specs.Part.{IsSpotted};

use crate::fault::ViewErr;
use crate::opening::Stop;
use ild_cbor::Why;
use ild_layer_parts::Part;
use ild_schema::{Slot, TypeNo};

fn is_depth(why: Why) -> bool
    ensures { result ≡ is_depth why }
{
    match why {
        Why::Depth => true,
        _ => false,
    }
}

/// The refusal of a piece by itself.
pub(crate) fn own_refusal(slot: Slot, stop: Stop) -> ViewErr
    ensures faults { (rows : List Row) (room : ℕ) (t : Data) → IsStopped rows room slot t stop → Faults rows room slot t result }
    ensures place { (rows : List Row) (room : ℕ) (t : Data) (y : Piece) → IsSchema rows → IsStopped rows room slot t stop → TellsPlaceIn rows room slot y t result }
{
    match stop {
        Stop::Why(why) => ViewErr::Shape {
            ty: slot.ty,
            why,
            at: 0,
        },
        Stop::Memory => ViewErr::Memory,
    }
}

/// The refusal of a key that stands alone, as that of its entry.
pub(crate) fn key_refusal(ty: TypeNo, fault: ViewErr) -> ViewErr
    ensures { (rows : List Row) (room : ℕ) (k : List ℕ) → Faults rows room (plainly ty) (T.text k) fault → PartFaults rows room (key_spot ty k []) result }
{
    match fault {
        ViewErr::Shape {
            ty: inside,
            why,
            at,
        } => {
            if is_depth(why) {
                return ViewErr::Shape {
                    ty: inside,
                    why,
                    at,
                };
            }
            ViewErr::Shape {
                ty,
                why: Why::Member,
                at,
            }
        }
        ViewErr::Memory => ViewErr::Memory,
    }
}

/// The refusal of a part, as that of the whole, where the part begins at a place. A key that is no text of its type is
/// refused as such; only too little room is told of it as of any piece.
pub(crate) fn part_refusal(part: &Part<'_>, place: usize, fault: ViewErr) -> ViewErr
    ensures faults { (rows : List Row) (room : ℕ) (p : Spot) → IsSpotted rows part.now p → Faults rows room p.slot p.tree fault → PartFaults rows room p result }
    ensures place { IsPlacedBy part.now place fault result }
{
    match fault {
        ViewErr::Shape { ty, why, at } => {
            if part.is_key && !is_depth(why) {
                ViewErr::Shape {
                    ty: part.slot.ty,
                    why: Why::Member,
                    at: place,
                }
            } else {
                ViewErr::Shape {
                    ty,
                    why,
                    at: place.saturating_add(at),
                }
            }
        }
        ViewErr::Memory => ViewErr::Memory,
    }
}
