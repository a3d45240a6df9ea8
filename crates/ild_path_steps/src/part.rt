//! The parts of a value, by the form of its type.
ghost use Rattle.std.specs.Prelude.{◌<◌, Some, length};
ghost use Rattle.ild_path_steps.specs.Steps.{LiftsPart, LeadsPart};

use crate::any::{any_steps, item_steps};
use crate::map::map_steps;
use crate::steps::PartSteps;
use crate::structs::struct_steps;
use crate::union::union_steps;
use ild_cbor::Piece;
use ild_schema::{Accepted, Slot, TypeDef};

/// The steps to the part to which a segment leads, in a value of a slot that stands as a piece of a block: there are some where
/// there is the part, unless a block leaves it out.
pub fn steps_to<'a>(
    acc: &'a Accepted,
    slot: Slot,
    piece: &Piece<'a>,
    segment: &'a str,
) -> Option<PartSteps<'a>>
    requires { slot.ty.0 < length acc.now }
    ensures lifts { LiftsPart acc.now slot piece.now segment.now result }
    ensures leads { LeadsPart acc.now slot piece.now segment.now result }
{
    acc.recall();
    let base = acc.base(slot.ty);
    match acc.def(base) {
        TypeDef::Any => any_steps(piece, segment),
        TypeDef::List { .. } => item_steps(segment),
        TypeDef::Map { form, .. } => map_steps(form, piece, segment),
        TypeDef::Struct(def) => match acc.part_named(base, segment) {
            Some(number) => struct_steps(def, number, piece),
            None => None,
        },
        TypeDef::Union(def) => match acc.part_named(base, segment) {
            Some(number) => union_steps(def, number),
            None => None,
        },
        _ => None,
    }
}
