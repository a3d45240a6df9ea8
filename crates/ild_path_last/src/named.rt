//! Parts with names: fields, members, and the entries of maps.
ghost use Rattle.std.specs.Prelude.{◌<◌, length};
ghost use Rattle.ild_path_last.specs.Change.{ChangesNamed, NewIs};
ghost use Rattle.ild_layer_piece.specs.Pieces.{IsNumbered, StandsFor};

use crate::change::LastChange;
use crate::keys::key_change;
use crate::map::map_change;
use crate::new::is_there;
use crate::structs::struct_change;
use ild_cbor::{Node, Piece};
use ild_schema::{Accepted, Slot, TypeDef};

/// The change of the part with a name, which becomes a new part or goes. A union is replaced.
pub(crate) fn named_change<'a>(
    acc: &'a Accepted,
    slot: Slot,
    piece: &Piece<'_>,
    segment: &'a str,
    new: Option<Node<'_>>,
) -> LastChange<'a>
    requires within { slot.ty.0 < length acc.now }
    requires numbered { IsNumbered acc.now piece.now }
    ensures { ChangesNamed acc.now (StandsFor acc.now piece.now) (NewIs new.entry) slot segment.now result }
{
    acc.recall();
    let base = acc.base(slot.ty);
    match acc.def(base) {
        TypeDef::Any => key_change(acc, piece, segment, is_there(new)),
        TypeDef::Map { form, .. } => map_change(acc, form, piece, segment, is_there(new)),
        TypeDef::Struct(def) => match acc.part_named(base, segment) {
            Some(number) => struct_change(acc, def, number, piece, new),
            None => LastChange::Nothing,
        },
        TypeDef::Union(_) => LastChange::Whole,
        _ => LastChange::Nothing,
    }
}
