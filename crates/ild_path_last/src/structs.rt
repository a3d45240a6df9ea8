//! The fields of structs.
ghost use Rattle.std.specs.Prelude.{◌≡◌, ◌<◌, List, Option, is_some, length, slice_get};
ghost use Rattle.ild_data.specs.Data as T;
ghost use Rattle.ild_data.specs.Data.{Data};
ghost use Rattle.ild_path_last.specs.Change.{ChangesField, NewIs};
ghost use Rattle.ild_layer_piece.specs.Pieces.{IsNumbered, StandsFor};
ghost use Rattle.ild_schema.specs.declared.row.Row.{Row};

use crate::between::item_change;
use crate::change::LastChange;
use crate::keys::key_change;
use crate::new::{is_there, is_written};
use crate::seat::field_pair_change;
use ild_cbor::{Node, Piece};
use ild_schema::{Accepted, StructDef, StructForm, text_of_field};

// Whether a list has an item at a place.
fn has_item(piece: &Piece<'_>, place: u64) -> bool
    ensures { (rows : List Row) (ds : List Data) → StandsFor rows piece.now (T.list (T.items_of ds)) → result ≡ is_some (slice_get ds place) }
{
    match piece {
        Piece::Node(node) => match node.item(place) {
            Some(_) => true,
            None => false,
        },
        Piece::Text(_) | Piece::Bytes(_) | Piece::Inline(_, _) => false,
    }
}

/// The change of the field with a number, which becomes a new part or goes. A struct that stands as a text is replaced.
pub(crate) fn struct_change<'a>(
    acc: &Accepted,
    def: &'a StructDef,
    number: usize,
    piece: &Piece<'_>,
    new: Option<Node<'_>>,
) -> LastChange<'a>
    requires numbered { IsNumbered acc.now piece.now }
    requires within { number < length def.now.fields }
    ensures { ChangesField (StandsFor acc.now piece.now) (NewIs new.entry) def.now number result }
{
    let fields = def.fields.as_slice();
    let field = &fields[number];
    match &def.form {
        StructForm::Map => key_change(acc, piece, text_of_field(field), is_written(field, new)),
        StructForm::Tuple => item_change(
            number as u64,
            has_item(piece, number as u64),
            is_there(new),
        ),
        StructForm::ListPairs => field_pair_change(piece, fields, number, is_written(field, new)),
        StructForm::StringPairs(_, _) | StructForm::StringJoin(_) => LastChange::Whole,
    }
}
