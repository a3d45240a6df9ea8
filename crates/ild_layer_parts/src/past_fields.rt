//! The fields of a struct behind the first ones that are leaves.
ghost use Rattle.std.specs.Prelude.{◌≡◌, ◌<◌, ◌≤◌, List, length, true};
ghost use Rattle.ild_data.specs.Data.{Data};
ghost use Rattle.ild_layer_piece.specs.Pieces.{StandsFor};
ghost use Rattle.ild_struct.specs.Parts.{is_told};
ghost use Rattle.ild_typed.specs.Spots.{Spot};
ghost use Rattle.ild_layer_parts.specs.Fields.{HasFields};
ghost use Rattle.ild_layer_parts.specs.inside.Leaf.{IsFitAt, PassesOver};
ghost use Rattle.ild_layer_parts.specs.Ready.{AreIn};

use crate::fields::Fields;
use crate::leaf::is_leaf;
use ild_cbor::Piece;
use ild_schema::{Accepted, StructDef};

// The least number so far of a field that is no leaf, or how many fields there are.
fn least(acc: &Accepted, def: &StructDef, so_far: usize, i: usize, piece: &Piece<'_>) -> usize
    requires within { so_far ≤ length def.now.fields }
    requires low { AreIn acc.now def.now.fields }
    ensures less { result ≤ so_far }
    ensures fits { i < result → (t : Data) → StandsFor acc.now piece.now t → IsFitAt acc.now def.now.fields i t }
{
    if i >= so_far {
        return so_far;
    }
    let fields = def.fields.as_slice();
    let field = &fields[i];
    if is_leaf(acc, field.slot, piece) {
        so_far
    } else {
        i
    }
}

// What is left of the fields where all that are written are leaves: none.
fn past_all<'b>(acc: &'b Accepted, fields: Fields<'b>) -> Fields<'b>
    requires low { AreIn acc.now fields.def.now.fields }
    requires begun { fields.next ≡ 0 }
    requires told { is_told fields.parts ≡ true }
    ensures passes { (ps : List Spot) → HasFields acc.now fields.entry ps → PassesOver acc.now ps (HasFields acc.now result) }
    ensures def { result.def.now ≡ fields.entry.def.now }
{
    acc.recall();
    Fields {
        def: fields.def,
        parts: fields.parts,
        next: fields.def.fields.len(),
    }
}

/// The fields from the first one on that is written and no leaf.
pub(crate) fn past_fields<'b>(acc: &'b Accepted, fields: Fields<'b>) -> Fields<'b>
    requires { AreIn acc.now fields.def.now.fields }
    ensures passes { (ps : List Spot) → HasFields acc.now fields.entry ps → PassesOver acc.now ps (HasFields acc.now result) }
    ensures def { result.def.now ≡ fields.entry.def.now }
{
    if fields.next > 0 {
        return fields;
    }
    if fields.parts.are_told() {
        return past_all(acc, fields);
    }
    let mut first = fields.def.fields.len();
    let mut present = fields.parts.present();
    while let Some((i, piece)) = present.next() {
        first = least(acc, fields.def, first, i, &piece);
    }
    Fields {
        def: fields.def,
        parts: fields.parts,
        next: first,
    }
}
