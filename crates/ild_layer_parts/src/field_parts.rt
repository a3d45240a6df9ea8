//! The fields of a struct as parts, one after another.
ghost use Rattle.std.specs.Prelude.{◌≡◌, ◌<◌, ℕ, List, Option, IfSome, Some, [], false};
ghost use Rattle.ild_data.specs.Data.{Data};
ghost use Rattle.ild_layer_piece.specs.Pieces.{StandsFor};
ghost use Rattle.ild_schema.specs.Kinds.{meant};
ghost use Rattle.ild_schema.specs.Legible.{IsLegible};
ghost use Rattle.ild_schema.specs.declared.def.Field.{Field as Schema};
ghost use Rattle.ild_schema.specs.declared.def.TypeDef.TheVariants as D;
ghost use Rattle.ild_schema.specs.declared.row.Row.{Row};
ghost use Rattle.ild_struct.specs.Parts.{HasNumber, HasParts, IsFieldPart, fields_of};
ghost use Rattle.ild_typed.specs.Spots.{Spot, field_spots};
ghost use Rattle.ild_union.specs.Forms.{passes_over};
ghost use Rattle.ild_layer_parts.specs.Fields.{Handed, HasFields, SplitsFields, fields_left};
ghost use Rattle.ild_layer_parts.specs.PassedOver.{IsWhole};
ghost use Rattle.ild_layer_parts.specs.Parts.{FieldLeads};
ghost use Rattle.ild_layer_parts.specs.Ready.{AreIn, AreReady, IsPartReady};
ghost use Rattle.ild_layer_parts.specs.declared.parts.Parts.TheVariants as P;

use crate::fields::Fields;
use crate::part::{Part, value_part};
use ild_cbor::Piece;
use ild_layer_places::Way;
use ild_schema::StructDef;
use ild_struct::{Part as Held, StructParts};

// The piece that stands for a field, where one does.
fn piece_of(held: Held<'_>) -> Option<Piece<'_>>
    ensures part { (rows : List Row) (f : Schema) (o : Option Data) → IsFieldPart rows f o held.entry → Handed rows f o result }
    ensures plain { HasNumber [] held.entry → IfSome result (λ p. passes_over p ≡ false) }
{
    match held {
        Held::Absent | Held::Implicit => None,
        Held::Null(node) => Some(Piece::Node(node)),
        Held::Held(piece) => Some(piece),
    }
}

impl<'b> Fields<'b> {
    /// The fields of a struct, from the first on.
    pub fn of(def: &'b StructDef, parts: StructParts<'b>) -> Fields<'b>
        requires { fields_of parts ≡ def.now.fields }
        ensures has { (rows : List Row) → IsLegible rows → (ty : ℕ) (t : Data) → meant rows ty ≡ Some (D.Struct def.now)
            → (h : HasParts rows ty t parts.entry) → HasFields rows result (field_spots def.now.form 0 def.now.fields h.0) }
        ensures ready { (rows : List Row) → AreIn rows def.now.fields → AreReady rows (P.Struct result) }
    {
        Fields {
            def,
            parts,
            next: 0,
        }
    }

    /// The first field, where a piece stands for it, and the fields behind it. The part doesn't tell its way: `way` does.
    pub(crate) fn split_first(&self) -> Option<(Option<Part<'b>>, Fields<'b>)>
        ensures step { (rows : List Row) (ps : List Spot) → HasFields rows self.now ps → SplitsFields rows ps result }
        ensures way { (rows : List Row) (ps : List Spot) → HasFields rows self.now ps → IfSome result (λ r. FieldLeads rows self.now r.0 ps) }
        ensures fewer { IfSome result (λ r. fields_left r.1 < fields_left self.now) }
        ensures ready { (rows : List Row) → AreIn rows self.now.def.now.fields → IfSome result (λ r. IsPartReady rows r.0 × AreIn rows r.1.def.now.fields) }
        ensures whole { IfSome result (λ r. IfSome r.0 (λ x. IsWhole x)) }
    {
        if self.next >= self.def.fields.len() {
            return None;
        }
        let field = &self.def.fields.as_slice()[self.next];
        let behind = Fields {
            def: self.def,
            parts: self.parts,
            next: self.next + 1,
        };
        let held = self.parts.field(self.next);
        match piece_of(held) {
            Some(piece) => Some((Some(value_part(field.slot, piece, Way::Here)), behind)),
            None => Some((None, behind)),
        }
    }
}
