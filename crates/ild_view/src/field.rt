//! The fields of structs.
ghost use Rattle.std.specs.Prelude.{◌≡◌, ◌<◌, ◌↔◌, IfSome, List, None, Option, Some, [], length, true};
ghost use Rattle.std.specs.Option.{option_and_then};
ghost use Rattle.ild_data.specs.Data.{Data};
ghost use Rattle.ild_schema.specs.Fitting.{ImplicitFits};
ghost use Rattle.ild_schema.specs.Parts.{IsPartOf, part_named};
ghost use Rattle.ild_schema.specs.Table.{def_at};
ghost use Rattle.ild_schema.specs.Value.{Value};
ghost use Rattle.ild_schema.specs.declared.row.Row.{Row};
ghost use Rattle.ild_struct.specs.Parts.{HasNumber, IsFieldPart};
ghost use Rattle.ild_typed.specs.At.{seen};
ghost use Rattle.ild_typed.specs.Fields.{is_implicit};
ghost use Rattle.ild_view.specs.Body.{body_types, is_placed};
ghost use Rattle.ild_view.specs.Itself.{Embodies};
ghost use Rattle.ild_view.specs.View.{piece_in};

use crate::body::Body;
use crate::form::struct_in;
use crate::view::View;
use ild_cbor::Piece;
use ild_schema::{Accepted, Field, TypeNo};
use ild_struct::{Part, layer};

// What stands for a field, where it is present.
fn body_of<'b>(field: &'b Field, part: Part<'b>) -> Option<Body<'b>>
    ensures embodies { (rows : List Row) (o : Option Data) → IsFieldPart rows field.now o part.entry → Embodies rows o result }
    ensures left_out { (rows : List Row) (d : Data) → IsFieldPart rows field.now (Some d) part.entry → IfSome result (λ b. (piece_in b ≡ None) ↔ (is_implicit field.now.implicit d ≡ true)) }
    ensures free { HasNumber [] part.entry → IfSome result (λ b. body_types b ≡ 0) }
    ensures placed { HasNumber [] part.entry → (rows : List Row) → ImplicitFits rows field.now → IfSome result (λ b. is_placed rows field.now.slot b ≡ true) }
{
    match part {
        Part::Absent => None,
        Part::Implicit => match &field.implicit {
            Some(scalar) => Some(Body::Implicit(scalar)),
            None => None,
        },
        Part::Null(node) => Some(Body::Held(Piece::Node(node))),
        Part::Held(piece) => Some(Body::Held(piece)),
    }
}

// The number of the field that has a name, of a struct that is no copy.
fn number_of(acc: &Accepted, base: TypeNo, name: &str) -> Option<usize>
    requires { base.0 < length acc.now }
    ensures same { result ≡ option_and_then (part_named name.now) (def_at acc.now base.0) }
    ensures within { IfSome result (IsPartOf acc.now base.0) }
{
    acc.part_named(base, name)
}

impl<'b> View<'b> {
    ghost use Rattle.ild_view.specs.LeftOut.{TellsLeftOut};
    ghost use Rattle.ild_view.specs.Parts.{HandsOut, field_named};
    ghost use Rattle.ild_view.specs.View.{IsView, slot_of, table_of};

    /// The field of a struct that has a name, or `None` where it is absent, where no field has the name, and where the value is
    /// no struct. A field that the block leaves out since it has its implicit value is present: its view, and no other, is of no piece.
    pub fn field(&self, name: &str) -> Option<View<'b>>
        ensures part { (f : Value) → IsView self.now f → HandsOut (table_of self.now) (field_named (seen (table_of self.now) (slot_of self.now, f)) name.now) result }
        ensures left_out { (f : Value) → IsView self.now f → IfSome result (TellsLeftOut (table_of self.now) (slot_of self.now, f) name.now) }
    {
        self.acc.recall();
        if self.is_null_there() {
            return None;
        }
        match struct_in(self.def()) {
            Some(def) => match self.body {
                Body::Held(piece) => match number_of(self.acc, self.acc.base(self.slot.ty), name) {
                    Some(number) => match layer(self.acc, self.slot.ty, piece) {
                        Ok(parts) => {
                            let field = &def.fields.as_slice()[number];
                            match body_of(field, parts.field(number)) {
                                Some(body) => Some(self.placed(field.slot, body)),
                                None => None,
                            }
                        }
                        Err(_) => None,
                    },
                    None => None,
                },
                Body::Implicit(_) => None,
            },
            None => None,
        }
    }
}
