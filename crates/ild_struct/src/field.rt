//! The parts that stand for fields.
ghost use Rattle.std.specs.Prelude.{◌≡◌, ◌<◌, ℕ, List, Option, None, Some, false, length, option_map};
ghost use Rattle.ild_data.specs.Data.{Data, text};
ghost use Rattle.ild_cbor.specs.Nodes.{HasData};
ghost use Rattle.ild_schema.specs.declared.def.Field.{Field as Schema};
ghost use Rattle.ild_schema.specs.declared.row.Row.{Row};
ghost use Rattle.ild_struct.specs.Parts.{ArePartsOf, HasNumber, IsFieldOf, IsFieldPart, fields_of};
ghost use Rattle.ild_layer_piece.specs.Entries.{Found};
ghost use Rattle.ild_typed.specs.Fields.{is_implicit};
ghost use Rattle.ild_struct.specs.inside.Reading.{IsLookedUp, shown};

use crate::pairs::pair_value;
use crate::part::Part;
use crate::parts::StructParts;
use crate::source::Source;
use crate::texts::text_value;
use ild_cbor::{Kind, Node, Piece};
use ild_layer_piece::entry;
use ild_schema::{Field, text_of_field};

// A part that is written.
fn held(node: Node<'_>) -> Part<'_>
    ensures held { (rows : List Row) (field : Schema) (d : Data) → HasData node.entry d → is_implicit field.implicit d ≡ false → IsFieldPart rows field (Some d) result }
    ensures numbered { (rows : List Row) → HasNumber rows result }
{
    if node.kind() == Kind::Null {
        Part::Null(node)
    } else {
        Part::Held(Piece::Node(node))
    }
}

// The part of a field of which nothing is written.
fn left_out<'b>(field: &Field) -> Part<'b>
    ensures part { (rows : List Row) (o : Option Data) → IsLookedUp field.now o → shown field.now o ≡ None → IsFieldPart rows field.now o result }
    ensures numbered { (rows : List Row) → HasNumber rows result }
{
    match field.implicit {
        Some(_) => Part::Implicit,
        None => Part::Absent,
    }
}

// The part of a field that was looked up by its name.
fn keyed<'b>(field: &Field, found: Option<Node<'b>>) -> Part<'b>
    ensures part { (rows : List Row) (o : Option Data) → IsLookedUp field.now o → Found (shown field.now o) found.entry → IsFieldPart rows field.now o result }
    ensures numbered { (rows : List Row) → HasNumber rows result }
{
    match found {
        Some(node) => held(node),
        None => left_out(field),
    }
}

// The part of a field that was looked up by its place.
fn placed(found: Option<Node<'_>>) -> Part<'_>
    ensures part { (rows : List Row) (field : Schema) (o : Option Data) → field.implicit ≡ None → Found o found.entry → IsFieldPart rows field o result }
    ensures numbered { (rows : List Row) → HasNumber rows result }
{
    match found {
        Some(node) => held(node),
        None => Part::Absent,
    }
}

// The part of a field that was looked up by its name among texts.
fn keyed_text<'b>(field: &Field, found: Option<&'b str>) -> Part<'b>
    ensures part { (rows : List Row) (o : Option Data) → IsLookedUp field.now o → shown field.now o ≡ option_map (λ s. text s.now) found.entry → IsFieldPart rows field.now o result }
    ensures numbered { (rows : List Row) → HasNumber rows result }
{
    match found {
        Some(text) => Part::Held(Piece::Text(text)),
        None => left_out(field),
    }
}

// The part of a field that was looked up by its place among texts.
fn placed_text(found: Option<&str>) -> Part<'_>
    ensures part { (rows : List Row) (field : Schema) (o : Option Data) → field.implicit ≡ None → o ≡ option_map (λ s. text s.now) found.entry → IsFieldPart rows field o result }
    ensures numbered { (rows : List Row) → HasNumber rows result }
{
    match found {
        Some(text) => Part::Held(Piece::Text(text)),
        None => Part::Absent,
    }
}

impl<'b> StructParts<'b> {
    /// What stands for the field with a number.
    pub fn field(&self, i: usize) -> Part<'b>
        requires { i < length (fields_of self.now) }
        ensures part { (rows : List Row) (ty : ℕ) (t : Data) (os : List (Option Data)) → ArePartsOf rows ty t os self.now → IsFieldOf rows (fields_of self.now) os i result }
        ensures numbered { (rows : List Row) → HasNumber rows result }
    {
        self.fields.acc.recall();
        let field = &self.fields.def.fields.as_slice()[i];
        match &self.source {
            Source::Map(piece) => keyed(field, entry(self.fields.acc, piece, text_of_field(field))),
            Source::Tuple(node) => placed(node.item(i as u64)),
            Source::ListPairs(items) => keyed(field, pair_value(*items, text_of_field(field))),
            Source::StringPairs(split) => {
                keyed_text(field, text_value(*split, text_of_field(field)))
            }
            Source::StringJoin(split) => placed_text(split.get(i)),
        }
    }
}
