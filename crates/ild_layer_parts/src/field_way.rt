//! Where the field stands that is the next to be handed out.
ghost use Rattle.std.specs.Prelude.{◌≡◌, ◌<◌, ◌≤◌, List, Option, Some, length, slice_get};
ghost use Rattle.ild_data.specs.Data.{Data};
ghost use Rattle.ild_layer_places.specs.Places.{steps_of};
ghost use Rattle.ild_schema.specs.declared.def.Field.{Field as Schema};
ghost use Rattle.ild_schema.specs.declared.row.Row.{Row};
ghost use Rattle.ild_struct.specs.Parts.{IsFieldPart};
ghost use Rattle.ild_typed.specs.Spots.{Spot, field_steps};
ghost use Rattle.ild_layer_parts.specs.Fields.{HasFields, count_there, is_there, written_in};
ghost use Rattle.ild_layer_parts.specs.Ways.{LeadsWay};

use crate::fields::Fields;
use ild_layer_places::Way;
use ild_schema::{Field, StructForm, text_of_field};
use ild_struct::Part as Held;

// Whether a field stands in the data.
fn is_written(held: &Held<'_>) -> bool
    ensures { (rows : List Row) (f : Schema) (o : Option Data) → IsFieldPart rows f o held.now → result ≡ is_there f o }
{
    match held {
        Held::Absent | Held::Implicit => false,
        Held::Null(_) | Held::Held(_) => true,
    }
}

// One where a field stands in the data, else none.
fn count(held: &Held<'_>) -> usize
    ensures there { (rows : List Row) (f : Schema) (o : Option Data) → IsFieldPart rows f o held.now → result ≡ count_there f o }
    ensures most { result ≤ 1 }
{
    if is_written(held) { 1 } else { 0 }
}

// Where a field that is written stands, behind so many.
fn way_in<'b>(form: &StructForm, field: &'b Field, before: u64) -> Way<'b>
    ensures { steps_of result ≡ field_steps form.now field.now before }
{
    match form {
        StructForm::Map => Way::Under(text_of_field(field)),
        StructForm::Tuple => Way::Item(before),
        StructForm::ListPairs => Way::Within(before, 1),
        StructForm::StringPairs(_, _) | StructForm::StringJoin(_) => Way::Here,
    }
}

impl<'b> Fields<'b> {
    // How many of the fields before the first that is left are written.
    fn written_before(&self) -> usize
        requires { self.now.next < length self.now.def.now.fields }
        ensures { (rows : List Row) (ps : List Spot) (h : HasFields rows self.now ps) → result ≡ written_in self.now.next self.now.def.now.fields h.held }
    {
        let mut written: usize = 0;
        let mut i: usize = 0;
        while i < self.next {
            let held = self.parts.field(i);
            written += count(&held);
            i += 1;
        }
        written
    }

    /// Where the first field that is left stands. It is looked for once it is asked, since only a refusal tells it.
    pub(crate) fn way(&self) -> Way<'b>
        ensures { (rows : List Row) (ps : List Spot) (h : HasFields rows self.now ps) (d : Data) → slice_get h.held self.now.next ≡ Some (Some d) → LeadsWay result ps }
    {
        if self.next >= self.def.fields.len() {
            return Way::Here;
        }
        let field = &self.def.fields.as_slice()[self.next];
        let held = self.parts.field(self.next);
        if is_written(&held) {
            way_in(&self.def.form, field, self.written_before() as u64)
        } else {
            Way::Here
        }
    }
}
