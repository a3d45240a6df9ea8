//! The parts of a struct that are written.
ghost use Rattle.std.specs.Prelude.{◌≡◌, ◌<◌, ℕ, List, Option};
ghost use Rattle.ild_data.specs.Data.{Data};
ghost use Rattle.ild_schema.specs.declared.row.Row.{Row};
ghost use Rattle.ild_struct.specs.Parts.{ArePartsOf, fields_of, is_told};
ghost use Rattle.ild_struct.specs.Present.{IsWritten};
ghost use Rattle.ild_struct.specs.inside.Stepping.{Starts};

use crate::left::Left;
use crate::parts::StructParts;
use crate::present::Present;
use crate::source::Source;
use ild_layer_piece::entries;

impl<'b> StructParts<'b> {
    // All parts, of which none was taken.
    fn all(&self) -> Left<'b>
        ensures { (rows : List Row) (ty : ℕ) (t : Data) (os : List (Option Data)) → ArePartsOf rows ty t os self.now → Starts (fields_of self.now) os result }
    {
        self.fields.acc.recall();
        match &self.source {
            Source::Map(piece) => match entries(self.fields.acc, piece) {
                Some(entries) => Left::Map(entries, 0),
                None => Left::StringJoin(None),
            },
            Source::Tuple(node) => match node.items() {
                Some(items) => Left::Tuple(items),
                None => Left::StringJoin(None),
            },
            Source::ListPairs(items) => Left::ListPairs(*items),
            Source::StringPairs(split) => Left::StringPairs(*split),
            Source::StringJoin(split) => Left::StringJoin(Some(*split)),
        }
    }

    /// Whether a kind told of each part that is written that it is a value of its field, and no part has parts: so it may be, of a
    /// map, where all fields are scalars.
    pub fn are_told(&self) -> bool
        ensures { result ≡ is_told self.now }
    {
        self.told
    }

    /// The parts that are written, one after another, each with the number of its field: a pass over the data. Absent fields
    /// and implicit ones that are left out don't come.
    pub fn present(&self) -> Present<'b>
        ensures { (rows : List Row) (ty : ℕ) (t : Data) (os : List (Option Data)) → ArePartsOf rows ty t os self.now → IsWritten (fields_of self.now) os result }
    {
        Present {
            fields: self.fields,
            left: self.all(),
            next: 0,
        }
    }
}
