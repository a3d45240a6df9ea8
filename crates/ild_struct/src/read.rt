//! The layer of a struct.
ghost use Rattle.std.specs.Prelude.{◌≡◌, ◌<◌, IfOk, IfErr, List, length, Some, true, false};
ghost use Rattle.ild_schema.specs.declared.def.Field.{Field};
ghost use Rattle.ild_schema.specs.declared.def.StructForm.{StructForm as Form};
ghost use Rattle.ild_schema.specs.declared.row.Row.{Row};
ghost use Rattle.ild_data.specs.Data.{Data};
ghost use Rattle.ild_layer_piece.specs.Answers.{Refused};
ghost use Rattle.ild_layer_piece.specs.Pieces.{IsNumbered, StandsFor};
ghost use Rattle.ild_schema.specs.Clear.{ClearStruct};
ghost use Rattle.ild_schema.specs.Delims.{HasDelims};
ghost use Rattle.ild_schema.specs.declared.def.StructDef.{StructDef as Struct};
ghost use Rattle.ild_struct.specs.Parts.{HasParts, IsStruct, fields_of};
ghost use Rattle.ild_struct.specs.inside.Reading.{FormIsRead, AnswersFound};
ghost use Rattle.ild_struct.specs.Source.{IsSourced};
ghost use Rattle.ild_struct.specs.Told.{IsSurveyed};

use crate::map::map_source;
use crate::pairs::listpairs_source;
use crate::parts::StructParts;
use crate::source::Source;
use crate::texts::{stringjoin_source, stringpairs_source};
use crate::tuple::tuple_source;
use ild_cbor::{Piece, Why};
use ild_layer_fields::Fields;
use ild_schema::{Accepted, StructForm, TypeDef, TypeNo};

// A source of whose values no kind tells anything.
fn untold(found: Result<Source<'_>, Why>) -> Result<(Source<'_>, bool), Why>
    ensures answers { (rows : List Row) (form : Form) (fs : List Field) (t : Data) → FormIsRead rows form fs t found.entry → AnswersFound rows form fs t result }
    ensures sourced { (rows : List Row) → IfOk found.entry (IsSourced rows) → IfOk result (λ x. IsSourced rows x.0) }
    ensures told { IfOk result (λ x. x.1 ≡ false) }
{
    match found {
        Ok(source) => Ok((source, false)),
        Err(why) => Err(why),
    }
}

// Where the fields are looked up, by the form of the struct, and whether kinds tell that all values are those of their fields.
fn source_of<'b>(fields: &Fields<'b>, piece: Piece<'b>) -> Result<(Source<'b>, bool), Why>
    requires numbered { IsNumbered fields.now.acc.now piece }
    requires clear { ClearStruct fields.now.def.now.form fields.now.def.now.fields }
    requires delims { HasDelims fields.now.def.now.form fields.now.def.now.fields }
    ensures answers { (t : Data) → StandsFor fields.now.acc.now piece.entry t → AnswersFound fields.now.acc.now fields.now.def.now.form fields.now.def.now.fields t result }
    ensures sourced { IfOk result (λ x. IsSourced fields.now.acc.now x.0) }
    ensures told { IfOk result (λ x. x.1 ≡ true → IsSurveyed fields.now.acc.now fields.now.def.now.fields x.0) }
{
    match &fields.def.form {
        StructForm::Map => map_source(fields, piece),
        StructForm::Tuple => untold(tuple_source(fields.def.fields.as_slice(), &piece)),
        StructForm::ListPairs => untold(listpairs_source(fields, &piece)),
        StructForm::StringPairs(inner, entry) => untold(stringpairs_source(
            fields,
            inner.as_str(),
            entry.as_str(),
            &piece,
        )),
        StructForm::StringJoin(delim) => untold(stringjoin_source(
            delim.as_str(),
            fields.def.fields.len(),
            &piece,
        )),
    }
}

/// The fields of a struct in a piece, or the first cause why the piece is no layer of the struct.
pub fn layer<'b>(acc: &'b Accepted, ty: TypeNo, piece: Piece<'b>) -> Result<StructParts<'b>, Why>
    requires within { ty.0 < length acc.now }
    requires form { (s : Struct) × IsStruct acc.now ty.0 s }
    requires numbered { IsNumbered acc.now piece }
    ensures parts { IfOk result (λ parts. (t : Data) → StandsFor acc.now piece.entry t → HasParts acc.now ty.0 t parts) }
    ensures fields { IfOk result (λ parts. (s : Struct) → IsStruct acc.now ty.0 s → fields_of parts ≡ s.fields) }
    ensures refused { IfErr result (λ why. (t : Data) → StandsFor acc.now piece.entry t → Refused acc.now ty.0 t why) }
{
    acc.recall();
    let base = acc.base(ty);
    match acc.def(base) {
        TypeDef::Struct(def) => {
            let fields = Fields { acc, base, def };
            match source_of(&fields, piece) {
                Ok(found) => Ok(StructParts {
                    fields,
                    source: found.0,
                    told: found.1,
                }),
                Err(why) => Err(why),
            }
        }
        _ => Err(Why::Kind),
    }
}
