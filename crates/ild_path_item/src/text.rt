//! The text of what a holder becomes.
ghost use Rattle.std.specs.Prelude.{◌≡◌, ◌<◌, IfOk, List, ℕ, Some, length, option_and_then};
ghost use Rattle.ild_data.specs.Data as T;
ghost use Rattle.ild_layer_piece.specs.Pieces.{StandsFor};
ghost use Rattle.ild_path_item.specs.inside.Rewrites.{TellsJoined};
ghost use Rattle.ild_path_item.specs.Texts.{AnswersText, borrowed_text};
ghost use Rattle.ild_schema.specs.Parts.{part_named};
ghost use Rattle.ild_schema.specs.Slots.{form_of};
ghost use Rattle.ild_schema.specs.declared.def.TypeDef.TheVariants as D;
ghost use Rattle.ild_schema.specs.declared.row.Row.{Row};
ghost use Rattle.ild_typed.specs.Composed.{union_form};
ghost use Rattle.ild_typed.specs.Strings.{text_in};
ghost use Rattle.ild_view.specs.View.{slot_of, table_of};

use ild_cbor::Piece;
use ild_data::Txt;
use ild_layer_piece::text;
use ild_path_marked::marked_text;
use ild_path_pairs::pairs_text;
use ild_path_text::set_part;
use ild_schema::{StructDef, StructForm, TypeDef, UnionDef};
use ild_view::View;
use std::alloc::{AllocError, Global};

// The text of a union's value, of which the member with a number becomes a text.
fn member_text(
    alloc: Global,
    union: &UnionDef,
    number: Option<usize>,
    new: Option<&str>,
) -> Result<Option<Txt>, AllocError>
    ensures { (k : ℕ) (t : List ℕ) → number ≡ Some k → borrowed_text new.entry ≡ Some t → IfOk result (λ o. o ≡ option_and_then text_in (union_form union.now.form union.now.members (k, T.text t))) }
{
    match (number, new) {
        (Some(number), Some(new)) => marked_text(alloc, union, number, new),
        _ => Ok(None),
    }
}

// The text of a struct of so many fields, of which the one at a place becomes a text; none where that goes.
fn joined_text(
    alloc: Global,
    piece: &Piece<'_>,
    delimiter: &str,
    count: usize,
    place: usize,
    new: Option<&str>,
) -> Result<Option<Txt>, AllocError>
    requires { 0 < length delimiter.now }
    ensures { (rows : List Row) (old : List ℕ) → StandsFor rows piece.now (T.text old) → TellsJoined delimiter.now old count place (borrowed_text new.entry) result }
{
    let (Some(old), Some(new)) = (text(piece), new) else {
        return Ok(None);
    };
    set_part(alloc, old, delimiter, count, place, new)
}

// The text of a struct, of which the field with a number becomes a text, or goes.
fn struct_text(
    alloc: Global,
    view: &View<'_>,
    def: &StructDef,
    number: usize,
    segment: &str,
    new: Option<&str>,
) -> Result<Option<Txt>, AllocError>
    requires known { form_of (table_of view.now) (slot_of view.now) ≡ Some (D.Struct def.now) }
    requires numbered { Some number ≡ part_named segment.now (D.Struct def.now) }
    requires within { number < length def.now.fields }
    ensures { AnswersText view.now segment.now (borrowed_text new.entry) result }
{
    view.schema().recall();
    match &def.form {
        StructForm::StringPairs(_, _) => pairs_text(alloc, view, segment, new),
        StructForm::StringJoin(delimiter) => {
            let Some(piece) = view.piece() else {
                return Ok(None);
            };
            let count = def.fields.len();
            joined_text(alloc, &piece, delimiter.as_str(), count, number, new)
        }
        _ => Ok(None),
    }
}

/// The text of what the holder of a view, which stands as a text, becomes where its part at a segment becomes what a text represents, or goes
/// (IPLD Schemas, "Representation Strategies"). The text of a part and that which is made may be longer than a block.
///
/// The answer is `None` where a rule of the holder's form refuses what it becomes: a delimiter would stand elsewhere than between
/// parts, or a union's member be of another kind. An error is want of memory.
pub fn new_text(
    alloc: Global,
    view: &View<'_>,
    segment: &str,
    new: Option<&str>,
) -> Result<Option<Txt>, AllocError>
    ensures { AnswersText view.now segment.now (borrowed_text new.entry) result }
{
    let acc = view.schema();
    acc.recall();
    let base = acc.base(view.slot().ty);
    match acc.def(base) {
        TypeDef::Union(def) => member_text(alloc, def, acc.part_named(base, segment), new),
        TypeDef::Struct(def) => match acc.part_named(base, segment) {
            Some(number) => struct_text(alloc, view, def, number, segment, new),
            None => Ok(None),
        },
        TypeDef::Map { .. } => pairs_text(alloc, view, segment, new),
        _ => Ok(None),
    }
}
