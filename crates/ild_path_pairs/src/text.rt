//! The text of what a struct or a map becomes.
ghost use Rattle.std.specs.Prelude.{◌≡◌, true};
ghost use Rattle.ild_path_block.specs.Items.{are_pairs};
ghost use Rattle.ild_path_pairs.specs.Becomes.{AnswersText};
ghost use Rattle.ild_path_pairs.specs.Pairs.{borrowed_text};
ghost use Rattle.ild_schema.specs.Slots.{form_of};
ghost use Rattle.ild_view.specs.View.{slot_of, table_of};

use crate::form::{in_map, in_struct};
use ild_data::Txt;
use ild_layer_piece::text;
use ild_schema::TypeDef;
use ild_view::View;
use std::alloc::{AllocError, Global};

/// The text of what the holder of a view becomes where its part at a segment becomes a text, or goes, where the holder is a struct or a map that
/// stands as the text of its pairs (IPLD Schemas, "stringpairs"). A field with its implicit value is not written, a pair that is there
/// keeps its place, and a new key of a map comes behind the others.
///
/// The answer is `None` where a delimiter would stand elsewhere than it may. An error is want of memory; a text may be longer than a
/// block.
pub fn pairs_text(
    alloc: Global,
    view: &View<'_>,
    segment: &str,
    new: Option<&str>,
) -> Result<Option<Txt>, AllocError>
    ensures { are_pairs (form_of (table_of view.now) (slot_of view.now)) ≡ true → AnswersText view.now segment.now (borrowed_text new.entry) result }
{
    let acc = view.schema();
    acc.recall();
    let Some(piece) = view.piece() else {
        return Ok(None);
    };
    let Some(text) = text(&piece) else {
        return Ok(None);
    };
    let base = acc.base(view.slot().ty);
    match acc.def(base) {
        TypeDef::Map { form, .. } => in_map(alloc, text, form, segment, new),
        TypeDef::Struct(def) => match acc.part_named(base, segment) {
            Some(number) => in_struct(alloc, text, def, number, new),
            None => Ok(None),
        },
        _ => Ok(None),
    }
}
