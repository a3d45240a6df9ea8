//! The item of what a holder becomes.
ghost use Rattle.std.specs.Prelude.{◌≡◌, List, ℕ, IsSomeAnd, Option, Some, option_map, true};
ghost use Rattle.ild_data.specs.Data as T;
ghost use Rattle.ild_path_block.specs.Changes.{node_of};
ghost use Rattle.ild_path_block.specs.Items.{AnswersItem};
ghost use Rattle.ild_path_item.specs.inside.Rewrites.{Rewrites};
ghost use Rattle.ild_path_item.specs.Texts.{is_text_form, borrowed_text};
ghost use Rattle.ild_path_last.specs.Change.{NewIs};
ghost use Rattle.ild_schema.specs.Slots.{form_of};
ghost use Rattle.ild_schema.specs.declared.def.TypeDef.{TypeDef as Def};
ghost use Rattle.ild_view.specs.View.{slot_of, table_of};

use crate::changed::changed_item;
use crate::member::member_item;
use crate::text::new_text;
use crate::told::told;
use crate::write::text_item;
use ild_data::{Octets, Txt};
use ild_path_block::{PartEdit, node_of};
use ild_schema::{MapForm, StructForm, TypeDef};
use ild_splice::SpliceErr;
use ild_view::View;
use std::alloc::Global;

// Whether a struct or a map stands as the text of its parts.
fn is_text_form(def: &TypeDef) -> bool
    ensures { result ≡ is_text_form def.now }
{
    match def {
        TypeDef::Struct(def) => match &def.form {
            StructForm::StringPairs(_, _) | StructForm::StringJoin(_) => true,
            StructForm::Map | StructForm::Tuple | StructForm::ListPairs => false,
        },
        TypeDef::Map { form, .. } => match form {
            MapForm::StringPairs(_, _) => true,
            MapForm::Map | MapForm::ListPairs | MapForm::Hamt(_) => false,
        },
        _ => false,
    }
}

// The text of the part that comes, or that none does; there is no answer where the part is no text.
fn new_part<'n>(edit: &PartEdit<'n>) -> Option<Option<&'n str>>
    ensures { (t : Option (List ℕ)) → NewIs (node_of edit.now) (option_map T.text t) → IsSomeAnd result (λ n. borrowed_text n ≡ t) }
{
    let Some(node) = node_of(edit) else {
        return Some(None);
    };
    match node.text() {
        Some(text) => Some(Some(text)),
        None => None,
    }
}

// The item of a text, where there is one.
fn item_of(alloc: Global, text: Option<Txt>) -> Result<Option<Octets>, SpliceErr>
    ensures { Rewrites (option_map T.text text) result }
{
    match text {
        Some(text) => told(text_item(alloc, text.as_str())),
        None => Ok(None),
    }
}

// The item of a struct or a map that stands as the text of its parts.
fn of_texts(
    alloc: Global,
    view: &View<'_>,
    segment: &str,
    edit: &PartEdit<'_>,
) -> Result<Option<Octets>, SpliceErr>
    ensures { (d : Def) → form_of (table_of view.now) (slot_of view.now) ≡ Some d → is_text_form d ≡ true → AnswersItem view.now segment.now edit.now result }
{
    view.schema().recall();
    let Some(new) = new_part(edit) else {
        return Ok(None);
    };
    let text = new_text(alloc, view, segment, new)?;
    item_of(alloc, text)
}

/// The item of what the holder of a view becomes by an edit of its part at a segment: the canonical bytes of a new block (DAG-CBOR). All that
/// the edit doesn't touch is copied as it stands (IPLD Schemas, "Representation Strategies").
///
/// The answer is `None` where a rule of the holder's form refuses what it becomes: a delimiter would stand elsewhere than between
/// parts, a union's member would have an entry at the discriminant's key, or be of another kind. Where the item would have more than
/// 4,194,304 bytes, and only there, the answer is `SpliceErr::Size`; `SpliceErr::Memory` tells that an allocation was refused. A tuple
/// with a hole has no item, and how deep the item nests isn't looked at: both are for the caller to see to.
pub fn new_item(
    alloc: Global,
    view: &View<'_>,
    segment: &str,
    edit: &PartEdit<'_>,
) -> Result<Option<Octets>, SpliceErr>
    ensures { AnswersItem view.now segment.now edit.now result }
{
    let acc = view.schema();
    acc.recall();
    let base = acc.base(view.slot().ty);
    let def = acc.def(base);
    if is_text_form(def) {
        return of_texts(alloc, view, segment, edit);
    }
    match def {
        TypeDef::Union(def) => {
            member_item(alloc, def, acc.part_named(base, segment), node_of(edit))
        }
        _ => changed_item(alloc, view, segment, edit),
    }
}
