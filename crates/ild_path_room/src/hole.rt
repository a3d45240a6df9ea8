//! Whether an edit leaves a hole in a tuple.
ghost use Rattle.std.specs.Prelude.{◌≡◌, false, option_and_then};
ghost use Rattle.ild_path_room.specs.Hole.{TellsHole, is_tuple, stands_as_tuple, told_at};
ghost use Rattle.ild_schema.specs.Parts.{part_named};
ghost use Rattle.ild_schema.specs.Slots.{form_of};
ghost use Rattle.ild_schema.specs.Value.{Value};
ghost use Rattle.ild_typed.specs.Judged.{is_hole};
ghost use Rattle.ild_view.specs.View.{IsView, slot_of, table_of};

use crate::form::form_of;
use ild_schema::{StructForm, TypeDef};
use ild_view::View;

/// Whether an edit brings a part to a holder or takes one from it.
#[derive(Clone, Copy)]
pub enum PartMotion {
    /// It is set or inserted.
    Comes,
    /// It is deleted.
    Goes,
}

fn stands_as_tuple(form: &StructForm) -> bool
    ensures { result ≡ stands_as_tuple form.now }
{
    match form {
        StructForm::Tuple => true,
        _ => false,
    }
}

fn is_tuple(def: &TypeDef) -> bool
    ensures { result ≡ is_tuple def.now }
{
    match def {
        TypeDef::Struct(s) => stands_as_tuple(&s.form),
        _ => false,
    }
}

// The number of the field or member with a name.
fn number_of(view: &View<'_>, name: &str) -> Option<usize>
    ensures { result ≡ option_and_then (part_named name.now) (form_of (table_of view.now) (slot_of view.now)) }
{
    let acc = view.schema();
    acc.part_named(acc.base(view.slot().ty), name)
}

// What the number of a field and the count of those that are present tell.
fn told(motion: PartMotion, number: Option<usize>, count: Option<u64>) -> bool
    ensures { result ≡ told_at motion number count }
{
    let (Some(number), Some(count)) = (number, count) else {
        return false;
    };
    let place = number as u64;
    match motion {
        PartMotion::Comes => place > count,
        PartMotion::Goes => place < count.saturating_sub(1),
    }
}

/// Whether a holder that has no hole has one where the part at a segment comes or goes: a tuple has one where an absent field stands
/// before a present one (IPLD Schemas, "Struct Representation Strategies"). In a tuple the present fields stand in front, so their
/// count tells it.
#[tactic(auto, using(crate::proofs::Holes::tells_plain))]
pub fn leaves_hole(view: &View<'_>, segment: &str, motion: PartMotion) -> bool
    ensures { (f : Value) → IsView view.now f → is_hole (form_of (table_of view.now) (slot_of view.now)) f ≡ false → TellsHole (table_of view.now) (slot_of view.now, f) segment.now motion result }
{
    if !is_tuple(form_of(view)) {
        return false;
    }
    told(motion, number_of(view, segment), view.len())
}
