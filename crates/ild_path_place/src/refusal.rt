//! Whether something may be done at a segment.
ghost use Rattle.std.specs.Prelude.{IfOk};
ghost use Rattle.ild_path_place.specs.inside.Slots.{IsPartSlot, IsSlotOr, KeySlot, SlotAnswer, part_slot};
ghost use Rattle.ild_path_place.specs.declared.verb.Verb.TheVariants.{Del};
ghost use Rattle.ild_schema.specs.Value.{Value};
ghost use Rattle.ild_view.specs.View.{IsView, slot_of, table_of};

use crate::verb::Verb;
use ild_path_rules::{Refusal, refusal_to_delete, slot_to_insert, slot_to_set};
use ild_schema::Slot;
use ild_view::View;

// The slot of the part at a segment.
fn slot_there(holder: &View<'_>, segment: &str) -> Result<Slot, Refusal>
    ensures answer { (f : Value) → IsView holder.now f → IsSlotOr (part_slot (table_of holder.now) (slot_of holder.now, f) segment.now) result }
    ensures part { IfOk result (IsPartSlot (table_of holder.now)) }
{
    match holder.part(segment) {
        Some(part) => Ok(part.slot()),
        None => Err(Refusal::Path),
    }
}

// The slot of the part at a segment, where it may be deleted.
fn slot_to_delete(holder: &View<'_>, segment: &str) -> Result<Slot, Refusal>
    ensures answer { (f : Value) → IsView holder.now f → SlotAnswer (table_of holder.now) (slot_of holder.now, f) segment.now Del result }
    ensures part { IfOk result (IsPartSlot (table_of holder.now)) }
{
    match refusal_to_delete(holder, segment) {
        Some(refusal) => Err(refusal),
        None => slot_there(holder, segment),
    }
}

// A slot, if there is one.
fn slot_or(slot: Option<Slot>) -> Result<Slot, Refusal>
    ensures { IsSlotOr slot result }
{
    match slot {
        Some(slot) => Ok(slot),
        None => Err(Refusal::Path),
    }
}

/// The slot of the part that comes to a segment, or of the one that goes, of a holder that is no HAMT.
pub(crate) fn slot_in_block(holder: &View<'_>, segment: &str, verb: Verb) -> Result<Slot, Refusal>
    ensures answer { (f : Value) → IsView holder.now f → SlotAnswer (table_of holder.now) (slot_of holder.now, f) segment.now verb result }
    ensures part { IfOk result (IsPartSlot (table_of holder.now)) }
{
    holder.schema().recall();
    match verb {
        Verb::Set => slot_or(slot_to_set(holder, segment)),
        Verb::Ins => slot_or(slot_to_insert(holder, segment)),
        Verb::Del => slot_to_delete(holder, segment),
    }
}

/// The same at a key of a HAMT whose values are of this slot, by whether it is there.
pub(crate) fn slot_at_key(slot: Slot, there: bool, verb: Verb) -> Result<Slot, Refusal>
    ensures { KeySlot slot there verb result }
{
    match verb {
        Verb::Set => Ok(slot),
        Verb::Ins => { if there { Err(Refusal::Path) } else { Ok(slot) } }
        Verb::Del => { if there { Ok(slot) } else { Err(Refusal::Path) } }
    }
}
