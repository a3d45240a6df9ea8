//! Delimiters that stand elsewhere than at the joints of a text, and the text of a value in text form.
ghost use Rattle.std.specs.Prelude.{◌≡◌, ◌<◌, IfOk, List, ℕ, Some, false, length, option_map, string_bytes};
ghost use Rattle.ild_data.specs.Data.{text};
ghost use Rattle.ild_schema.specs.Made.{IsTextSlot};
ghost use Rattle.ild_schema.specs.ValueSeen.{value_of};
ghost use Rattle.ild_typed.specs.Hamt.{whole};
ghost use Rattle.ild_typed.specs.Judged.{breaks_delimiter, has_hole};
ghost use Rattle.ild_typed.specs.Represented.{represented};
ghost use Rattle.ild_typed.specs.Typed.{Typed};
ghost use Rattle.ild_build.specs.TextRep.{is_text_layer, text_rep};

use crate::form::form_of;
use crate::leaf::has_leaves;
use crate::parts::{part_at, places};
use crate::text::add_text;
use ild_data::Txt;
use ild_schema::{Accepted, MapForm, Slot, StructForm, TypeDef, Val};
use std::alloc::{AllocError, Global};

// Whether the layer stands as a text with delimiters.
fn is_text_layer(def: &TypeDef, val: &Val) -> bool
    ensures { result ≡ is_text_layer def.now (value_of val.now) }
{
    match (def, val) {
        (TypeDef::Struct(s), Val::Struct(_)) => match s.form {
            StructForm::StringPairs(_, _) | StructForm::StringJoin(_) => true,
            _ => false,
        },
        (TypeDef::Map { form, .. }, Val::Map(_)) => match form {
            MapForm::StringPairs(_, _) => true,
            _ => false,
        },
        _ => false,
    }
}

/// Whether a delimiter stands elsewhere than at the joints of its text, somewhere in a typed value without a hole. What the
/// buffer holds is lost.
#[cycle(joined)]
pub(crate) fn breaks_delimiter(
    acc: &Accepted,
    slot: Slot,
    val: &Val,
    buffer: &mut String,
) -> Result<bool, AllocError>
    requires { slot.ty.0 < length acc.now }
    ensures { IfOk result (λ b. Typed acc.now slot (value_of val.now) → has_hole acc.now slot (value_of val.now) ≡ false → b ≡ breaks_delimiter acc.now slot (value_of val.now)) }
{
    acc.recall();
    let def = form_of(acc, slot);
    if is_text_layer(def, val) {
        buffer.clear();
        return Ok(!add_text(acc, slot, val, buffer)?);
    }
    if has_leaves(acc, def) {
        return Ok(false);
    }
    for i in 0..places(val) {
        if let Some((slot, part)) = part_at(def, val, i) {
            if breaks_delimiter(acc, slot, part, buffer)? {
                return Ok(true);
            }
        }
    }
    Ok(false)
}

/// The text that represents a value in text form: its type has the kind text alone, and its slot isn't nullable.
pub fn text_of(alloc: Global, acc: &Accepted, slot: Slot, val: &Val) -> Result<Txt, AllocError>
    requires within { slot.ty.0 < length acc.now }
    requires typed { Typed acc.now slot (value_of val.now) }
    requires form { IsTextSlot acc.now slot }
    requires hole { has_hole acc.now slot (value_of val.now) ≡ false }
    requires delimiter { breaks_delimiter acc.now slot (value_of val.now) ≡ false }
    ensures { IfOk result (λ t. (h : List ℕ → List ℕ) → represented (whole h) acc.now slot (value_of val.now) ≡ Some (text t)) }
{
    acc.recall();
    let mut out = String::new(alloc);
    add_text(acc, slot, val, &mut out)?;
    Ok(Txt::from_string(out))
}

/// The text that represents a value, where there is one.
pub fn represented_text(
    alloc: Global,
    acc: &Accepted,
    slot: Slot,
    val: &Val,
) -> Result<Option<String>, AllocError>
    requires { slot.ty.0 < length acc.now }
    ensures { IfOk result (λ made. option_map string_bytes made ≡ text_rep acc.now slot (value_of val.now)) }
{
    let mut out = String::new(alloc);
    if add_text(acc, slot, val, &mut out)? {
        Ok(Some(out))
    } else {
        Ok(None)
    }
}
