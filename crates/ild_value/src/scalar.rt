//! Values that scalars mean.
ghost use Rattle.std.specs.Prelude.{◌≡◌, ◌<◌, ◌≤◌, IfErr, IfOk, length, option_map, List, None, Some, false};
ghost use Rattle.ild_schema.specs.Slots.{form_of};
ghost use Rattle.ild_schema.specs.declared.row.Row.{Row};
ghost use Rattle.ild_data.specs.Data as D;
ghost use Rattle.ild_data.specs.Data.{Data};
ghost use Rattle.ild_value_meaning.specs.Mismatch.{is_kind};
ghost use Rattle.ild_schema.specs.Table.{IsWithin};
ghost use Rattle.ild_schema.specs.declared.def.TypeDef.TheVariants as T;
ghost use Rattle.ild_schema.specs.ValueSeen.{value_of};
ghost use Rattle.ild_value.specs.inside.Parts.{IsReadAs};
ghost use Rattle.ild_value.specs.Readings.{IsRefused};

use crate::{ShownErr, ShownRule};
use ild_data::{Cid, Int, Octets, Tree, Txt};
use ild_schema::{Accepted, EnumDef, Slot, TypeDef, Val};

/// The kind of the data is never shown of the slot's type.
pub(crate) fn wrong_kind(slot: Slot) -> ShownErr
    ensures { (rows : List Row) (t : Data) → is_kind rows slot t ≡ false → IsRefused rows slot t result }
{
    ShownErr::Mismatch {
        ty: slot.ty,
        rule: ShownRule::Kind,
    }
}

/// What the table says of a slot's type, copies followed.
pub(crate) fn form(acc: &Accepted, slot: Slot) -> &TypeDef
    requires { slot.ty.0 < length acc.now }
    ensures form { form_of acc.now slot ≡ Some result.now }
    ensures within { IsWithin (length acc.now) result.now }
{
    acc.def(acc.base(slot.ty))
}

/// Null.
pub(crate) fn null_value(slot: Slot) -> Result<Val, ShownErr>
    ensures ok { (rows : List Row) → IfOk result (λ v. IsReadAs rows slot D.null (value_of v)) }
    ensures err { (rows : List Row) → IfErr result (IsRefused rows slot D.null) }
{
    if slot.nullable {
        Ok(Val::Null)
    } else {
        Err(wrong_kind(slot))
    }
}

/// A truth value.
pub(crate) fn boolean_value(acc: &Accepted, slot: Slot, b: bool) -> Result<Val, ShownErr>
    requires { slot.ty.0 < length acc.now }
    ensures ok { IfOk result (λ v. IsReadAs acc.now slot (D.boolean b) (value_of v)) }
    ensures err { IfErr result (IsRefused acc.now slot (D.boolean b)) }
{
    match form(acc, slot) {
        TypeDef::Bool => Ok(Val::Bool(b)),
        TypeDef::Any => Ok(Val::Any(Tree::Bool(b))),
        _ => Err(wrong_kind(slot)),
    }
}

/// An integer.
pub(crate) fn integer_value(acc: &Accepted, slot: Slot, n: Int) -> Result<Val, ShownErr>
    requires { slot.ty.0 < length acc.now }
    ensures ok { IfOk result (λ v. IsReadAs acc.now slot (D.integer n) (value_of v)) }
    ensures err { IfErr result (IsRefused acc.now slot (D.integer n)) }
{
    match form(acc, slot) {
        TypeDef::Int => Ok(Val::Int(n)),
        TypeDef::Any => Ok(Val::Any(Tree::Int(n))),
        _ => Err(wrong_kind(slot)),
    }
}

/// Bytes.
pub(crate) fn bytes_value(acc: &Accepted, slot: Slot, bytes: Octets) -> Result<Val, ShownErr>
    requires { slot.ty.0 < length acc.now }
    ensures ok { IfOk result (λ v. IsReadAs acc.now slot (D.bytes bytes) (value_of v)) }
    ensures err { IfErr result (IsRefused acc.now slot (D.bytes bytes)) }
{
    match form(acc, slot) {
        TypeDef::Bytes => Ok(Val::Bytes(bytes)),
        TypeDef::Any => Ok(Val::Any(Tree::Bytes(bytes))),
        _ => Err(wrong_kind(slot)),
    }
}

/// A link.
pub(crate) fn link_value(acc: &Accepted, slot: Slot, cid: Cid) -> Result<Val, ShownErr>
    requires { slot.ty.0 < length acc.now }
    ensures ok { IfOk result (λ v. IsReadAs acc.now slot (D.link cid) (value_of v)) }
    ensures err { IfErr result (IsRefused acc.now slot (D.link cid)) }
{
    match form(acc, slot) {
        TypeDef::Link(_) => Ok(Val::Link(cid)),
        TypeDef::Any => Ok(Val::Any(Tree::Link(cid))),
        _ => Err(wrong_kind(slot)),
    }
}

// The member of an enum that a text names.
fn member(acc: &Accepted, slot: Slot, def: &EnumDef, text: &Txt) -> Result<Val, ShownErr>
    requires there { slot.ty.0 < length acc.now }
    requires form { form_of acc.now slot ≡ Some (T.Enum def.now) }
    requires most { length def.now.members ≤ 1024 }
    ensures ok { IfOk result (λ v. IsReadAs acc.now slot (D.text text.now) (value_of v)) }
    ensures err { IfErr result (IsRefused acc.now slot (D.text text.now)) }
{
    match acc.part_named(acc.base(slot.ty), text.as_str()) {
        Some(n) => Ok(Val::Enum(n as u32)),
        None => Err(ShownErr::Mismatch {
            ty: slot.ty,
            rule: ShownRule::Member,
        }),
    }
}

/// A text.
pub(crate) fn text_value(acc: &Accepted, slot: Slot, text: Txt) -> Result<Val, ShownErr>
    requires { slot.ty.0 < length acc.now }
    ensures ok { IfOk result (λ v. IsReadAs acc.now slot (D.text text) (value_of v)) }
    ensures err { IfErr result (IsRefused acc.now slot (D.text text)) }
{
    match form(acc, slot) {
        TypeDef::Text => Ok(Val::Text(text)),
        TypeDef::Enum(def) => member(acc, slot, def, &text),
        TypeDef::Any => Ok(Val::Any(Tree::Text(text))),
        _ => Err(wrong_kind(slot)),
    }
}
