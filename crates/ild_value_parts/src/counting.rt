//! How many parts a value has.
ghost use Rattle.std.specs.Prelude.{◌≡◌, ◌<◌, length, option_map};
ghost use Rattle.ild_data.specs.Seen.{data_of};
ghost use Rattle.ild_script_meaning.specs.Reads.{counted, present_fields};
ghost use Rattle.ild_schema.specs.Value.{optionals_list};
ghost use Rattle.ild_schema.specs.ValueSeen.{value_of};
ghost use Rattle.ild_typed.specs.At.{seen};
ghost use Rattle.ild_typed.specs.Holder.{any_holder};

use crate::form::{field_at, form, number};
use ild_data::Tree;
use ild_schema::{Accepted, Field, Slot, TypeDef, Val, ValFields};

// How many fields are present.
fn present(fields: &[Field], vals: &ValFields) -> usize
    ensures { result ≡ length (present_fields fields.now (optionals_list vals.now)) }
{
    let mut count: usize = 0;
    let _most = vals.len();
    for i in 0..fields.len() {
        let Some(_) = field_at(vals, i) else {
            continue;
        };
        count = count.saturating_add(1);
    }
    count
}

// Of data inside an Any.
fn count_any(tree: &Tree) -> Option<Tree>
    ensures { option_map data_of result ≡ counted (any_holder (data_of tree.now)) }
{
    match tree {
        Tree::List(trees) => Some(number(trees.len())),
        Tree::Map(entries) => Some(number(entries.len())),
        _ => None,
    }
}

/// How many fields of a struct are present, how many entries a map has, or how many elements a list; nothing of a value without parts,
/// and of a union.
pub fn count(acc: &Accepted, slot: Slot, val: &Val) -> Option<Tree>
    requires { slot.ty.0 < length acc.now }
    ensures { option_map data_of result ≡ counted (seen acc.now (slot, value_of val.now)) }
{
    match val {
        Val::List(vals) => match form(acc, slot) {
            TypeDef::List { .. } => Some(number(vals.len())),
            _ => None,
        },
        Val::Map(pairs) => match form(acc, slot) {
            TypeDef::Map { .. } => Some(number(pairs.len())),
            _ => None,
        },
        Val::Struct(fields) => match form(acc, slot) {
            TypeDef::Struct(def) => Some(number(present(def.fields.as_slice(), fields))),
            _ => None,
        },
        Val::Any(tree) => count_any(tree),
        _ => None,
    }
}
