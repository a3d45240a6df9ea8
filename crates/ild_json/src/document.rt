//! From a JSON document in which nothing is at fault to its tree. Where something is, `None` is the answer, and the walk of
//! `tree_of` tells the first fault.
ghost use Rattle.std.specs.Prelude.{◌≡◌, Some, IfSome};
ghost use Rattle.json.specs.Json.{array, object, member, no_members};
ghost use Rattle.json.specs.Value.{value_view, items_view, members_view};
ghost use Rattle.serde_json.specs.Find.{of_integer};
ghost use Rattle.serde_json.specs.Read.{number_of};
ghost use Rattle.ild_data.specs.Data.{list, map};
ghost use Rattle.ild_data.specs.Seen.{data_of};
ghost use Rattle.ild_json.specs.Sound.{Means, MeansReserved, InKeyOrder};

use crate::decimal::{below_zero, natural};
use crate::object::{BYTES, SLASH, bytes, link};
use crate::show::is_slash_alone;
use ild_data::{Entries, Int, Tree, Trees, Txt};
use ild_data_order::sort_by_key;
use json::Value;
use std::alloc::Global;

/// The tree that a document means, or `None` where it has a fault, an object has a key twice, or memory is wanting.
#[cycle(document)]
pub fn tree_of(alloc: Global, value: Value<'_>) -> Option<Tree>
    ensures { IfSome result (λ t. Means (value_view value.entry) (data_of t)) }
{
    match value {
        Value::Null => Some(Tree::Null),
        Value::Bool(b) => Some(Tree::Bool(b)),
        Value::Number(text) => Some(Tree::Int(integer(text)?)),
        Value::String(text) => Some(Tree::Text(text_of(alloc, text)?)),
        Value::Array(items) => Some(Tree::List(trees_of(alloc, items)?)),
        Value::Object(members) => object_of(alloc, members),
    }
}

/// A copy of a text.
fn text_of(alloc: Global, text: &str) -> Option<Txt>
    ensures { IfSome result (λ t. t ≡ text.now) }
{
    Txt::of(alloc, text).ok()
}

/// The integer whose decimal a number is.
fn integer(text: &str) -> Option<Int>
    ensures { IfSome result (λ n. number_of text.now ≡ Some (of_integer n)) }
{
    match natural(text) {
        Some(n) => Int::new(n as i128),
        None => Int::new(below_zero(text)? as i128),
    }
}

/// The items of a list, in order.
#[cycle(document)]
fn trees_of(alloc: Global, items: Vec<Value<'_>>) -> Option<Trees>
    ensures { IfSome result (λ t. Means (array (items_view items.entry.items)) (list t)) }
{
    let mut trees = Trees::new(alloc);
    for item in items {
        trees.push(tree_of(alloc, item)?).ok()?;
    }
    Some(trees)
}

/// What an object means: a link or bytes where `/` is its only key, else a map.
#[cycle(document)]
fn object_of<'a>(alloc: Global, members: Vec<(&'a str, Value<'a>)>) -> Option<Tree>
    ensures { IfSome result (λ t. Means (object (members_view members.entry.items)) (data_of t)) }
{
    match only_value(&members, SLASH) {
        Some(value) => reserved_of(alloc, value),
        None => Some(Tree::Map(entries_of(alloc, members)?)),
    }
}

/// The value of an object's only member, where that has this key.
fn only_value<'v, 'a>(members: &'v Vec<(&'a str, Value<'a>)>, key: &str) -> Option<&'v Value<'a>>
    ensures { IfSome result (λ v. members_view members.now.items ≡ member key.now (value_view v.now) no_members) }
{
    match members.as_slice() {
        [member] if member.0 == key => Some(&member.1),
        _ => None,
    }
}

/// What stands under `/`: a link, or bytes in an object of their own.
fn reserved_of(alloc: Global, value: &Value<'_>) -> Option<Tree>
    ensures { IfSome result (λ t. MeansReserved (value_view value.now) (data_of t)) }
{
    match value {
        Value::String(text) => link(alloc, text).ok(),
        Value::Object(members) => bytes(alloc, only_value(members, BYTES)?.as_str()?).ok(),
        _ => None,
    }
}

/// The entries of an object, in the key order.
#[cycle(document)]
fn entries_of<'a>(alloc: Global, members: Vec<(&'a str, Value<'a>)>) -> Option<Entries>
    ensures { IfSome result (λ t. Means (object (members_view members.entry.items)) (map t)) }
{
    let sorted = in_key_order(alloc, members)?;
    let mut pairs = Vec::with_capacity(alloc, sorted.len()).ok()?;
    for (key, member) in sorted {
        let tree = tree_of(alloc, member)?;
        let name = text_of(alloc, key)?;
        pairs.push((name, tree)).ok()?;
    }
    let entries = Entries::from_vec(pairs);
    if is_slash_alone(&entries) {
        return None;
    }
    Some(entries)
}

/// The members in the key order, or `None` where a key comes twice.
fn in_key_order<'a>(
    alloc: Global,
    members: Vec<(&'a str, Value<'a>)>,
) -> Option<Vec<(&'a str, Value<'a>)>>
    ensures { IfSome result (λ v. InKeyOrder members.entry.items v.items) }
{
    let mut sorted = members;
    if sort_by_key(alloc, &mut sorted) {
        Some(sorted)
    } else {
        None
    }
}
