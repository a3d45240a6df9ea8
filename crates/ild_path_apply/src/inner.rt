//! Each change of an item, where it may be that there is no such part.
ghost use Rattle.std.specs.Prelude.{[], Option};
ghost use Rattle.ild_path_apply.specs.Applies.{Applies};
ghost use Rattle.ild_cbor.specs.Nodes.{HasData};
ghost use Rattle.ild_splice_changes.specs.TreeChange.{insert_entry as entry_comes, insert_item as item_comes, one, remove_entry as entry_goes, remove_item as item_goes, replace as replaced, unchanged};
ghost use Rattle.ild_data.specs.Data.{Data};
ghost use Rattle.ild_path_last.specs.Change.{NewIs};
ghost use Rattle.ild_path_changes.specs.Lift.{lift_within, whole as exchange};
ghost use Rattle.ild_path_replaced.specs.Seen.{tree_steps};
ghost use Rattle.ild_splice.specs.Splices.{pair_of};

use crate::place::place_in;
use ild_cbor::{Kind, Node};
use ild_data::Octets;
use ild_path_replaced::part_of;
use ild_path_steps::PartSteps;
use ild_splice::{
    SpliceErr, insert_entry, insert_item, insert_pair, remove_entry, remove_item, replace,
};
use std::alloc::Global;

/// The block in which an item stands, as it is.
pub(crate) fn same(alloc: Global, node: &Node<'_>) -> Result<Octets, SpliceErr>
    ensures { Applies node.now unchanged result }
{
    let itself = *node;
    replace(alloc, node, &itself)
}

/// With another item in its place, where there is another.
pub(crate) fn exchanged(
    alloc: Global,
    node: &Node<'_>,
    new: Option<Node<'_>>,
) -> Result<Octets, SpliceErr>
    ensures { (u : Option Data) → NewIs new.entry u → Applies node.now (exchange u) result }
{
    match new {
        Some(new) => replace(alloc, node, &new),
        None => same(alloc, node),
    }
}

/// With another item in the place of the part to which steps lead.
pub(crate) fn with_part(
    alloc: Global,
    node: &Node<'_>,
    steps: &PartSteps<'_>,
    new: &Node<'_>,
) -> Result<Octets, SpliceErr>
    ensures { (x : Data) → HasData new.now x → Applies node.now (lift_within (tree_steps steps.now) (one [] (replaced x))) result }
{
    match part_of(node, steps) {
        Some(part) => replace(alloc, &part, new),
        None => same(alloc, node),
    }
}

/// With one more item at a place of a list.
pub(crate) fn with_item(
    alloc: Global,
    list: &Node<'_>,
    at: u64,
    new: &Node<'_>,
) -> Result<Octets, SpliceErr>
    ensures { (x : Data) → HasData new.now x → Applies list.now (one [] (item_comes at x)) result }
{
    match list.kind() {
        Kind::List => insert_item(alloc, list, place_in(list, at), new),
        _ => same(alloc, list),
    }
}

/// With a pair of a key and an item at a place of a list.
pub(crate) fn with_pair(
    alloc: Global,
    list: &Node<'_>,
    at: u64,
    key: &str,
    new: &Node<'_>,
) -> Result<Octets, SpliceErr>
    ensures { (x : Data) → HasData new.now x → Applies list.now (one [] (item_comes at (pair_of key.now x))) result }
{
    match list.kind() {
        Kind::List => insert_pair(alloc, list, place_in(list, at), key, new),
        _ => same(alloc, list),
    }
}

/// With an item at a key of a map.
pub(crate) fn with_entry(
    alloc: Global,
    map: &Node<'_>,
    key: &str,
    new: &Node<'_>,
) -> Result<Octets, SpliceErr>
    ensures { (x : Data) → HasData new.now x → Applies map.now (one [] (entry_comes key.now x)) result }
{
    let Kind::Map = map.kind() else {
        return same(alloc, map);
    };
    match map.entry(key) {
        Some(old) => replace(alloc, &old, new),
        None => insert_entry(alloc, map, key, new),
    }
}

/// Without the item at a place of a list.
pub(crate) fn without_item(alloc: Global, list: &Node<'_>, at: u64) -> Result<Octets, SpliceErr>
    ensures { Applies list.now (one [] (item_goes at)) result }
{
    match list.item(at) {
        Some(_) => remove_item(alloc, list, at),
        None => same(alloc, list),
    }
}

/// Without the entry at a key of a map.
pub(crate) fn without_entry(alloc: Global, map: &Node<'_>, key: &str) -> Result<Octets, SpliceErr>
    ensures { Applies map.now (one [] (entry_goes key.now)) result }
{
    match map.entry(key) {
        Some(_) => remove_entry(alloc, map, key),
        None => same(alloc, map),
    }
}
