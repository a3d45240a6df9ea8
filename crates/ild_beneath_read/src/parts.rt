//! The parts of a piece that are left, and the first of them.
ghost use Rattle.std.specs.Prelude.{◌<◌, IfSome, List};
ghost use Rattle.ild_open_held.specs.Splits.{Part};
ghost use Rattle.ild_schema.specs.declared.row.Row.{Row};
ghost use Rattle.ild_beneath_read.specs.inside.Left.{AreWithin, AreWithinBoth, IsLeft, Splits, parts_left};
ghost use Rattle.ild_beneath_read.specs.declared.parts.Parts.TheVariants as P;

use crate::pair::{entry_value, named};
use ild_cbor::{Items, Node};
use ild_layer_piece::MapEntries;
use ild_schema::{Field, Slot};

/// The parts of a piece that are left, in the order of the type's parts.
#[derive(Clone, Copy)]
pub(crate) enum Parts<'b> {
    /// The items of a list.
    Items(Slot, Items<'b>),
    /// The values of a map's entries.
    Entries(Slot, MapEntries<'b>),
    /// The values of a list's pairs, of which each has a name.
    Pairs(Slot, Items<'b>),
    /// The values of a bucket's entries.
    Bucket(Slot, Items<'b>),
    /// The items of a list, each of the field at its place.
    Ordered(&'b [Field], Items<'b>),
    /// What was found for each field.
    Found(&'b [Field], &'b [Option<Node<'b>>]),
}

/// A part in its slot, where one stands there, and those behind it.
pub(crate) type Split<'b> = (Option<(Slot, Node<'b>)>, Parts<'b>);

// The first item of a list.
fn first_item<'b>(slot: Slot, items: Items<'b>) -> Option<Split<'b>>
    ensures step { (ps : List Part) → IsLeft (P.Items slot items.entry) ps → Splits ps result }
    ensures fewer { IfSome result (λ r. parts_left r.1 < parts_left (P.Items slot items.entry)) }
    ensures within { (rows : List Row) → AreWithin rows (P.Items slot items.entry) → IfSome result (AreWithinBoth rows) }
{
    let mut left = items;
    let Some(node) = left.next() else {
        return None;
    };
    Some((Some((slot, node)), Parts::Items(slot, left)))
}

// The first value of a map.
fn first_entry<'b>(slot: Slot, entries: MapEntries<'b>) -> Option<Split<'b>>
    ensures step { (ps : List Part) → IsLeft (P.Entries slot entries.entry) ps → Splits ps result }
    ensures fewer { IfSome result (λ r. parts_left r.1 < parts_left (P.Entries slot entries.entry)) }
    ensures within { (rows : List Row) → AreWithin rows (P.Entries slot entries.entry) → IfSome result (AreWithinBoth rows) }
{
    let mut left = entries;
    let Some((_, node)) = left.next() else {
        return None;
    };
    Some((Some((slot, node)), Parts::Entries(slot, left)))
}

// The value of the first item of a list, where it is a pair with a name.
fn first_pair<'b>(slot: Slot, items: Items<'b>) -> Option<Split<'b>>
    ensures step { (ps : List Part) → IsLeft (P.Pairs slot items.entry) ps → Splits ps result }
    ensures fewer { IfSome result (λ r. parts_left r.1 < parts_left (P.Pairs slot items.entry)) }
    ensures within { (rows : List Row) → AreWithin rows (P.Pairs slot items.entry) → IfSome result (AreWithinBoth rows) }
{
    let mut left = items;
    let Some(item) = left.next() else {
        return None;
    };
    match named(&item) {
        Some((_, node)) => Some((Some((slot, node)), Parts::Pairs(slot, left))),
        None => Some((None, Parts::Pairs(slot, left))),
    }
}

// The value of the first entry of a bucket.
fn first_held<'b>(slot: Slot, items: Items<'b>) -> Option<Split<'b>>
    ensures step { (ps : List Part) → IsLeft (P.Bucket slot items.entry) ps → Splits ps result }
    ensures fewer { IfSome result (λ r. parts_left r.1 < parts_left (P.Bucket slot items.entry)) }
    ensures within { (rows : List Row) → AreWithin rows (P.Bucket slot items.entry) → IfSome result (AreWithinBoth rows) }
{
    let mut left = items;
    let Some(item) = left.next() else {
        return None;
    };
    match entry_value(&item) {
        Some(node) => Some((Some((slot, node)), Parts::Bucket(slot, left))),
        None => Some((None, Parts::Bucket(slot, left))),
    }
}

// The first item of a list, of the first field.
fn first_ordered<'b>(fields: &'b [Field], items: Items<'b>) -> Option<Split<'b>>
    ensures step { (ps : List Part) → IsLeft (P.Ordered fields.entry items.entry) ps → Splits ps result }
    ensures fewer { IfSome result (λ r. parts_left r.1 < parts_left (P.Ordered fields.entry items.entry)) }
    ensures within { (rows : List Row) → AreWithin rows (P.Ordered fields.entry items.entry) → IfSome result (AreWithinBoth rows) }
{
    let mut left = items;
    let Some((field, behind)) = fields.split_first() else {
        return None;
    };
    let Some(node) = left.next() else {
        return None;
    };
    Some((Some((field.slot, node)), Parts::Ordered(behind, left)))
}

// What was found for the first field.
fn first_found<'b>(fields: &'b [Field], nodes: &'b [Option<Node<'b>>]) -> Option<Split<'b>>
    ensures step { (ps : List Part) → IsLeft (P.Found fields.entry nodes.entry) ps → Splits ps result }
    ensures fewer { IfSome result (λ r. parts_left r.1 < parts_left (P.Found fields.entry nodes.entry)) }
    ensures within { (rows : List Row) → AreWithin rows (P.Found fields.entry nodes.entry) → IfSome result (AreWithinBoth rows) }
{
    let Some((field, behind)) = fields.split_first() else {
        return None;
    };
    let Some((node, others)) = nodes.split_first() else {
        return None;
    };
    match node {
        Some(node) => Some((Some((field.slot, *node)), Parts::Found(behind, others))),
        None => Some((None, Parts::Found(behind, others))),
    }
}

impl<'b> Parts<'b> {
    /// The first part, where one stands there, and those behind it; or `None` where none is left.
    pub(crate) fn split_first(&self) -> Option<Split<'b>>
        ensures step { (ps : List Part) → IsLeft self.now ps → Splits ps result }
        ensures fewer { IfSome result (λ r. parts_left r.1 < parts_left self.now) }
        ensures within { (rows : List Row) → AreWithin rows self.now → IfSome result (AreWithinBoth rows) }
    {
        match self {
            Parts::Items(slot, items) => first_item(*slot, *items),
            Parts::Entries(slot, entries) => first_entry(*slot, *entries),
            Parts::Pairs(slot, items) => first_pair(*slot, *items),
            Parts::Bucket(slot, items) => first_held(*slot, *items),
            Parts::Ordered(fields, items) => first_ordered(fields, *items),
            Parts::Found(fields, nodes) => first_found(fields, nodes),
        }
    }
}
