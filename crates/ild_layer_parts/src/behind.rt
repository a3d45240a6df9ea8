//! What is left behind the first parts of which a kind tells that they are values.
ghost use Rattle.std.specs.Prelude.{◌≡◌, ◌<◌, ℕ, IfSome, List, None, map};
ghost use Rattle.ild_cbor.specs.Steps.{HasItems};
ghost use Rattle.ild_cbor.specs.declared.kind.Kind.TheVariants as K;
ghost use Rattle.ild_cbor.specs.declared.piece.Piece.{Piece};
ghost use Rattle.ild_data.specs.Data.{Data, Items as Parts, items_of};
ghost use Rattle.ild_layer_piece.specs.Entries.{HasLeft as EntriesLeft};
ghost use Rattle.ild_schema.specs.Slots.{plainly};
ghost use Rattle.ild_schema.specs.declared.row.Row.{Row};
ghost use Rattle.ild_typed.specs.Spots.{Spot};
ghost use Rattle.ild_typed.specs.Strings.{pair_data};
ghost use Rattle.ild_layer_parts.specs.Elements.{HasElements};
ghost use Rattle.ild_layer_parts.specs.Entries.{HasEntries};
ghost use Rattle.ild_layer_parts.specs.PassedOver.{AreInside};
ghost use Rattle.ild_layer_parts.specs.inside.Leaf.{BehindEntry, BehindItem, BehindPair, FitsOfKind, PassesOver};
ghost use Rattle.ild_layer_parts.specs.PairEntries.{HasPairs};
ghost use Rattle.ild_layer_parts.specs.Parts.{HasLeft, SplitsOff};
ghost use Rattle.ild_layer_parts.specs.Ready.{AreReady, IsIn};

use crate::elements::Elements;
use crate::entries::Entries;
use crate::leaf::leaf_kind;
use crate::pair_entries::PairEntries;
use crate::parts::Parts as Left;
use crate::past_fields::past_fields;
use ild_cbor::{Items, Kind};
use ild_layer_pairs::first_pair;
use ild_layer_piece::MapEntries;
use ild_schema::{Accepted, Slot, TypeNo};

// The items behind the first one, where it has a kind.
fn behind_item<'b>(items: &Items<'b>, wanted: Kind) -> Option<Items<'b>>
    ensures behind { (ds : Parts) → HasItems items.now ds → BehindItem wanted ds result }
    ensures fewer { IfSome result (λ r. r.left < items.now.left) }
{
    let mut left = *items;
    let item = left.next()?;
    if item.kind() == wanted {
        Some(left)
    } else {
        None
    }
}

// The entries behind the first one, where its value has a kind.
fn behind_entry<'b>(entries: &MapEntries<'b>, wanted: Kind) -> Option<MapEntries<'b>>
    ensures behind { (es : List (List ℕ × Data)) → EntriesLeft entries.now es → BehindEntry wanted es result }
    ensures fewer { IfSome result (λ r. r.pairs.left < entries.now.pairs.left) }
{
    let mut left = *entries;
    let (_, value) = left.next()?;
    if value.kind() == wanted {
        Some(left)
    } else {
        None
    }
}

// The pairs behind the first one, where its value has a kind.
fn behind_pair<'b>(items: &Items<'b>, wanted: Kind) -> Option<Items<'b>>
    ensures behind { (es : List (List ℕ × Data)) → HasItems items.now (items_of (map pair_data es)) → BehindPair wanted es result }
    ensures fewer { IfSome result (λ r. r.left < items.now.left) }
{
    let (_, value, left) = first_pair(items)?;
    if value.kind() == wanted {
        Some(left)
    } else {
        None
    }
}

// The elements behind the first ones that have a kind.
fn behind_elements<'b>(elements: Elements<'b>, wanted: Kind) -> Elements<'b>
    ensures passes { (rows : List Row) (ps : List Spot) → FitsOfKind rows elements.entry.slot wanted → HasElements elements.entry ps → PassesOver rows ps (HasElements result) }
    ensures slot { result.slot ≡ elements.entry.slot }
{
    let mut items = elements.items;
    let mut place = elements.place;
    while let Some(behind) = behind_item(&items, wanted) {
        items = behind;
        place = place.saturating_add(1);
    }
    Elements {
        slot: elements.slot,
        items,
        place,
    }
}

// The entries behind the first ones whose values have a kind.
fn behind_entries<'b>(entries: Entries<'b>, wanted: Kind) -> Entries<'b>
    requires { entries.held ≡ None }
    ensures passes { (rows : List Row) (ps : List Spot) → FitsOfKind rows (plainly entries.entry.key) K.Text
        → FitsOfKind rows entries.entry.value wanted → HasEntries entries.entry ps → PassesOver rows ps (HasEntries result) }
    ensures key { result.key ≡ entries.entry.key }
    ensures value { result.value ≡ entries.entry.value }
{
    let mut left = entries.left;
    while let Some(behind) = behind_entry(&left, wanted) {
        left = behind;
    }
    Entries {
        key: entries.key,
        value: entries.value,
        left,
        held: None,
    }
}

// The pairs behind the first ones whose values have a kind.
fn behind_pairs<'b>(pairs: PairEntries<'b>, wanted: Kind) -> PairEntries<'b>
    requires { pairs.held ≡ None }
    ensures passes { (rows : List Row) (ps : List Spot) → FitsOfKind rows (plainly pairs.entry.key) K.Text
        → FitsOfKind rows pairs.entry.value wanted → HasPairs pairs.entry ps → PassesOver rows ps (HasPairs result) }
    ensures key { result.key ≡ pairs.entry.key }
    ensures value { result.value ≡ pairs.entry.value }
{
    let mut items = pairs.items;
    let mut place = pairs.place;
    while let Some(behind) = behind_pair(&items, wanted) {
        items = behind;
        place = place.saturating_add(1);
    }
    PairEntries {
        key: pairs.key,
        value: pairs.value,
        items,
        place,
        held: None,
    }
}

// The elements behind the first ones that are leaves.
fn past_elements<'b>(acc: &'b Accepted, elements: Elements<'b>) -> Elements<'b>
    requires { IsIn acc.now elements.slot }
    ensures passes { (ps : List Spot) → HasElements elements.entry ps → PassesOver acc.now ps (HasElements result) }
    ensures slot { result.slot ≡ elements.entry.slot }
{
    match leaf_kind(acc, elements.slot) {
        Some(wanted) => behind_elements(elements, wanted),
        None => elements,
    }
}

// The kind of the values of a map, where texts alone tell its keys and a kind its values.
fn leaf_value(acc: &Accepted, key: TypeNo, value: Slot) -> Option<Kind>
    requires key { IsIn acc.now (plainly key) }
    requires value { IsIn acc.now value }
    ensures keys { IfSome result (λ k. FitsOfKind acc.now (plainly key) K.Text) }
    ensures values { IfSome result (FitsOfKind acc.now value) }
{
    let key = Slot {
        ty: key,
        nullable: false,
    };
    match leaf_kind(acc, key) {
        Some(Kind::Text) => leaf_kind(acc, value),
        _ => None,
    }
}

// The pairs behind the first ones whose keys and values are leaves.
fn past_pairs<'b>(acc: &'b Accepted, pairs: PairEntries<'b>) -> PairEntries<'b>
    requires key { IsIn acc.now (plainly pairs.key) }
    requires value { IsIn acc.now pairs.value }
    ensures passes { (ps : List Spot) → HasPairs pairs.entry ps → PassesOver acc.now ps (HasPairs result) }
    ensures key { result.key ≡ pairs.entry.key }
    ensures value { result.value ≡ pairs.entry.value }
{
    match pairs.held {
        Some(_) => return pairs,
        None => {}
    }
    match leaf_value(acc, pairs.key, pairs.value) {
        Some(wanted) => behind_pairs(pairs, wanted),
        None => pairs,
    }
}

// The entries behind the first ones whose keys and values are leaves.
fn past_entries<'b>(acc: &'b Accepted, entries: Entries<'b>) -> Entries<'b>
    requires key { IsIn acc.now (plainly entries.key) }
    requires value { IsIn acc.now entries.value }
    ensures passes { (ps : List Spot) → HasEntries entries.entry ps → PassesOver acc.now ps (HasEntries result) }
    ensures key { result.key ≡ entries.entry.key }
    ensures value { result.value ≡ entries.entry.value }
{
    match entries.held {
        Some(_) => return entries,
        None => {}
    }
    match leaf_value(acc, entries.key, entries.value) {
        Some(wanted) => behind_entries(entries, wanted),
        None => entries,
    }
}

/// What is left of the parts behind the first ones of which a kind tells enough.
pub fn behind_leaves<'b>(acc: &'b Accepted, parts: Left<'b>) -> Left<'b>
    requires { AreReady acc.now parts }
    ensures passes { (ps : List Spot) → HasLeft acc.now parts.entry ps → SplitsOff acc.now ps None result }
    ensures ready { AreReady acc.now result }
    ensures inside { (ty : ℕ) (y : Piece) → AreInside acc.now ty y parts.entry → AreInside acc.now ty y result }
{
    match parts {
        Left::List(elements) => Left::List(past_elements(acc, elements)),
        Left::Map(entries) => Left::Map(past_entries(acc, entries)),
        Left::Struct(fields) => Left::Struct(past_fields(acc, fields)),
        Left::Pairs(pairs) => Left::Pairs(past_pairs(acc, pairs)),
        _ => parts,
    }
}
