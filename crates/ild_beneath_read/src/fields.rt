//! What stands for the fields of a struct under their names.
ghost use Rattle.std.specs.Prelude.{◌≡◌, [], ℕ, List, IfOk};
ghost use Rattle.ild_cbor.specs.Steps.{HasItems};
ghost use Rattle.ild_data.specs.Data.{Data, Items as Parts, items_list};
ghost use Rattle.ild_layer_piece.specs.Entries.{HasLeft};
ghost use Rattle.ild_schema.specs.Clear.{AreNamesApart};
ghost use Rattle.ild_typed.specs.Named.{pair_entries};
ghost use Rattle.ild_beneath_read.specs.inside.Fields.{AllFound, is_free, looked_up, noted};

use crate::pair::named;
use ild_cbor::{Items, Node};
use ild_layer_fields::Fields;
use ild_layer_piece::MapEntries;
use std::alloc::{AllocError, Global};

// Whether a place has nothing so far.
fn is_free(found: &[Option<Node<'_>>], place: usize) -> bool
    ensures { result ≡ is_free found.now place }
{
    match found.get(place) {
        Some(node) => match node {
            Some(_) => false,
            None => true,
        },
        None => false,
    }
}

// Notes a node at a place, where it has nothing so far.
fn note<'b>(found: &mut Vec<Option<Node<'b>>>, place: usize, node: Node<'b>)
    ensures { found.new.items ≡ noted place node.entry found.old.items }
{
    if is_free(found.as_slice(), place) {
        found[place] = Some(node);
    }
}

// Nothing is found yet.
fn none_found<'b>(alloc: Global, fields: &Fields<'_>) -> Result<Vec<Option<Node<'b>>>, AllocError>
    ensures { IfOk result (λ found. AllFound (looked_up fields.now.def.now.fields []) found.items) }
{
    let mut found = Vec::new(alloc);
    for _ in 0..fields.def.fields.len() {
        found.push(None)?;
    }
    Ok(found)
}

/// The value under each field's name among the entries of a map, in one pass.
pub(crate) fn found_in_map<'b>(
    alloc: Global,
    fields: &Fields<'_>,
    entries: MapEntries<'b>,
) -> Result<Vec<Option<Node<'b>>>, AllocError>
    requires { AreNamesApart fields.now.def.now.fields }
    ensures { IfOk result (λ found. (es : List (List ℕ × Data)) → HasLeft entries.entry es → AllFound (looked_up fields.now.def.now.fields es) found.items) }
{
    let order = fields.acc.in_key_order(fields.base);
    let mut found = none_found(alloc, fields)?;
    let mut left = entries;
    let mut guess = 0;
    while let Some((name, value)) = left.next() {
        let (place, next) = fields.place_by_key(name, order, guess);
        note(&mut found, place, value);
        guess = next;
    }
    Ok(found)
}

/// The same among the pairs of a list.
pub(crate) fn found_in_list<'b>(
    alloc: Global,
    fields: &Fields<'_>,
    items: Items<'b>,
) -> Result<Vec<Option<Node<'b>>>, AllocError>
    requires { AreNamesApart fields.now.def.now.fields }
    ensures { IfOk result (λ found. (ds : Parts) → HasItems items.entry ds → AllFound (looked_up fields.now.def.now.fields (pair_entries (items_list ds))) found.items) }
{
    let mut found = none_found(alloc, fields)?;
    let mut left = items;
    let mut guess: usize = 0;
    while let Some(item) = left.next() {
        let Some((name, value)) = named(&item) else {
            continue;
        };
        let place = fields.place(name, guess);
        note(&mut found, place, value);
        guess = place.saturating_add(1);
    }
    Ok(found)
}
