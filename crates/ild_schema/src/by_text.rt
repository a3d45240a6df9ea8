//! The fields and members of a type by their texts: numbers in the key order of the texts, which are compared in the table.
ghost use Rattle.std.specs.Prelude.{◌≡◌, IfOk, OnOk};
ghost use Rattle.std.specs.List.{position_from};
ghost use Rattle.ild_data.specs.Key.{Rises};
ghost use Rattle.ild_schema.specs.Parts.{is_text};
ghost use Rattle.ild_schema.specs.Indexed.{FindsParts, HasParts, HasPut, InKeyOrder, IsSeat, labels, under_texts};

use crate::label::{Label, count_parts, label_at, text_or_empty};
use crate::{Row, TypeDef};
use ild_data::{key_less, key_order};
use std::alloc::{AllocError, Global};

/// The numbers of a type's parts in the key order of their names, and in that of the texts under which they stand in a block.
/// Of parts with one text the first is there.
#[derive(Drop)]
pub(crate) struct PartIndex {
    pub(crate) names: Vec<usize>,
    pub(crate) texts: Vec<usize>,
}

// Where a text stands among those of parts that rise.
fn search(def: &TypeDef, label: Label, numbers: &[usize], text: &str) -> Result<usize, usize>
    requires { Rises (under_texts (labels label def.now) numbers.now) }
    ensures { IsSeat text.now (under_texts (labels label def.now) numbers.now) result }
{
    numbers.binary_search_by(|other| key_order(text_or_empty(def, label, *other), text))
}

// The same, where most texts come behind all that are there.
fn seat(def: &TypeDef, label: Label, numbers: &[usize], text: &str) -> Result<usize, usize>
    requires { Rises (under_texts (labels label def.now) numbers.now) }
    ensures { IsSeat text.now (under_texts (labels label def.now) numbers.now) result }
{
    let count = numbers.len();
    if count == 0 {
        return Err(0);
    }
    if key_less(text_or_empty(def, label, numbers[count - 1]), text) {
        return Err(count);
    }
    search(def, label, numbers, text)
}

// One part more, where none before it has its text.
fn put_first(
    def: &TypeDef,
    label: Label,
    numbers: &mut Vec<usize>,
    part: usize,
) -> Result<(), AllocError>
    requires { Rises (under_texts (labels label def.now) numbers.old.items) }
    ensures { OnOk result (HasPut (labels label def.now) part numbers.old.items numbers.new.items) }
{
    let Some(text) = label_at(def, label, part) else {
        return Ok(());
    };
    match seat(def, label, numbers, text) {
        Ok(_) => {}
        Err(i) => {
            numbers.insert(i, part)?;
        }
    }
    Ok(())
}

// The numbers of a type's parts in the key order of their texts. There are at most 1,024, so that moving those behind an
// inserted one costs less than the comparisons.
fn in_key_order(alloc: Global, def: &TypeDef, label: Label) -> Result<Vec<usize>, AllocError>
    ensures { IfOk result (λ numbers. InKeyOrder (labels label def.now) numbers.items) }
{
    let count = count_parts(def);
    let mut numbers = Vec::with_capacity(alloc, count)?;
    for part in 0..count {
        put_first(def, label, &mut numbers, part)?;
    }
    Ok(numbers)
}

/// The number of the first part that has a text.
pub(crate) fn part_with(def: &TypeDef, label: Label, numbers: &[usize], text: &str) -> Option<usize>
    requires { InKeyOrder (labels label def.now) numbers.now }
    ensures { result ≡ position_from (is_text text.now) 0 (labels label def.now) }
{
    match search(def, label, numbers, text) {
        Ok(i) => Some(numbers[i]),
        Err(_) => None,
    }
}

// The parts of a type by their texts.
fn parts_by_text(alloc: Global, def: &TypeDef) -> Result<PartIndex, AllocError>
    ensures { IfOk result (λ index. FindsParts def.now index) }
{
    let names = in_key_order(alloc, def, Label::Name)?;
    let texts = in_key_order(alloc, def, Label::Text)?;
    Ok(PartIndex { names, texts })
}

/// The parts of each type of a table by their texts.
pub(crate) fn parts_of(alloc: Global, rows: &[Row]) -> Result<Vec<PartIndex>, AllocError>
    ensures { IfOk result (λ parts. HasParts rows.now parts.items) }
{
    let mut parts = Vec::new(alloc);
    for row in rows {
        parts.push(parts_by_text(alloc, &row.def)?)?;
    }
    Ok(parts)
}
