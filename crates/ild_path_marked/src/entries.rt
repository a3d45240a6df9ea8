//! Members in maps: as the value of an entry, or as the entries beside that of the discriminant.
ghost use Rattle.std.specs.Prelude.{◌≡◌, Some, ℕ};
ghost use Rattle.ild_cbor.specs.Nodes.{HasData};
ghost use Rattle.ild_cbor.specs.Scalar.{count_of};
ghost use Rattle.ild_data.specs.Data.{Data};
ghost use Rattle.ild_path_marked.specs.inside.Parts.{has_place};
ghost use Rattle.ild_path_marked.specs.Tells.{Tells};
ghost use Rattle.ild_schema.specs.declared.def.UnionForm.TheVariants as F;
ghost use Rattle.ild_typed.specs.Composed.{marked_form};

use crate::part::Part;
use crate::write::made;
use ild_cbor::{Kind, Node};
use ild_data::{Octets, key_order};
use ild_splice::{SpliceErr, entries_around};
use std::alloc::Global;
use std::cmp::Ordering;

/// A map of one entry, whose key is the discriminant.
pub(crate) fn keyed(alloc: Global, name: &str, part: &Node<'_>) -> Result<Option<Octets>, SpliceErr>
    ensures { (d : Data) → HasData part.now d → Tells (marked_form F.Keyed d name.now) result }
{
    made(
        alloc,
        &[
            Part::Map(1),
            Part::Text(name),
            Part::Spelled(part.spelling()),
        ],
    )
}

/// A map of the discriminant under one key and the member under another, in the order of the keys.
pub(crate) fn envelope<'t>(
    alloc: Global,
    key: &'t str,
    content: &'t str,
    name: &'t str,
    part: &Node<'_>,
) -> Result<Option<Octets>, SpliceErr>
    ensures { (d : Data) → HasData part.now d → Tells (marked_form (F.Envelope key.now content.now) d name.now) result }
{
    let member = Part::Spelled(part.spelling());
    match key_order(key, content) {
        Ordering::Less => made(
            alloc,
            &[
                Part::Map(2),
                Part::Text(key),
                Part::Text(name),
                Part::Text(content),
                member,
            ],
        ),
        Ordering::Equal => made(alloc, &[Part::Map(1), Part::Text(key), Part::Text(name)]),
        Ordering::Greater => made(
            alloc,
            &[
                Part::Map(2),
                Part::Text(content),
                member,
                Part::Text(key),
                Part::Text(name),
            ],
        ),
    }
}

// Whether an item is a map without a key.
fn has_place(part: &Node<'_>, key: &str) -> bool
    ensures { (d : Data) → HasData part.now d → result ≡ has_place key.now d }
{
    let Kind::Map = part.kind() else {
        return false;
    };
    match part.entry(key) {
        Some(_) => false,
        None => true,
    }
}

// How many entries a map has.
fn entry_count(map: &Node<'_>) -> u64
    ensures { (d : Data) (n : ℕ) → HasData map.now d → count_of d ≡ Some n → result ≡ n }
{
    map.count().unwrap_or(0)
}

/// The entries of the member and that of the discriminant at its place among them.
pub(crate) fn inline<'t>(
    alloc: Global,
    key: &'t str,
    name: &'t str,
    part: &Node<'_>,
) -> Result<Option<Octets>, SpliceErr>
    ensures { (d : Data) → HasData part.now d → Tells (marked_form (F.Inline key.now) d name.now) result }
{
    if !has_place(part, key) {
        return Ok(None);
    }
    let count = entry_count(part).saturating_add(1);
    let (before, after) = entries_around(part, key);
    made(
        alloc,
        &[
            Part::Map(count),
            Part::Spelled(before),
            Part::Text(key),
            Part::Text(name),
            Part::Spelled(after),
        ],
    )
}
