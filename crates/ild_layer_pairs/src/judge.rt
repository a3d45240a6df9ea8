//! Whether the items of a list are pairs, whose keys stand once.
ghost use Rattle.std.specs.Prelude.{◌≡◌, List, IfOk};
ghost use Rattle.ild_cbor.specs.Steps.{HasItems};
ghost use Rattle.ild_data.specs.Data.{Items as Parts, items_list};
ghost use Rattle.ild_layer_pairs.specs.Judged.{IsJudged, cause_of};

use crate::apart::plainly_apart;
use crate::keys::is_new;
use crate::shape::{Shape, shape_of};
use ild_cbor::{Items, Why};
use std::alloc::{AllocError, Global};
use std::collections::BTreeSet;

fn cause(miscounted: bool, repeated: bool) -> Option<Why>
    ensures { result ≡ cause_of miscounted repeated }
{
    if miscounted {
        return Some(Why::Count);
    }
    if repeated { Some(Why::Repeat) } else { None }
}

/// The first cause why the items are no pairs of a map.
pub fn pairs_cause(alloc: Global, items: Items<'_>) -> Result<Option<Why>, AllocError>
    ensures { IfOk result (λ why. (ds : Parts) → HasItems items.entry ds → IsJudged (items_list ds) why) }
{
    if plainly_apart(alloc, items)? {
        return Ok(None);
    }
    met_cause(alloc, items)
}

// The same, where each key is kept once it was met.
fn met_cause(alloc: Global, items: Items<'_>) -> Result<Option<Why>, AllocError>
    ensures { IfOk result (λ why. (ds : Parts) → HasItems items.entry ds → IsJudged (items_list ds) why) }
{
    let mut seen = BTreeSet::new(alloc);
    let mut miscounted = false;
    let mut repeated = false;
    let mut left = items;
    while let Some(item) = left.next() {
        match shape_of(&item) {
            Shape::Odd => return Ok(Some(Why::Kind)),
            Shape::Other => {
                miscounted = true;
            }
            Shape::Pair(key, _) => {
                repeated |= !is_new(&mut seen, key)?;
            }
        }
    }
    Ok(cause(miscounted, repeated))
}
