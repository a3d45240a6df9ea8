//! The places that a walk has met, each once.
ghost use Rattle.std.specs.Prelude.{◌≡◌, ◌∷◌, [], OnOk, true, Contains, map};
ghost use Rattle.ild_compare.specs.inside.Spots.{Grows};
ghost use Rattle.ild_dirty.specs.Beneath.{child_seen};

use ild_dirty::Child;
use std::alloc::AllocError;
use std::collections::BTreeMap;

/// Where a place probably stands in a list of places.
pub(crate) type Numbers = BTreeMap<([u8; 32], u32), usize>;

// Whether two places are one.
fn is_same(a: &Child, b: &Child) -> bool
    ensures { result ≡ true → child_seen a.now ≡ child_seen b.now }
{
    a.id == b.id && a.kind == b.kind
}

// Whether a place is the one with a number.
fn is_at(list: &[Child], number: usize, child: &Child) -> bool
    ensures { result ≡ true → Contains (map child_seen list.now) (child_seen child.now) }
{
    match list.get(number) {
        Some(spot) => is_same(spot, child),
        None => false,
    }
}

// Whether a place is among those.
fn is_among(list: &[Child], numbers: &Numbers, child: &Child) -> bool
    ensures { result ≡ true → Contains (map child_seen list.now) (child_seen child.now) }
{
    match numbers.get(&(child.id.0, child.kind)) {
        Some(number) => is_at(list, *number, child),
        None => false,
    }
}

// Adds a place, where it isn't there.
fn add(list: &mut Vec<Child>, numbers: &mut Numbers, child: &Child) -> Result<(), AllocError>
    ensures { OnOk result (Grows (child_seen child.now ∷ []) (map child_seen list.old.items) (map child_seen list.new.items)) }
{
    if is_among(list, numbers, child) {
        return Ok(());
    }
    numbers.insert((child.id.0, child.kind), list.len())?;
    list.push(*child)?;
    Ok(())
}

/// Adds those places that aren't there.
pub(crate) fn add_all(
    list: &mut Vec<Child>,
    numbers: &mut Numbers,
    found: &[Child],
) -> Result<(), AllocError>
    ensures { OnOk result (Grows (map child_seen found.now) (map child_seen list.old.items) (map child_seen list.new.items)) }
{
    for child in found {
        add(list, numbers, child)?;
    }
    Ok(())
}
