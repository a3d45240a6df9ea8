//! Two trees of blocks, walked in step.
ghost use Rattle.std.specs.Prelude.{◌<◌, OnOk, length, map};
ghost use Rattle.ild_beneath.specs.Children.{children_of};
ghost use Rattle.ild_compare.specs.inside.Fetching.{FetchesBoth};
ghost use Rattle.ild_compare.specs.inside.Spots.{Grows};
ghost use Rattle.ild_compare.specs.inside.Steps.{Steps};
ghost use Rattle.ild_compare.specs.inside.Walked.{Walks};
ghost use Rattle.ild_dirty.specs.Beneath.{child_seen};

use crate::fetch::fetch;
use crate::spots::{Numbers, add_all};
use ild_beneath_read::told_children;
use ild_data::{BlockId, Octets};
use ild_dirty::Child;
use ild_edges::Store;
use ild_open_parts::OpenFault;
use ild_schema::{Accepted, TypeNo};
use std::alloc::{AllocError, Global};
use std::collections::BTreeMap;

// The blocks under an id in both stores.
fn both<K: Store, L: Store>(
    id: &BlockId,
    left: &mut K,
    right: &mut L,
) -> Result<(Octets, Octets), OpenFault>
    ensures { FetchesBoth id.now.0 (K.moment left.old) (L.moment right.old) result (K.moment left.new) (L.moment right.new) }
{
    let first = fetch(id, left)?;
    let second = fetch(id, right)?;
    Ok((first, second))
}

// Adds the places of the children that a block tells.
fn add_told(
    alloc: Global,
    acc: &Accepted,
    ty: TypeNo,
    kind: u32,
    block: &[u8],
    list: &mut Vec<Child>,
    numbers: &mut Numbers,
) -> Result<(), AllocError>
    requires { ty.0 < length acc.now }
    ensures { OnOk result (Grows (children_of acc.now ty kind block.now) (map child_seen list.old.items) (map child_seen list.new.items)) }
{
    let found = told_children(alloc, acc, ty, kind, block)?;
    add_all(list, numbers, found.as_slice())
}

// Gets the blocks of a place in both stores: two that differ, or none, where the places of the children are added.
fn step<K: Store, L: Store>(
    alloc: Global,
    acc: &Accepted,
    ty: TypeNo,
    child: Child,
    list: &mut Vec<Child>,
    numbers: &mut Numbers,
    left: &mut K,
    right: &mut L,
) -> Result<Option<(Octets, Octets)>, OpenFault>
    requires { ty.0 < length acc.now }
    ensures { Steps acc.now ty (K.moment left.old) (L.moment right.old) (child_seen child) (map child_seen list.old.items)
        result (map child_seen list.new.items) (K.moment left.new) (L.moment right.new) }
{
    let pair = both(&child.id, left, right)?;
    if pair.0.as_slice() == pair.1.as_slice() {
        let block = pair.0.as_slice();
        add_told(alloc, acc, ty, child.kind, block, list, numbers)?;
        return Ok(None);
    }
    Ok(Some(pair))
}

/// The first two blocks that differ under one id, of those to which a root block leads in both stores; or none. Each place is met once.
pub(crate) fn walk<K: Store, L: Store>(
    alloc: Global,
    acc: &Accepted,
    ty: TypeNo,
    root: &[u8],
    left: &mut K,
    right: &mut L,
) -> Result<Option<(Octets, Octets)>, OpenFault>
    requires { ty.0 < length acc.now }
    ensures { Walks acc.now ty root.now (K.moment left.old) (L.moment right.old) result (K.moment left.new) (L.moment right.new) }
{
    let mut list = Vec::new(alloc);
    let mut numbers = BTreeMap::new(alloc);
    add_told(alloc, acc, ty, 0, root, &mut list, &mut numbers)?;
    let mut passed = 0;
    while passed < list.len() {
        let child = list[passed];
        let parted = step(alloc, acc, ty, child, &mut list, &mut numbers, left, right)?;
        match parted {
            Some(pair) => return Ok(Some(pair)),
            None => passed += 1,
        }
    }
    Ok(None)
}
