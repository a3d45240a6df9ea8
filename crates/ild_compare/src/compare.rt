//! The trees of two documents, compared.
ghost use Rattle.std.specs.Prelude.{◌≡◌, ◌≢◌, true, false};
ghost use Rattle.ild_compare.specs.Compared.{Compares, root_in};
ghost use Rattle.ild_compare.specs.inside.Copied.{Copies, compared_as};
ghost use Rattle.ild_view_doc.specs.Docs.{block_in, table_in, type_in};

use crate::compared::Compared;
use crate::walk::walk;
use ild_data::{KeyHash, Octets};
use ild_edges::Store;
use ild_open_parts::OpenFault;
use ild_view_doc::Doc;
use std::alloc::{AllocError, Global};

// Whether the roots of two documents differ.
fn roots_differ(left: &Doc<'_>, right: &Doc<'_>) -> bool
    ensures same { result ≡ false → root_in left.now ≡ root_in right.now }
    ensures other { result ≡ true → root_in left.now ≢ root_in right.now }
{
    left.root() != right.root()
}

// Whether their root blocks do.
fn blocks_differ(left: &Doc<'_>, right: &Doc<'_>) -> bool
    ensures same { result ≡ false → block_in left.now ≡ block_in right.now }
    ensures other { result ≡ true → block_in left.now ≢ block_in right.now }
{
    left.block() != right.block()
}

// Two blocks, as what was told apart.
fn collision(alloc: Global, first: &[u8], second: &[u8]) -> Result<Compared, AllocError>
    ensures { Copies first.now second.now result }
{
    let first = Octets::of(alloc, first)?;
    let second = Octets::of(alloc, second)?;
    Ok(Compared::Collide(first, second))
}

// What a walk found, as what is told.
fn compared(parted: Option<(Octets, Octets)>) -> Compared
    ensures { result ≡ compared_as parted }
{
    match parted {
        Some((first, second)) => Compared::Collide(first, second),
        None => Compared::Same,
    }
}

/// Compares the trees of two documents of one schema and type, each in its store, from the roots on: first the roots, then along equal
/// ids the blocks under each, by one get in each store for each place that is met. `Other` comes exactly where the roots differ, `Same`
/// only where the documents stand for one value, and `Collide` tells the first two blocks that differ under one id: one of the value of
/// each. `Block` never comes where both stand for a value: the block lacks in one of the stores.
pub fn compare_trees<K: Store, L: Store, H: KeyHash>(
    alloc: Global,
    left: &Doc<'_>,
    left_store: &mut K,
    right: &Doc<'_>,
    right_store: &mut L,
    _keys: &H,
) -> Result<Compared, OpenFault>
    requires one_table { table_in right.now ≡ table_in left.now }
    requires one_type { type_in right.now ≡ type_in left.now }
    ensures { Compares H.hash_of left.now right.now (K.moment left_store.old) (L.moment right_store.old) result (K.moment left_store.new) (L.moment right_store.new) }
{
    left.schema().recall();
    if roots_differ(left, right) {
        return Ok(Compared::Other);
    }
    if blocks_differ(left, right) {
        return Ok(collision(alloc, left.block(), right.block())?);
    }
    match walk(
        alloc,
        left.schema(),
        left.ty(),
        left.block(),
        left_store,
        right_store,
    ) {
        Ok(parted) => Ok(compared(parted)),
        Err(fault) => Err(fault),
    }
}
