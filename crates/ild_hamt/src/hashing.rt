//! The hashes of the keys where a way ends: each key is hashed once, when the way is read.
ghost use Rattle.std.specs.Prelude.{◌≡◌, ◌++◌, ◌∷◌, [], ℕ, List, slice_get, IfOk, OnOk};
ghost use Rattle.ild_data.specs.ByteOrder.{without};
ghost use Rattle.ild_data.specs.Data.{Data};
ghost use Rattle.ild_data.specs.Trie.{TrieSlot, bucket_entries};
ghost use Rattle.ild_node.specs.Keyed.{keyed_rows};
ghost use Rattle.ild_node.specs.Rows.{row_seen, rows_seen};
ghost use Rattle.ild_node_slots.specs.Views.{HasEntries};
ghost use Rattle.ild_bulk.specs.Keyed.{AreKeyed};
ghost use Rattle.ild_hamt.specs.Ends.{hashes_of};
ghost use Rattle.ild_hamt_climb.specs.inside.Gathering.{some_entry};
ghost use Rattle.ild_hamt_climb.specs.Seen.{IsReadOf};

use ild_data::KeyHash;
use ild_node::{Bucket, Keyed, NodeSlot, Row};
use std::alloc::{AllocError, Global};

fn push_hash<H: KeyHash>(key: &str, keys: &H, hashes: &mut Vec<[u8; 32]>) -> Result<(), AllocError>
    ensures { OnOk result (hashes.new.items ≡ hashes.old.items ++ H.hash_of key.now ∷ []) }
{
    let hash = keys.hash(key.as_bytes());
    hashes.push(hash)?;
    Ok(())
}

// Appends the hash of the key of an entry, unless it is this key.
fn add_hash<H: KeyHash>(
    bucket: Bucket<'_>,
    i: usize,
    key: &str,
    keys: &H,
    hashes: &mut Vec<[u8; 32]>,
) -> Result<(), AllocError>
    ensures { (es : List (List ℕ × Data)) → HasEntries bucket.entry es → OnOk result (hashes.new.items ≡ hashes.old.items ++ hashes_of H.hash_of (without key.now (some_entry (slice_get es i)))) }
{
    match bucket.entry(i) {
        Some((other, _)) => {
            if other == key {
                return Ok(());
            }
            push_hash(other, keys, hashes)
        }
        None => Ok(()),
    }
}

// The hashes of the keys of a bucket, but for this key.
fn bucket_hashes<H: KeyHash>(
    alloc: Global,
    bucket: Bucket<'_>,
    key: &str,
    keys: &H,
) -> Result<Vec<[u8; 32]>, AllocError>
    ensures { (es : List (List ℕ × Data)) → HasEntries bucket.entry es → IfOk result (λ hashes. hashes.items ≡ hashes_of H.hash_of (without key.now es)) }
{
    let mut hashes = Vec::new(alloc);
    for i in 0..bucket.len() {
        add_hash(bucket, i, key, keys, &mut hashes)?;
    }
    Ok(hashes)
}

/// The hashes of the keys in a slot, but for this key.
pub(crate) fn other_hashes<H: KeyHash>(
    alloc: Global,
    slot: NodeSlot<'_>,
    key: &str,
    keys: &H,
) -> Result<Vec<[u8; 32]>, AllocError>
    ensures { (s : TrieSlot) → IsReadOf slot.entry s → IfOk result (λ hashes. hashes.items ≡ hashes_of H.hash_of (without key.now (bucket_entries s))) }
{
    match slot {
        NodeSlot::Bucket(bucket) => bucket_hashes(alloc, bucket, key, keys),
        NodeSlot::Empty => Ok(Vec::new(alloc)),
        NodeSlot::Child(_) => Ok(Vec::new(alloc)),
    }
}

// The hash of a row's key: that of this key, or the first of those that are left for other rows; and what is left behind it.
fn take_hash<'h>(
    row: &Row,
    key: &str,
    hash: &[u8; 32],
    left: &'h [[u8; 32]],
) -> ([u8; 32], &'h [[u8; 32]])
    ensures { (h : List ℕ → List ℕ) (es : List (List ℕ × Data)) → hash.now ≡ h key.now → left.now ≡ hashes_of h (without key.now (row_seen row.now ∷ es))
        → (result.0 ≡ h row.now.key) × (result.1.now ≡ hashes_of h (without key.now es)) }
{
    if row.key.as_str() == key {
        return (*hash, left);
    }
    match left.split_first() {
        Some((first, rest)) => (*first, rest),
        None => (*hash, left),
    }
}

/// Rows with the hashes of their keys, which are known: that of this key, and those of the other rows in their order.
pub(crate) fn keyed<'r>(
    alloc: Global,
    rows: &'r [Row],
    key: &str,
    hash: &[u8; 32],
    others: &[[u8; 32]],
) -> Result<Vec<Keyed<'r>>, AllocError>
    ensures rows { IfOk result (λ ks. keyed_rows ks.items ≡ rows_seen rows.now) }
    ensures hashes { (h : List ℕ → List ℕ) → hash.now ≡ h key.now → others.now ≡ hashes_of h (without key.now (rows_seen rows.now)) → IfOk result (λ ks. AreKeyed h ks.items) }
{
    let mut keyed = Vec::new(alloc);
    let mut left = others;
    for row in rows {
        let (known, rest) = take_hash(row, key, hash, left);
        keyed.push(Keyed { row, hash: known })?;
        left = rest;
    }
    Ok(keyed)
}
