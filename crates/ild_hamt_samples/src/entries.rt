//! Entries, and the nodes of their HAMTs. The blocks are those of tests/hamt/trie.py, a plain trie in Python.
ghost use Rattle.std.specs.Prelude.{◌≡◌, ◌+◌, length, IfOk, OnOk};
ghost use Rattle.ild_bulk.specs.Build.{HasShortTrie};
ghost use Rattle.ild_hamt_samples.specs.Pairs.{entries_of};

use crate::rows::{push, rows_of};
use ild_bulk::from_entries;
use ild_data::{HamtShape, KeyHash, Octets};
use ild_edges::MemStore;
use ild_node::Rows;
use std::alloc::Global;
use std::test::Fail;

/// Keys of two bytes, of which the first is the index at depth 0.
pub const FOUR: [(&str, u8); 4] = [("\0\x01", 1), ("\0\x02", 2), ("\0\x03", 3), ("\0\x04", 4)];

pub const TWO_CHILDREN: [(&str, u8); 8] = [
    ("\x01\x01", 1),
    ("\x01\x02", 2),
    ("\x01\x03", 3),
    ("\x01\x04", 4),
    ("\x02\x01", 1),
    ("\x02\x02", 2),
    ("\x02\x03", 3),
    ("\x02\x04", 4),
];

pub const ABC: &[u8] =
    b"\x82\x58\x20\x00\x00\x00\x00\x00\x00\x00\x00\x00\x00\x00\x00\x00\x00\x00\x00\x00\x00\x00\x00\x00\x00\x00\x04\x00\x00\x00\x00\x00\x00\x00\x00\x81\x81\x82\x43\x61\x62\x63\x01";

pub const ROOT_OF_FOUR: &[u8] =
    b"\x82\x58\x20\x01\x00\x00\x00\x00\x00\x00\x00\x00\x00\x00\x00\x00\x00\x00\x00\x00\x00\x00\x00\x00\x00\x00\x00\x00\x00\x00\x00\x00\x00\x00\x00\x81\xd8\x2a\x58\x25\x00\x01\x71\x12\x20\x7d\x10\x5d\x38\xfa\x26\xfd\xeb\xff\x46\x24\x9f\x5c\x31\xf5\x98\x4d\x2c\xad\x8e\x59\xf6\x21\xc9\x4a\xf6\xcd\x77\x8d\x9a\x81\x0e";

pub const CHILD_OF_FOUR: &[u8] =
    b"\x82\x58\x20\x1e\x00\x00\x00\x00\x00\x00\x00\x00\x00\x00\x00\x00\x00\x00\x00\x00\x00\x00\x00\x00\x00\x00\x00\x00\x00\x00\x00\x00\x00\x00\x00\x84\x81\x82\x42\x00\x01\x01\x81\x82\x42\x00\x02\x02\x81\x82\x42\x00\x03\x03\x81\x82\x42\x00\x04\x04";

pub const ROOT_OF_THREE: &[u8] =
    b"\x82\x58\x20\x01\x00\x00\x00\x00\x00\x00\x00\x00\x00\x00\x00\x00\x00\x00\x00\x00\x00\x00\x00\x00\x00\x00\x00\x00\x00\x00\x00\x00\x00\x00\x00\x81\x83\x82\x42\x00\x01\x01\x82\x42\x00\x02\x02\x82\x42\x00\x03\x03";

/// The root node of the HAMT of this shape of these entries.
pub fn built<H: KeyHash>(
    alloc: Global,
    shape: HamtShape,
    pairs: &[(&str, u8)],
    keys: &H,
    store: &mut MemStore,
) -> Result<Octets, Fail>
    ensures { IfOk result (HasShortTrie H.hash_of shape (entries_of pairs.now)) }
{
    let rows = rows_of(alloc, pairs)?;
    match from_entries(alloc, shape, &rows, keys, store) {
        Ok(root) => Ok(root),
        Err(_) => Err("a root".into()),
    }
}

/// A letter of a number.
fn letter(n: u32, shift: u32) -> char {
    char::from(b'a' + (n.wrapping_shr(shift) % 16) as u8)
}

// Appends the row of a number, and of a number that was drawn with it.
fn push_drawn(alloc: Global, rows: &mut Rows, n: u16, drawn: u32) -> Result<(), Fail>
    ensures { OnOk result (length rows.new ≡ length rows.old + 1) }
{
    let mut key = String::new(alloc);
    for shift in [12, 8, 4, 0] {
        key.push(letter(n as u32, shift))?;
    }
    for shift in [28, 24, 20, 16] {
        key.push(letter(drawn, shift))?;
    }
    let mut value = ild_emit::Emit::new(alloc);
    value.head(0, n as u64)?;
    push(alloc, rows, key.as_str(), value.finish().as_slice())
}

/// So many rising keys of eight letters: four that count, and four of a linear congruential generator.
pub fn pseudo_random(alloc: Global, count: u16) -> Result<Rows, Fail>
    ensures { IfOk result (λ rows. length rows ≡ count) }
{
    let mut rows = Rows::new(alloc);
    let mut state: u32 = 1;
    for n in 0..count {
        state = state.wrapping_mul(1_103_515_245).wrapping_add(12345) % 0x8000_0000;
        push_drawn(alloc, &mut rows, n, state)?;
    }
    Ok(rows)
}
