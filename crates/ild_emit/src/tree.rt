//! Whole trees, and the links in them.
ghost use Rattle.std.specs.Prelude.{◌≡◌, ◌++◌, ◌∷◌, ◌<◌, [], OnOk, OnErr};
ghost use Rattle.ild_data.specs.Spell.{head, spell, spell_int, spell_link};
ghost use Rattle.ild_data.specs.Data.{list, map};
ghost use Rattle.ild_data.specs.Seen.{data_of};
ghost use Rattle.ild_emit.specs.Grown.{IsGrown};
ghost use Rattle.ild_emit.specs.Simple.{simple_data};

use crate::head::{add_head, add_head_at_once, add_string};
use ild_data::{Entries, Int, Tree, Trees};
use std::alloc::AllocError;

/// The spelling of null, false and true (RFC 8949, section 3.3).
const NULL: u8 = 0xf6;

const FALSE: u8 = 0xf4;

const TRUE: u8 = 0xf5;

/// Appends a truth value or null, or leaves the buffer unchanged.
pub fn add_simple(out: &mut Vec<u8>, b: Option<bool>) -> Result<(), AllocError>
    ensures ok { OnOk result (out.new.items ≡ out.old.items ++ spell (simple_data b)) }
    ensures err { OnErr result (out.new.items ≡ out.old.items) }
{
    out.push(match b {
        None => NULL,
        Some(false) => FALSE,
        Some(true) => TRUE,
    })?;
    Ok(())
}

// The major type and the argument of an integer.
#[inline(always)]
fn major_and_argument(n: Int) -> (u8, u64)
    ensures low { result.0 < 6 }
    ensures same { head result.0 result.1 ≡ spell_int n }
{
    let n = n.get();
    if n >= 0 {
        (0, n as u64)
    } else {
        (1, (-1 - n) as u64)
    }
}

/// Appends an integer, or leaves the buffer unchanged.
#[inline(always)]
pub fn add_int(out: &mut Vec<u8>, n: Int) -> Result<(), AllocError>
    ensures ok { OnOk result (out.new.items ≡ out.old.items ++ spell_int n) }
    ensures err { OnErr result (out.new.items ≡ out.old.items) }
{
    let (major, argument) = major_and_argument(n);
    add_head_at_once(out, major, argument)
}

/// Appends a link to a binary CID, or leaves the buffer unchanged.
pub fn add_whole_link(out: &mut Vec<u8>, cid: &[u8]) -> Result<(), AllocError>
    ensures ok { OnOk result (out.new.items ≡ out.old.items ++ spell_link cid.now) }
    ensures err { OnErr result (out.new.items ≡ out.old.items) }
{
    let before = out.len();
    if let Err(e) = add_link(out, cid) {
        out.truncate(before);
        return Err(e);
    }
    Ok(())
}

/// Appends a tree, or leaves the buffer unchanged.
pub fn add_whole_tree(out: &mut Vec<u8>, tree: &Tree) -> Result<(), AllocError>
    ensures ok { OnOk result (out.new.items ≡ out.old.items ++ spell (data_of tree.now)) }
    ensures err { OnErr result (out.new.items ≡ out.old.items) }
{
    let before = out.len();
    if let Err(e) = add_tree(out, tree) {
        out.truncate(before);
        return Err(e);
    }
    Ok(())
}

// Appends a link: tag 42 and the CID behind a byte 00 (DAG-CBOR, "Links"). An error may leave the front of it.
fn add_link(out: &mut Vec<u8>, cid: &[u8]) -> Result<(), AllocError>
    ensures ok { OnOk result (out.new.items ≡ out.old.items ++ spell_link cid.now) }
    ensures err { OnErr result (IsGrown out.old.items out.new.items) }
{
    out.extend_from_slice(&[0xd8, 42])?;
    add_head(out, 2, cid.len() as u64 + 1)?;
    out.push(0)?;
    out.extend_from_slice(cid)
}

// Appends a tree. An error may leave the front of it.
#[cycle(add)]
fn add_tree(out: &mut Vec<u8>, tree: &Tree) -> Result<(), AllocError>
    ensures ok { OnOk result (out.new.items ≡ out.old.items ++ spell (data_of tree.now)) }
    ensures err { OnErr result (IsGrown out.old.items out.new.items) }
{
    match tree {
        Tree::Null => add_simple(out, None),
        Tree::Bool(b) => add_simple(out, Some(*b)),
        Tree::Int(n) => add_int(out, *n),
        Tree::Text(text) => add_string(out, 3, text.as_str().as_bytes()),
        Tree::Bytes(bytes) => add_string(out, 2, bytes.as_slice()),
        Tree::List(trees) => add_trees(out, trees),
        Tree::Map(entries) => add_entries(out, entries),
        Tree::Link(cid) => add_link(out, cid.as_slice()),
    }
}

// Appends a list: its count, and its items in order.
#[cycle(add)]
fn add_trees(out: &mut Vec<u8>, trees: &Trees) -> Result<(), AllocError>
    ensures ok { OnOk result (out.new.items ≡ out.old.items ++ spell (list trees.now)) }
    ensures err { OnErr result (IsGrown out.old.items out.new.items) }
{
    add_head(out, 4, trees.len() as u64)?;
    for tree in trees.as_slice() {
        add_tree(out, tree)?;
    }
    Ok(())
}

// Appends a map: its count, and each key before its value in the key order.
#[cycle(add)]
fn add_entries(out: &mut Vec<u8>, entries: &Entries) -> Result<(), AllocError>
    ensures ok { OnOk result (out.new.items ≡ out.old.items ++ spell (map entries.now)) }
    ensures err { OnErr result (IsGrown out.old.items out.new.items) }
{
    add_head(out, 5, entries.len() as u64)?;
    for pair in entries.as_slice() {
        add_string(out, 3, pair.0.as_str().as_bytes())?;
        add_tree(out, &pair.1)?;
    }
    Ok(())
}
