//! From a tree to the tokens of its JSON text, part by part.
ghost use Rattle.std.specs.Prelude.{◌≡◌, ◌∷◌, [], IfOk, IfErr, OnOk, true, false};
ghost use Rattle.std.specs.List.Sorted.{IsPermutation, IsSortedByKey};
ghost use Rattle.json.specs.Token.{begin_object, key};
ghost use Rattle.ild_data.specs.ByteOrder.{bytewise};
ghost use Rattle.ild_data.specs.Data.{bytes, integer, link, list, map};
ghost use Rattle.ild_data.specs.Seen.{data_of};
ghost use Rattle.ild_json.specs.Printing.{has_reserved, items_have_reserved, is_slash_alone};
ghost use Rattle.ild_json.specs.Tokens.{Appends, AreBytewise, data_tokens, entries_seen};

use crate::PrintErr;
use crate::object::{BYTES, SLASH};
use base64::engine::general_purpose::STANDARD_NO_PAD;
use ild_data::{Cid, Entries, Int, Tree, Trees, Txt, cid_text};
use json::Writer;
use std::alloc::{AllocError, Global};

/// Writes a tree in which no map has the only key `/`.
#[cycle(show)]
pub fn write(alloc: Global, tree: &Tree, out: &mut Writer) -> Result<(), PrintErr>
    ensures ok { OnOk result (Appends out.old out.new (data_tokens (data_of tree.now))) }
    ensures free { OnOk result (has_reserved (data_of tree.now) ≡ false) }
    ensures reserved { IfErr result (λ e. e ≡ PrintErr.Reserved → has_reserved (data_of tree.now) ≡ true) }
{
    match tree {
        Tree::Null => Ok(out.null()?),
        Tree::Bool(b) => Ok(out.boolean(*b)?),
        Tree::Int(n) => Ok(write_int(*n, out)?),
        Tree::Text(text) => Ok(out.string(text.as_str())?),
        Tree::Bytes(bytes) => Ok(write_bytes(alloc, bytes.as_slice(), out)?),
        Tree::List(trees) => write_items(alloc, trees, out),
        Tree::Map(entries) => write_members(alloc, entries, out),
        Tree::Link(cid) => Ok(write_link(alloc, cid, out)?),
    }
}

/// Writes an integer in decimal.
fn write_int(n: Int, out: &mut Writer) -> Result<(), AllocError>
    ensures { OnOk result (Appends out.old out.new (data_tokens (integer n))) }
{
    let n = n.get();
    if n >= 0 {
        out.u64(n as u64)
    } else {
        out.i64(n as i64)
    }
}

/// Begins an object with one key.
fn begin_single(name: &str, out: &mut Writer) -> Result<(), AllocError>
    ensures { OnOk result (Appends out.old out.new (begin_object ∷ key name.now ∷ [])) }
{
    out.begin_object()?;
    out.key(name)
}

/// Writes the object of bytes (DAG-JSON, "Bytes").
#[tactic(auto, unfolding(crate::specs::Printing::bytes_text))]
fn write_bytes(alloc: Global, b: &[u8], out: &mut Writer) -> Result<(), AllocError>
    ensures { OnOk result (Appends out.old out.new (data_tokens (bytes b.now))) }
{
    let text = STANDARD_NO_PAD.encode(alloc, b)?;
    begin_single(SLASH, out)?;
    begin_single(BYTES, out)?;
    out.string(text.as_str())?;
    out.end_object()?;
    out.end_object()
}

/// Writes the object of a link (DAG-JSON, "Links").
fn write_link(alloc: Global, cid: &Cid, out: &mut Writer) -> Result<(), AllocError>
    ensures { OnOk result (Appends out.old out.new (data_tokens (link cid.now))) }
{
    let text = cid_text(alloc, &cid.view())?;
    begin_single(SLASH, out)?;
    out.string(text.as_str())?;
    out.end_object()
}

/// Writes a list's items, in order.
#[cycle(show)]
fn write_items(alloc: Global, trees: &Trees, out: &mut Writer) -> Result<(), PrintErr>
    ensures ok { OnOk result (Appends out.old out.new (data_tokens (list trees.now))) }
    ensures free { OnOk result (items_have_reserved trees.now ≡ false) }
    ensures reserved { IfErr result (λ e. e ≡ PrintErr.Reserved → items_have_reserved trees.now ≡ true) }
{
    out.begin_array()?;
    for tree in trees.as_slice() {
        write(alloc, tree, out)?;
    }
    Ok(out.end_array()?)
}

/// Writes the object of a map, unless `/` is its only key.
#[cycle(show)]
fn write_members(alloc: Global, entries: &Entries, out: &mut Writer) -> Result<(), PrintErr>
    ensures ok { OnOk result (Appends out.old out.new (data_tokens (map entries.now))) }
    ensures free { OnOk result (has_reserved (map entries.now) ≡ false) }
    ensures reserved { IfErr result (λ e. e ≡ PrintErr.Reserved → has_reserved (map entries.now) ≡ true) }
{
    if is_slash_alone(entries) {
        return Err(PrintErr::Reserved);
    }
    let pairs = bytewise(alloc, entries)?;
    out.begin_object()?;
    for pair in &pairs {
        out.key(pair.0.as_str())?;
        write(alloc, &pair.1, out)?;
    }
    Ok(out.end_object()?)
}

/// The entries of a map, bytewise by key.
fn bytewise(alloc: Global, entries: &Entries) -> Result<Vec<&(Txt, Tree)>, AllocError>
    ensures { IfOk result (λ v. AreBytewise entries.now (entries_seen v.items)) }
{
    let mut pairs = Vec::with_capacity(alloc, entries.len())?;
    for pair in entries.as_slice() {
        pairs.push(pair)?;
    }
    sort_bytewise(&mut pairs)?;
    Ok(pairs)
}

/// Sorts entries bytewise by key.
fn sort_bytewise(pairs: &mut Vec<&(Txt, Tree)>) -> Result<(), AllocError>
    ensures same { IsPermutation pairs.old.items pairs.new.items }
    ensures order { OnOk result (IsSortedByKey (λ p. p.now.0) bytewise pairs.new.items) }
{
    pairs.sort_by(|a, b| a.0.as_str().cmp(b.0.as_str()))
}

/// Whether `/` is the only key of a map.
pub fn is_slash_alone(entries: &Entries) -> bool
    ensures { result ≡ is_slash_alone entries.now }
{
    match entries.as_slice() {
        [pair] => pair.0.as_str() == SLASH,
        _ => false,
    }
}
