//! The trees of large pieces. Each is spelled, and its bytes are those that are written here part by part (RFC 8949, section 3).
use ild_cbor::{Piece, check};
use ild_compile::compile;
use ild_data::{Octets, Tree};
use ild_emit::Emit;
use ild_schema::Accepted;
use ild_view_tree::piece_tree;
use std::alloc::{AllocError, Global};
use std::test::Fail;

/// A union whose discriminant stands inline.
const SRC: &[u8] =
    b"type I struct { n Int } type V union { | I \"i\" } representation inline { discriminantKey \"k\" }";

/// Appends an entry of a letter: a list of 20,000 numbers, each in three bytes.
fn add_list(block: &mut Vec<u8>) -> Result<(), AllocError> {
    block.extend_from_slice(b"\x61a\x99\x4e\x20")?;
    for n in 1_000_u16..21_000 {
        block.push(0x19)?;
        block.extend_from_slice(&n.to_be_bytes())?;
    }
    Ok(())
}

/// Appends an entry of a letter: a map of 4,000 entries, whose keys are numbers of four digits.
fn add_map(alloc: Global, block: &mut Vec<u8>) -> Result<(), AllocError> {
    block.extend_from_slice(b"\x61b\xb9\x0f\xa0")?;
    for n in 1_000_u16..5_000 {
        let key = format!(in alloc; "{n}")?;
        block.push(0x64)?;
        block.extend_from_slice(key.as_str().as_bytes())?;
        block.push(0xf6)?;
    }
    Ok(())
}

/// Appends so many bytes behind a key and a head.
fn add_bytes(block: &mut Vec<u8>, head: &[u8], count: usize) -> Result<(), AllocError> {
    block.extend_from_slice(head)?;
    for _ in 0..count {
        block.push(b'x')?;
    }
    Ok(())
}

/// A map with this head of a list, a map, bytes, and perhaps a discriminant and a text.
fn map(alloc: Global, head: &[u8], tag: &[u8]) -> Result<Vec<u8>, AllocError> {
    let mut block = head.to_vec(alloc)?;
    add_list(&mut block)?;
    add_map(alloc, &mut block)?;
    add_bytes(&mut block, b"\x61c\x5a\x00\x01\x11\x70", 70_000)?;
    block.extend_from_slice(tag)?;
    add_bytes(&mut block, b"\x61t\x7a\x00\x01\x86\xa0", 100_000)?;
    Ok(block)
}

/// The bytes in which a tree is spelled.
fn spelled(alloc: Global, tree: &Tree) -> Result<Octets, AllocError> {
    let mut emit = Emit::new(alloc);
    emit.tree(tree)?;
    Ok(emit.finish())
}

/// The tree of an item without the discriminant of the union, spelled.
fn rest_of(alloc: Global, acc: &Accepted, block: &[u8]) -> Option<Octets> {
    let ty = acc.type_named("V")?;
    if ty.0 >= acc.types() {
        return None;
    }
    let piece = Piece::Inline(check(block).ok()?, ty.0);
    spelled(alloc, &piece_tree(alloc, acc, &piece).ok()?).ok()
}

#[test]
fn of_items(rt: HostRuntime) -> Result<(), Fail> {
    let alloc = rt.alloc();
    let acc = compile(alloc, SRC).ok().ok_or("a schema")?;
    let block = map(alloc, b"\xa4", b"")?;
    let node = check(&block).ok().ok_or("a block")?;
    let tree = piece_tree(alloc, &acc, &Piece::Node(node))?;
    assert!(rt; spelled(alloc, &tree)?.as_slice() == block.as_slice());
    let tagged = map(alloc, b"\xa5", b"\x61k\x61i")?;
    let rest = rest_of(alloc, &acc, &tagged).ok_or("a tree")?;
    assert!(rt; rest.as_slice() == block.as_slice());
    Ok(())
}

#[test]
fn of_texts_and_bytes(rt: HostRuntime) -> Result<(), Fail> {
    let alloc = rt.alloc();
    let acc = compile(alloc, SRC).ok().ok_or("a schema")?;
    let mut text = String::new(alloc);
    for _ in 0..10_000 {
        text.push_str("xxxxxxxxxx")?;
    }
    let mut block = Vec::new(alloc);
    add_bytes(&mut block, b"\x7a\x00\x01\x86\xa0", 100_000)?;
    let tree = piece_tree(alloc, &acc, &Piece::Text(text.as_str()))?;
    assert!(rt; spelled(alloc, &tree)?.as_slice() == block.as_slice());
    let mut block = Vec::new(alloc);
    add_bytes(&mut block, b"\x5a\x00\x01\x86\xa0", 100_000)?;
    let tree = piece_tree(alloc, &acc, &Piece::Bytes(text.as_str().as_bytes()))?;
    assert!(rt; spelled(alloc, &tree)?.as_slice() == block.as_slice());
    Ok(())
}
