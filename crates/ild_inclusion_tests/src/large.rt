//! Proofs of parts of a large block, and of many blocks. What is wanted is spelled part by part (RFC 8949, section 3).
use crate::told::{SRC, is_answered, proof_of};
use ild_compile::compile;
use ild_data::PadKeys;
use std::alloc::{AllocError, Global};
use std::test::Fail;

/// The block of a list of the numbers from 1,000 up to 21,000, each in three bytes.
fn list(alloc: Global) -> Result<Vec<u8>, AllocError> {
    let mut block = b"\x99\x4e\x20".to_vec(alloc)?;
    for n in 1_000..21_000u16 {
        block.push(0x19)?;
        block.extend_from_slice(&n.to_be_bytes())?;
    }
    Ok(block)
}

/// Whether a proof of these blocks, the root first, is answered so.
fn is_so(
    alloc: Global,
    name: &str,
    path: &[&str],
    blocks: &[&[u8]],
    want: (&str, usize, &[u8]),
) -> Option<bool> {
    let acc = compile(alloc, SRC.as_bytes()).ok()?;
    let proof = proof_of(alloc, blocks)?;
    let root = blocks.first()?;
    is_answered(alloc, &acc, name, root, path, &proof, &PadKeys, want)
}

#[test]
fn of_a_list(rt: HostRuntime) -> Result<(), Fail> {
    let alloc = rt.alloc();
    let block = list(alloc)?;
    let proof = [block.as_slice()];
    let here = is_so(alloc, "I", &["12345"], &proof, ("here", 0, b"\x19\x34\x21"));
    assert!(rt; here == Some(true));
    let here = is_so(alloc, "I", &["19999"], &proof, ("here", 0, b"\x19\x52\x07"));
    assert!(rt; here == Some(true));
    let absent = is_so(alloc, "I", &["20000"], &proof, ("absent", 0, b""));
    assert!(rt; absent == Some(true));
    let whole = is_so(alloc, "I", &[], &proof, ("here", 0, &block));
    assert!(rt; whole == Some(true));
    Ok(())
}

/// Whether a proof of so many blocks, all of them the root, is answered so.
fn is_long(alloc: Global, count: usize, want: (&str, usize, &[u8])) -> Option<bool> {
    let mut blocks = Vec::new(alloc);
    for _ in 0..count {
        blocks.push(b"\x81\x05".as_slice()).ok()?;
    }
    is_so(alloc, "I", &["0"], &blocks, want)
}

#[test]
fn of_many_blocks(rt: HostRuntime) -> Result<(), Fail> {
    assert!(rt; is_long(rt.alloc(), 1, ("here", 0, b"\x05")) == Some(true));
    assert!(rt; is_long(rt.alloc(), 1_000, ("extra", 1, b"")) == Some(true));
    Ok(())
}
