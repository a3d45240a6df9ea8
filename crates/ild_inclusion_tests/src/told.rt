//! What is told of a proof.
use ild_compile::compile;
use ild_data::{KeyHash, Octets, Path, Txt, block_id};
use ild_inclusion::{Answer, Proof, Reject, VerifyErr, verify};
use ild_schema::Accepted;
use std::alloc::Global;
use std::test::Fail;

pub const SRC: &str =
    "type H {String:Int} representation advanced HAMT type G {String:H} representation advanced HAMT type W struct { h H n Int } type I [Int] \
     type N {String:Int} representation advanced HAMT_w3_b1";

/// A declared type, the block of the root, a path, the blocks of a proof; then what is told, a number, and the bytes of a part.
pub type Row = (
    &'static str,
    &'static [u8],
    &'static [&'static str],
    &'static [&'static [u8]],
    (&'static str, usize, &'static [u8]),
);

pub(crate) fn schema(alloc: Global) -> Result<Accepted, Fail> {
    match compile(alloc, SRC.as_bytes()) {
        Ok(acc) => Ok(acc),
        Err(_) => Err("a schema".into()),
    }
}

pub(crate) fn path_of(alloc: Global, segments: &[&str]) -> Option<Path> {
    let mut path = Path::new(alloc);
    for segment in segments {
        path.push(Txt::of(alloc, segment).ok()?).ok()?;
    }
    Some(path)
}

pub(crate) fn proof_of(alloc: Global, blocks: &[&[u8]]) -> Option<Proof> {
    let mut proof = Proof::new(alloc);
    for block in blocks {
        proof.push(Octets::of(alloc, block).ok()?).ok()?;
    }
    Some(proof)
}

fn reject_of(reject: Reject) -> (&'static str, usize) {
    match reject {
        Reject::Empty => ("empty", 0),
        Reject::Root => ("root", 0),
        Reject::Cbor(i) => ("cbor", i),
        Reject::Shape(i) => ("shape", i),
        Reject::Missing(i) => ("missing", i),
        Reject::Extra(i) => ("extra", i),
    }
}

fn is_told(answer: &Result<Answer, VerifyErr>, want: (&str, usize, &[u8])) -> bool {
    match answer {
        Ok(Answer::Here(bytes)) => want.0 == "here" && bytes.as_slice() == want.2,
        Ok(Answer::Absent(k)) => want.0 == "absent" && *k == want.1,
        Err(VerifyErr::Reject(reject)) => reject_of(*reject) == (want.0, want.1),
        Err(VerifyErr::Memory) => false,
    }
}

/// Whether a proof is answered so, for a path into the value of a type under the id of a block.
pub(crate) fn is_answered<H: KeyHash>(
    alloc: Global,
    acc: &Accepted,
    name: &str,
    root: &[u8],
    segments: &[&str],
    proof: &Proof,
    keys: &H,
    want: (&str, usize, &[u8]),
) -> Option<bool> {
    let ty = acc.type_named(name)?;
    if ty.0 >= acc.types() {
        return None;
    }
    let path = path_of(alloc, segments)?;
    let answer = verify(alloc, acc, ty, &block_id(root), &path, proof, keys);
    Some(is_told(&answer, want))
}
