//! Documents of lists of many thousand numbers: one is made, and one takes the place of another. The blocks are spelled number by number,
//! and their ids come from another program (FIPS 180-4).
ghost use Rattle.std.specs.Prelude.{◌<◌, IfSome, length};
ghost use Rattle.ild_view_doc.specs.Block.{HasRoot};

use crate::seen::{leads, path_of};
use ild_compile::compile;
use ild_data::{NamedBlock, Octets};
use ild_schema::{Accepted, TypeNo};
use ild_view_doc::Doc;
use std::alloc::{AllocError, Global};
use std::test::Fail;

/// The head of a list of 20,000, and the id of the block of its numbers.
const SOME: (&[u8], &str) = (
    b"\x99\x4e\x20",
    "bafyreig7rbpptixscp46liwqpxaufoh7e4rq5iuhcey7nt2hfkztfrhcbe",
);

/// The same of 30,000.
const MORE: (&[u8], &str) = (
    b"\x99\x75\x30",
    "bafyreihvioevuodf6gjbmtruz3gubitwtfu55x3ldahxv47y7pwf2tkbqu",
);

/// The block of a list with this head, of the numbers from 1,000 up to another.
fn list(alloc: Global, head: &[u8], to: u16) -> Result<Octets, AllocError> {
    let mut block = head.to_vec(alloc)?;
    for n in 1_000..to {
        block.push(0x19)?;
        block.extend_from_slice(&n.to_be_bytes())?;
    }
    Ok(Octets::from_vec(block))
}

/// The document of a block as a list.
fn doc_of<'s>(alloc: Global, acc: &'s Accepted, block: &Octets) -> Option<Doc<'s>> {
    let ty = acc.type_named("L")?;
    if ty.0 >= acc.types() {
        return None;
    }
    Doc::of(alloc, acc, ty, block.copy().ok()?).ok()
}

/// The block of bytes that are one of a type.
fn root_of(alloc: Global, acc: &Accepted, ty: TypeNo, block: &Octets) -> Option<NamedBlock>
    requires { ty.0 < length acc.now }
    ensures { IfSome result (λ b. ∥ HasRoot acc.now ty b ∥₁) }
{
    let Ok(one) = block.copy() else {
        return None;
    };
    let Ok(same) = block.copy() else {
        return None;
    };
    match Doc::of(alloc, acc, ty, one) {
        Ok(_) => Some(NamedBlock::of(same)),
        Err(_) => None,
    }
}

/// Another block takes the place of a document's, where it is one of the document's type.
fn take(alloc: Global, doc: &mut Doc<'_>, block: &Octets) -> Option<()> {
    let (acc, ty) = (doc.schema(), doc.ty());
    if ty.0 >= acc.types() {
        return None;
    }
    let root = root_of(alloc, acc, ty, block)?;
    doc.swap(root);
    Some(())
}

/// Whether a document has this block and this id, so many numbers, and this number at this place.
fn is_so(alloc: Global, doc: &Doc<'_>, block: &Octets, id: &str, told: &[&str; 3]) -> Option<bool> {
    let view = doc.view();
    let [parts, place, number] = *told;
    let whole = leads(alloc, &view, &path_of(alloc, ".")?, parts)?;
    let part = leads(alloc, &view, &path_of(alloc, place)?, number)?;
    let same = doc.block() == block.as_slice() && doc.root().text(alloc).ok()?.as_str() == id;
    Some(same && whole && part)
}

/// Whether a document is made of some numbers, and takes more.
fn are_taken(alloc: Global) -> Option<bool> {
    let acc = compile(alloc, b"type L [Int]").ok()?;
    let some = list(alloc, SOME.0, 21_000).ok()?;
    let more = list(alloc, MORE.0, 31_000).ok()?;
    let mut doc = doc_of(alloc, &acc, &some)?;
    let told = ["parts 20000", "/19999", "int 20999"];
    let made = is_so(alloc, &doc, &some, SOME.1, &told)?;
    let copied = is_so(alloc, &doc.copy().ok()?, &some, SOME.1, &told)?;
    take(alloc, &mut doc, &more)?;
    let told = ["parts 30000", "/29999", "int 30999"];
    let taken = is_so(alloc, &doc, &more, MORE.1, &told)?;
    Some(made && copied && taken)
}

#[test]
fn of_many_numbers(rt: HostRuntime) -> Result<(), Fail> {
    assert!(rt; are_taken(rt.alloc()) == Some(true));
    Ok(())
}
