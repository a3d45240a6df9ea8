//! The parts of views one after another, the data of a view, and root blocks with their types. What is wanted was worked out by hand.
use crate::asked::all_so;
use crate::said::{number, word};
use crate::seen::{shows, view_of};
use crate::views_at::SRC;
use hex::decode;
use ild_compile::compile;
use ild_data::Octets;
use ild_schema::Accepted;
use ild_view_doc::{Doc, DocErr};
use std::alloc::Global;
use std::test::Fail;

const IN_ORDER: [&str; 12] = [
    "L 8301f61820 items\n\
     int 1\n\
     null\n\
     int 32",
    "L 80 items",
    "A 82f6816178 items\n\
     null\n\
     parts 1",
    "M a26162806261618101 entries\n\
     b parts 0\n\
     aa parts 1",
    "M a0 entries",
    "P 828261620182616102 entries\n\
     b int 1\n\
     a int 2",
    "Q 66623d3126613d entries\n\
     b text 1\n\
     a text ",
    "Q 60 entries",
    "A a16178f6 entries\n\
     x null",
    "R 8182616101 fields\n\
     a int 1\n\
     b int 1",
    "T 83010280 fields\n\
     b int 2\n\
     c parts 0",
    "J 657768793a7a fields\n\
     b text z\n\
     a enum y",
];

const DATA: [&str; 9] = [
    "L 8201f6 json\n\
     . [1,null]",
    "M a26162806261618101 json\n\
     . {\"aa\":[1],\"b\":[]}",
    "P 828261620182616102 json\n\
     /a 2",
    "Q 66623d3126613d json\n\
     /b \"1\"",
    "K 63613d31 json\n\
     /d \"x\"",
    "V a2616b6169616e02 json\n\
     /I {\"n\":2}",
    "J 657768793a7a json\n\
     /a \"why\"",
    "A 83f5436162636141 json\n\
     . [true,{\"/\":{\"bytes\":\"YWJj\"}},\"A\"]",
    "H a36468616d748258200000000000000000000000000000000000000000000000000000000000000000806768617368416c67126a6275636b657453697a6503 json\n\
     . {\"bucketSize\":3,\"hamt\":[{\"/\":{\"bytes\":\"AAAAAAAAAAAAAAAAAAAAAAAAAAAAAAAAAAAAAAAAAAA\"}},[]],\"hashAlg\":18}",
];

#[test]
fn parts_in_order(rt: HostRuntime) -> Result<(), Fail> {
    all_so(rt.alloc(), SRC, &IN_ORDER)?;
    Ok(())
}

#[test]
fn data(rt: HostRuntime) -> Result<(), Fail> {
    all_so(rt.alloc(), SRC, &DATA)?;
    Ok(())
}

/// Whether an element of a list has the slot of elements, the schema of the list, and a piece of the block.
fn is_an_element(alloc: Global, acc: &Accepted) -> Option<bool> {
    let view = view_of(alloc, acc, "L", b"\x82\x01\xf6")?;
    let part = view.item(1)?;
    let slot = part.slot();
    let same = slot.nullable && slot.ty == number(acc, "Int")?;
    Some(same && part.schema().types() == acc.types() && part.piece().is_some())
}

/// Bytes in hexadecimals, and the text of the id of the list that they are; or what is wrong with them: they are no block, or the cause why they
/// are no list.
const ROOTS: [&str; 3] = [
    "8201f6 => bafyreidkordfmpj7aoqd4chjc63crb3tl5qx7c4bpddyrmvdwciubxphem",
    "8201 => none",
    "01 => Kind",
];

/// Whether a root block has this id, is these bytes, and shows two elements.
fn is_list(alloc: Global, doc: &Doc<'_>, bytes: &[u8], id: &str) -> Option<bool> {
    let text = doc.root().text(alloc).ok()?;
    Some(text.as_str() == id && doc.block() == bytes && shows(alloc, &doc.view(), "parts 2")?)
}

fn is_root(alloc: Global, acc: &Accepted, row: &str) -> Option<bool> {
    let (block, want) = row.split_once(" => ")?;
    let ty = number(acc, "L")?;
    if ty.0 >= acc.types() {
        return None;
    }
    let bytes = decode(alloc, block).ok()?;
    match Doc::of(alloc, acc, ty, Octets::of(alloc, &bytes).ok()?) {
        Ok(doc) => is_list(alloc, &doc, &bytes, want),
        Err(DocErr::Cbor(_)) => Some(want == "none"),
        Err(DocErr::Shape(why)) => Some(word(why) == want),
        Err(DocErr::Memory) => None,
    }
}

fn all_roots(alloc: Global) -> Result<(), &'static str> {
    let acc = compile(alloc, SRC.as_bytes()).ok().ok_or("a schema")?;
    for row in &ROOTS {
        if is_root(alloc, &acc, row) != Some(true) {
            return Err(*row);
        }
    }
    if is_an_element(alloc, &acc) != Some(true) {
        return Err("an element");
    }
    Ok(())
}

#[test]
fn roots_and_slots(rt: HostRuntime) -> Result<(), Fail> {
    all_roots(rt.alloc())?;
    Ok(())
}
