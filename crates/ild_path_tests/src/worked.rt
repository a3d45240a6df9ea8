//! The edits of a club and of a small HAMT by the calls on places, each part as its item in hexadecimals. The items and the roots are those of
//! tests/paths/rows.py.
ghost use Rattle.std.specs.Prelude.{◌≡◌, true};
ghost use Rattle.ild_path_place.specs.Comes.{comes};
ghost use Rattle.ild_path_place.specs.Parts.{verb_in};

use crate::told::{doc_of, verb_of};
use hex::decode;
use ild_cbor::check;
use ild_compile::compile;
use ild_data::{NamedBlock, Sha256Keys};
use ild_edges::MemStore;
use ild_path::{PathFault, Place, Verb, erase, locate, replace};
use ild_script::{No, Reply, line_of, reply_text};
use ild_view_doc::Doc;
use std::alloc::Global;
use std::test::Fail;

const CLUB: &str =
    "type Club struct { name String users Users motto optional String } type Users {String:User} representation advanced HAMT type User struct { mail String role Role age nullable Int nick option\
        al String avatar optional Bytes contact Contact } type Role enum { | Admin (\"a\") | Guest (\"g\") } type Contact union { | Phone \"phone\" | Room \"room\" } representation keyed type Phone \
        string type Room struct { floor Int door Int } representation tuple";

const NO_USERS: &str =
    "a2646e616d65644b697465657573657273a36468616d748258200000000000000000000000000000000000000000000000000000000000000000806768617368416c67126a6275636b657453697a6503";

const CLUB_EDITS: [&str; 7] = [
    "set /users/ann a563616765f6646d61696c65616e6e407864726f6c6561616661766174617242010267636f6e74616374a16570686f6e65623132 => root bafyreifvr4si7ylqf2wsaoenuteou64qnkd4oscjcm2hgfvkvxay7y3vde\n",
    "set /users/bob a4636167651829646d61696c65626f62407864726f6c65616767636f6e74616374a164726f6f6d820207 => root bafyreidnkadpa5xfa55hmjn2hxir5zsgi5ipzesi3ilivdfz422zptdynq\n",
    "set /users/bob/contact/Phone 623334 => root bafyreierghhwqht3jn53cc4lpqk7ydolhl66ha2xrqjrnoa5laklwzzzqy\n",
    "del /users/ann/avatar => root bafyreiewzahzumdqt6pztbt5fpj2pw33b57p6opche4wmkm4iz6au7lk6q\n",
    "del /users/ann => root bafyreia5yd7vqco53c3jzup2ngpfz3ijsxpv55gih6ze7nlyctmyv2jq4i\n",
    "del /users/bob/mail => no 4 mismatch\n",
    "del /motto => no 2 path\n",
];

const HAMT: &str = "type H {String:Int} representation advanced HAMT";

const NO_KEYS: &str =
    "a36468616d748258200000000000000000000000000000000000000000000000000000000000000000806768617368416c67126a6275636b657453697a6503";

const ABC_EDITS: [&str; 3] = [
    "set /abc 01 => root bafyreigqpyaabp5mcrct7fmd4xvcbyka6dba2lys7srd75uvvkf3q5shgu\n",
    "set /abc 01 => root bafyreigqpyaabp5mcrct7fmd4xvcbyka6dba2lys7srd75uvvkf3q5shgu\n",
    "del /abc => root bafyreihn72qdqs5xwehgcqeepxbqs3zkocg5l7f4vn3asclloqtrgj3uqe\n",
];

/// The root block where an item comes to a place.
fn put_in(alloc: Global, place: Place<'_>, item: &[u8], store: &mut MemStore) -> Option<NamedBlock>
    requires { comes (verb_in place) ≡ true }
{
    let part = check(item).ok()?;
    replace(alloc, place, &part, &Sha256Keys, store).ok()
}

/// The same, or where the part there goes.
fn block_of(
    alloc: Global,
    place: Place<'_>,
    item: &[u8],
    store: &mut MemStore,
) -> Option<NamedBlock> {
    match place.verb() {
        Verb::Set => put_in(alloc, place, item, store),
        Verb::Ins => put_in(alloc, place, item, store),
        Verb::Del => erase(alloc, place, &Sha256Keys, store).ok(),
    }
}

/// The root block of what a line asks for, or why there is no place.
fn placed(
    alloc: Global,
    doc: &Doc<'_>,
    asked: &str,
    store: &mut MemStore,
) -> Option<Result<NamedBlock, No>> {
    let line = line_of(alloc, asked.as_bytes()).ok()??;
    let item = decode(alloc, asked.as_bytes().get(line.json_at..)?).ok()?;
    let verb = verb_of(line.verb)?;
    match locate(alloc, doc, &line.path, verb, &Sha256Keys, store) {
        Ok(place) => Some(Ok(block_of(alloc, place, &item, store)?)),
        Err(PathFault::Path { .. }) => Some(Err(No::Path)),
        Err(PathFault::Mismatch) => Some(Err(No::Mismatch)),
        Err(_) => None,
    }
}

/// The reply to a line. The document takes the new root block.
fn reply_of(alloc: Global, doc: &mut Doc<'_>, asked: &str, store: &mut MemStore) -> Option<Reply> {
    match placed(alloc, doc, asked, store)? {
        Ok(block) => {
            let (acc, ty, id) = (doc.schema(), doc.ty(), block.id());
            if ty.0 >= acc.types() {
                return None;
            }
            *doc = Doc::of(alloc, acc, ty, block.block().copy().ok()?).ok()?;
            Some(Reply::Root(id))
        }
        Err(no) => Some(Reply::No(no)),
    }
}

/// Whether a line is told so.
fn is_told(alloc: Global, doc: &mut Doc<'_>, row: &str, store: &mut MemStore) -> Option<bool> {
    let (asked, wanted) = row.split_once(" => ")?;
    let reply = reply_of(alloc, doc, asked, store)?;
    Some(reply_text(alloc, &reply).ok()?.as_slice() == wanted.as_bytes())
}

fn all_told(
    alloc: Global,
    src: &str,
    name: &str,
    block: &str,
    rows: &[&'static str],
) -> Result<(), &'static str> {
    let acc = compile(alloc, src.as_bytes()).ok().ok_or("a schema")?;
    let mut doc = doc_of(alloc, &acc, name, block).ok_or("a block")?;
    let mut store = MemStore::new(alloc, &[], &[]).ok().ok_or("a store")?;
    for row in rows {
        if is_told(alloc, &mut doc, *row, &mut store) != Some(true) {
            return Err(*row);
        }
    }
    Ok(())
}

#[test]
fn of_a_club_and_of_one_key(rt: HostRuntime) -> Result<(), Fail> {
    all_told(rt.alloc(), CLUB, "Club", NO_USERS, &CLUB_EDITS)?;
    all_told(rt.alloc(), HAMT, "H", NO_KEYS, &ABC_EDITS)?;
    Ok(())
}
