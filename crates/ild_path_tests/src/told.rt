//! Documents of tests, and what is told of a line of a script that edits one.
use hex::decode;
use ild_data::{KeyHash, Octets, PadKeys};
use ild_edges::Store;
use ild_open::open_root;
use ild_path::{PathFault, Verb, locate};
use ild_run_edit::edit;
use ild_schema::Accepted;
use ild_script::{Reply, Word, line_of, reply_text};
use ild_view_doc::Doc;
use std::alloc::Global;

/// A block, in hexadecimals, as a document of a declared type.
pub(crate) fn doc_of<'s>(
    alloc: Global,
    acc: &'s Accepted,
    name: &str,
    block: &str,
) -> Option<Doc<'s>> {
    let ty = acc.type_named(name)?;
    if ty.0 >= acc.types() {
        return None;
    }
    let bytes = decode(alloc, block).ok()?;
    Doc::of(alloc, acc, ty, Octets::from_vec(bytes)).ok()
}

/// What a line that edits does at its place.
pub(crate) fn verb_of(word: Word) -> Option<Verb> {
    match word {
        Word::Set => Some(Verb::Set),
        Word::Ins => Some(Verb::Ins),
        Word::Del => Some(Verb::Del),
        _ => None,
    }
}

fn reply_of<K: Store, H: KeyHash>(
    alloc: Global,
    doc: &mut Doc<'_>,
    asked: &str,
    keys: &H,
    store: &mut K,
) -> Option<Reply> {
    let line = line_of(alloc, asked.as_bytes()).ok()??;
    let json = asked.as_bytes().get(line.json_at..)?;
    let verb = verb_of(line.verb)?;
    match edit(alloc, doc, verb, &line.path, json, keys, store) {
        Ok(()) => Some(Reply::Root(doc.root())),
        Err(no) => Some(Reply::No(no)),
    }
}

/// The text of the reply to a line that edits.
pub(crate) fn told<K: Store, H: KeyHash>(
    alloc: Global,
    doc: &mut Doc<'_>,
    asked: &str,
    keys: &H,
    store: &mut K,
) -> Option<Octets> {
    let reply = reply_of(alloc, doc, asked, keys, store)?;
    reply_text(alloc, &reply).ok()
}

/// Whether a line is told so: a row has the line, ` => `, and the reply.
pub(crate) fn is_told<K: Store, H: KeyHash>(
    alloc: Global,
    doc: &mut Doc<'_>,
    row: &str,
    keys: &H,
    store: &mut K,
) -> Option<bool> {
    let (asked, wanted) = row.split_once(" => ")?;
    let text = told(alloc, doc, asked, keys, store)?;
    Some(text.as_slice() == wanted.as_bytes())
}

/// Why the path of a line leads to no place.
pub(crate) fn fault_of<K: Store>(
    alloc: Global,
    doc: &Doc<'_>,
    asked: &str,
    store: &mut K,
) -> Option<PathFault> {
    let line = line_of(alloc, asked.as_bytes()).ok()??;
    let verb = verb_of(line.verb)?;
    match locate(alloc, doc, &line.path, verb, &PadKeys, store) {
        Ok(_) => None,
        Err(fault) => Some(fault),
    }
}

/// Whether the whole tree of blocks beneath a document's root is held.
pub(crate) fn is_whole<K: Store>(alloc: Global, doc: &Doc<'_>, store: &mut K) -> bool {
    let acc = doc.schema();
    let ty = doc.ty();
    if ty.0 >= acc.types() {
        return false;
    }
    matches!(
        open_root(alloc, acc, ty, &doc.root(), &PadKeys, store),
        Ok(_)
    )
}
