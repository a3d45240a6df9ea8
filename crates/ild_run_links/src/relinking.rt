//! A link in one tree set to the root of another.
ghost use Rattle.std.specs.Prelude.{◌≡◌, ◌<◌, ℕ, IfOk, IsSome, List, length, option_and_then, true};
ghost use Rattle.ild_cbor.specs.Block.{IsBlockOf};
ghost use Rattle.ild_data.specs.Bytes.{AreBytes};
ghost use Rattle.ild_data.specs.Data.{link};
ghost use Rattle.ild_data.specs.Spell.{cid_of};
ghost use Rattle.ild_links.specs.Trees.{followed};
ghost use Rattle.ild_path_place.specs.Comes.{comes};
ghost use Rattle.ild_path_place.specs.Parts.{verb_in};
ghost use Rattle.ild_path_place.specs.Places.{IsPlace};
ghost use Rattle.ild_path_place.specs.Rooted.{IsRootedAt};
ghost use Rattle.ild_path_place.specs.Tells.{table_at};
ghost use Rattle.ild_path_place.specs.declared.verb.Verb.TheVariants.{Set};
ghost use Rattle.ild_run_links.specs.Links.{link_to};
ghost use Rattle.ild_run_links.specs.inside.Sets.{IsFirstOf, PutsLink, ReadsRoot, SetsLink, SetsTree};
ghost use Rattle.ild_run_links.specs.Moments.{HoldsBlock};
ghost use Rattle.ild_view_doc.specs.Docs.{table_in};
ghost use Rattle.ild_typed.specs.At.{InSlot, at};

use crate::fault::{TreeFault, of_edit, of_path};
use crate::linking::typed_link;
use ild_cbor::known_root;
use ild_data::{BlockId, KeyHash, Octets, Path, Txt};
use ild_edges::{EdgeErr, Store};
use ild_emit::Emit;
use ild_links::Hop;
use ild_path::{Place, Verb, locate, replace};
use ild_schema::{Accepted, TypeNo};
use ild_view_doc::{Doc, DocErr};
use std::alloc::{AllocError, Global};

/// How long the spelling of a link to a block is.
const LINK_BYTES: usize = 41;

// The path of some segments.
fn copy_of(alloc: Global, segments: &[Txt]) -> Result<Path, AllocError>
    ensures { IfOk result (λ p. p ≡ segments.now) }
{
    let mut copies = Vec::new(alloc);
    for segment in segments {
        copies.push(segment.copy()?)?;
    }
    Ok(Path::from_vec(copies))
}

// The segments of a hop.
fn segments_of(alloc: Global, hop: &Hop, path: &Path) -> Result<Path, AllocError>
    ensures { IfOk result (λ p. p ≡ followed path.now hop.now) }
{
    let segments = path.as_slice();
    let from = hop.from.min(segments.len());
    let upto = hop.upto.min(segments.len()).max(from);
    copy_of(alloc, &segments[from..upto])
}

// The root block of a type under an id.
fn root_of<'s, K: Store>(
    alloc: Global,
    acc: &'s Accepted,
    ty: TypeNo,
    id: &BlockId,
    store: &mut K,
) -> Result<Doc<'s>, TreeFault>
    requires { ty.0 < length acc.now }
    ensures { ReadsRoot acc.now ty id.now.0 (K.moment store.old) result (K.moment store.new) }
{
    acc.recall();
    let block = match store.get(id) {
        Ok(Some(block)) => block,
        Ok(None) => return Err(TreeFault::Block),
        Err(EdgeErr::Failed) => return Err(TreeFault::Store),
        Err(EdgeErr::Memory) => return Err(TreeFault::Memory),
    };
    match Doc::of(alloc, acc, ty, block) {
        Ok(doc) => Ok(doc),
        Err(DocErr::Cbor(_)) => Err(TreeFault::Block),
        Err(DocErr::Shape(_)) => Err(TreeFault::Block),
        Err(DocErr::Memory) => Err(TreeFault::Memory),
    }
}

// The items of a slice of bytes are bytes. It does no work.
fn are_bytes(bytes: &[u8])
    ensures { AreBytes bytes.now }
{}

// The block of a link to a block.
fn link_block(alloc: Global, id: &BlockId) -> Result<Octets, AllocError>
    ensures block { IfOk result (λ b. IsBlockOf b (link (cid_of id.now.0))) }
    ensures long { length id.now.0 ≡ 32 }
{
    are_bytes(&id.0);
    let mut out = Emit::with_room(alloc, LINK_BYTES)?;
    out.block_link(id)?;
    Ok(out.finish())
}

// Whether a typed link to a block stands at a place.
fn has_link(place: &Place<'_>) -> bool
    ensures { (h : List ℕ → List ℕ) (was : List (List ℕ)) (p : InSlot) (q : List (List ℕ)) → IsRootedAt h (table_at place.now) was p place.now → IsPlace h (table_at place.now) was p q Set place.now
        → IsSome (option_and_then (link_to (table_at place.now)) (at (table_at place.now) p q)) → result ≡ true }
{
    match place.view() {
        Some(view) => typed_link(&view).is_some(),
        None => false,
    }
}

// A link to a block comes to a place: the new root block's id.
fn put_link<K: Store, H: KeyHash>(
    alloc: Global,
    place: Place<'_>,
    new: &BlockId,
    keys: &H,
    store: &mut K,
) -> Result<BlockId, TreeFault>
    requires { comes (verb_in place) ≡ true }
    ensures { PutsLink H.hash_of place.entry new.now.0 (K.moment store.old) result (K.moment store.new) }
{
    let block = link_block(alloc, new)?;
    let item = known_root(block.as_slice());
    match replace(alloc, place, &item, keys, store) {
        Ok(root) => Ok(root.id()),
        Err(fault) => Err(of_edit(fault)),
    }
}

// Sets the link at the end of a path in the value of a root block: the new root block's id.
fn relink_in<K: Store, H: KeyHash>(
    alloc: Global,
    doc: &Doc<'_>,
    path: &Path,
    new: &BlockId,
    keys: &H,
    store: &mut K,
) -> Result<BlockId, TreeFault>
    ensures { SetsLink H.hash_of doc.now path.now new.now.0 (K.moment store.old) result (K.moment store.new) }
{
    doc.schema().recall();
    let place = match locate(alloc, doc, path, Verb::Set, keys, store) {
        Ok(place) => place,
        Err(fault) => return Err(of_path(&fault)),
    };
    if !has_link(&place) {
        return Err(TreeFault::Block);
    }
    put_link(alloc, place, new, keys, store)
}

/// Sets the link at the end of a hop's path, in the tree of the document where the hop is the first: the tree's new root.
pub(crate) fn relink_tree<K: Store, H: KeyHash>(
    alloc: Global,
    doc: &Doc<'_>,
    hop: &Hop,
    path: &Path,
    new: &BlockId,
    keys: &H,
    store: &mut K,
) -> Result<BlockId, TreeFault>
    requires within { hop.now.ty.0 < length (table_in doc.now) }
    requires names { IsFirstOf doc.now hop.now }
    requires own { HoldsBlock doc.now (K.moment store.old) }
    ensures { SetsTree H.hash_of (table_in doc.now) path.now hop.now new.now.0 (K.moment store.old) result (K.moment store.new) }
{
    let segments = segments_of(alloc, hop, path)?;
    if hop.first {
        return relink_in(alloc, doc, &segments, new, keys, store);
    }
    match root_of(alloc, doc.schema(), hop.ty, &hop.id, store) {
        Ok(read) => relink_in(alloc, &read, &segments, new, keys, store),
        Err(fault) => Err(fault),
    }
}
