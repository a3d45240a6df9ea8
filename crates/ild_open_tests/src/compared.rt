//! The trees of two documents in two stores.
ghost use Rattle.std.specs.Prelude.{◌≡◌, ◌<◌, IfOk, length};
ghost use Rattle.ild_view_doc.specs.Docs.{table_in, type_in};

use ild_cbor::BlockWhy;
use ild_compare::{Compared, OpenFault, compare_trees};
use ild_compile::compile;
use ild_data::{Octets, PadKeys, block_id};
use ild_edges::MemStore;
use ild_hamt_samples::{CHILD_OF_FOUR, ROOT_OF_FOUR, ROOT_OF_THREE};
use ild_schema::{Accepted, TypeNo};
use ild_view_doc::Doc;
use std::alloc::Global;
use std::test::Fail;

const PLAIN: &[u8] = b"type N {String:Int}";

pub(crate) const HAMT: &[u8] = b"type N {String:Int} representation advanced HAMT";

/// A tree in a store: the root block, the blocks that are held, and the numbers of the gets that fail.
type Tree<'t> = (&'t [u8], &'t [&'t [u8]], &'t [u64]);

/// The block of a root map over a root node.
fn root_map(alloc: Global, node: &[u8]) -> Result<Vec<u8>, Fail> {
    let mut block = Vec::new(alloc);
    block.extend_from_slice(b"\xa3\x64hamt")?;
    block.extend_from_slice(node)?;
    block.extend_from_slice(b"\x67hashAlg\x12\x6abucketSize\x03")?;
    Ok(block)
}

fn type_of(acc: &Accepted) -> Option<TypeNo> {
    acc.type_named("N")
}

fn doc_of<'s>(alloc: Global, acc: &'s Accepted, ty: TypeNo, block: &[u8]) -> Result<Doc<'s>, Fail>
    requires { ty.0 < length acc.now }
    ensures { IfOk result (λ d. (table_in d ≡ acc.now) × (type_in d ≡ ty)) }
{
    let block = Octets::of(alloc, block)?;
    Ok(Doc::of(alloc, acc, ty, block).ok().ok_or("a root block")?)
}

fn store_of(alloc: Global, tree: Tree<'_>) -> Result<MemStore, Fail> {
    let mut store = MemStore::new(alloc, tree.2, &[])?;
    for block in tree.1 {
        store.add(block)?;
    }
    Ok(store)
}

/// What is told, in a word.
fn word(answer: &Result<Compared, OpenFault>) -> &'static str {
    match answer {
        Ok(Compared::Same) => "same",
        Ok(Compared::Other) => "other",
        Ok(Compared::Collide(_, _)) => "collide",
        Err(OpenFault::Block { id, why }) => {
            if *why == BlockWhy::Missing && *id == block_id(CHILD_OF_FOUR) {
                "missing"
            } else {
                "block"
            }
        }
        Err(OpenFault::Store) => "store",
        Err(OpenFault::Memory) => "memory",
    }
}

/// What is told of the trees of type `N` under two root blocks, each over a store.
pub(crate) fn told_over(
    alloc: Global,
    schema: &[u8],
    left: &[u8],
    left_store: &mut MemStore,
    right: &[u8],
    right_store: &mut MemStore,
) -> Result<&'static str, Fail> {
    let acc = compile(alloc, schema).ok().ok_or("a schema")?;
    let ty = type_of(&acc).ok_or("a type")?;
    if ty.0 >= acc.types() {
        return Ok("no type");
    }
    let first = doc_of(alloc, &acc, ty, left)?;
    let second = doc_of(alloc, &acc, ty, right)?;
    let answer = compare_trees(alloc, &first, left_store, &second, right_store, &PadKeys);
    Ok(word(&answer))
}

fn told(
    alloc: Global,
    schema: &[u8],
    left: Tree<'_>,
    right: Tree<'_>,
) -> Result<&'static str, Fail> {
    let mut left_store = store_of(alloc, left)?;
    let mut right_store = store_of(alloc, right)?;
    told_over(
        alloc,
        schema,
        left.0,
        &mut left_store,
        right.0,
        &mut right_store,
    )
}

#[test]
fn plain_trees(rt: HostRuntime) -> Result<(), Fail> {
    let one: &[u8] = b"\xa1\x61a\x01";
    let none: &[u8] = b"\xa0";
    let same = told(rt.alloc(), PLAIN, (one, &[one], &[]), (one, &[one], &[]))?;
    assert_eq!(rt; same, "same");
    let other = told(rt.alloc(), PLAIN, (one, &[one], &[]), (none, &[none], &[]))?;
    assert_eq!(rt; other, "other");
    Ok(())
}

#[test]
fn trees_of_hamts(rt: HostRuntime) -> Result<(), Fail> {
    let four = root_map(rt.alloc(), ROOT_OF_FOUR)?;
    let three = root_map(rt.alloc(), ROOT_OF_THREE)?;
    let root = four.as_slice();
    let whole: Tree<'_> = (root, &[root, CHILD_OF_FOUR], &[]);
    let torn: Tree<'_> = (root, &[root], &[]);
    let failing: Tree<'_> = (root, &[root, CHILD_OF_FOUR], &[1]);
    let less: Tree<'_> = (three.as_slice(), &[], &[]);
    assert_eq!(rt; told(rt.alloc(), HAMT, whole, whole)?, "same");
    assert_eq!(rt; told(rt.alloc(), HAMT, whole, less)?, "other");
    assert_eq!(rt; told(rt.alloc(), HAMT, whole, torn)?, "missing");
    assert_eq!(rt; told(rt.alloc(), HAMT, torn, whole)?, "missing");
    assert_eq!(rt; told(rt.alloc(), HAMT, whole, failing)?, "store");
    assert_eq!(rt; told(rt.alloc(), HAMT, failing, torn)?, "store");
    Ok(())
}
