//! Reading a node of a store as the steps that a walk does in it.
ghost use Rattle.std.specs.Prelude.{◌≡◌, List, IfOk};
ghost use Rattle.ild_data.specs.Trie.{TrieSlot};
ghost use Rattle.ild_data.specs.declared.hamt_shape.HamtShape.{HamtShape};
ghost use Rattle.ild_node_slots.specs.Views.{HasSlots};
ghost use Rattle.ild_bulk_walker.specs.Fetching.{Fetches, ReadsBlock};
ghost use Rattle.ild_bulk_walker.specs.Steps.{steps_todo};
ghost use Rattle.ild_bulk_walker.specs.Todo.{node_todo};

use crate::read::steps_in;
use crate::step::Step;
use ild_cbor::{BlockWhy, Why, check, known_root};
use ild_data::{BlockId, HamtShape, Octets};
use ild_edges::{EdgeErr, Store};
use ild_node_slots::{HamtFault, NodeView, Spelled};
use std::alloc::{AllocError, Global};
use std::rc::Rc;

/// The steps of a root, of whose node a copy is made.
pub(crate) fn root_steps(alloc: Global, root: NodeView<'_>) -> Result<Vec<Step>, AllocError>
    ensures { (p : HamtShape) (slots : List TrieSlot) → HasSlots p root.entry slots → IfOk result (λ steps. steps_todo steps.items ≡ node_todo 0 slots) }
{
    let node = Spelled::of(alloc, &root.node())?;
    let held = Rc::new(alloc, node.into_octets())?;
    match steps_in(alloc, root.shape(), &held, known_root(held.as_slice()))? {
        Some(steps) => Ok(steps),
        None => unreachable!(),
    }
}

// The steps of the node of this shape that a block is.
fn steps_at(
    alloc: Global,
    shape: HamtShape,
    id: &BlockId,
    held: &Rc<Octets>,
) -> Result<Vec<Step>, HamtFault>
    ensures { ReadsBlock shape id.now.0 held.now.value result }
{
    match check(held.as_slice()) {
        Ok(node) => match steps_in(alloc, shape, held, node)? {
            Some(steps) => Ok(steps),
            None => Err(HamtFault::Block {
                id: *id,
                why: BlockWhy::Shape(Why::Trie),
            }),
        },
        Err(fault) => Err(HamtFault::Block {
            id: *id,
            why: BlockWhy::Cbor(fault),
        }),
    }
}

// The same of a block, which is kept for its entries.
fn steps_of(
    alloc: Global,
    shape: HamtShape,
    id: &BlockId,
    block: Octets,
) -> Result<Vec<Step>, HamtFault>
    ensures { ReadsBlock shape id.now.0 block result }
{
    let held = Rc::new(alloc, block)?;
    steps_at(alloc, shape, id, &held)
}

/// The steps of the node of this shape under an id, by one get of the store; or why it isn't to be had.
pub(crate) fn fetch<K: Store>(
    alloc: Global,
    shape: HamtShape,
    id: &BlockId,
    store: &mut K,
) -> Result<Vec<Step>, HamtFault>
    ensures { Fetches shape (K.moment store.old) id.now.0 result (K.moment store.new) }
{
    match store.get(id) {
        Ok(Some(block)) => steps_of(alloc, shape, id, block),
        Ok(None) => Err(HamtFault::Block {
            id: *id,
            why: BlockWhy::Missing,
        }),
        Err(EdgeErr::Failed) => Err(HamtFault::Store),
        Err(EdgeErr::Memory) => Err(HamtFault::Memory),
    }
}
