//! A proof as DAG-JSON.
ghost use Rattle.std.specs.Prelude.{◌≡◌, IfOk, map};
ghost use Rattle.ild_data.specs.Data.{bytes};
ghost use Rattle.ild_data.specs.Seen.{data_of};
ghost use Rattle.ild_run_prove.specs.Proved.{Prints};
ghost use Rattle.ild_run_verify.specs.Proof.{blocks_data};

use ild_data::{Octets, Tree, Trees, Txt};
use ild_inclusion::Proof;
use ild_json::{PrintErr, print};
use std::alloc::{AllocError, Global};

// The blocks as trees, each as bytes.
fn trees_of(alloc: Global, blocks: &[Octets]) -> Result<Vec<Tree>, AllocError>
    ensures { IfOk result (λ trees. map data_of trees.items ≡ map bytes blocks.now) }
{
    let mut trees = Vec::new(alloc);
    for block in blocks {
        trees.push(Tree::Bytes(block.copy()?))?;
    }
    Ok(trees)
}

// The list of the blocks as a tree.
fn tree_of(alloc: Global, proof: &Proof) -> Result<Tree, AllocError>
    ensures { IfOk result (λ tree. data_of tree ≡ blocks_data proof.now) }
{
    let trees = trees_of(alloc, proof.blocks())?;
    Ok(Tree::List(Trees::from_vec(trees)))
}

/// The JSON of a proof: the list of its blocks, each as bytes, which can always be written.
pub(crate) fn json_of(alloc: Global, proof: &Proof) -> Result<Txt, AllocError>
    ensures { IfOk result (λ json. Prints proof.now json) }
{
    let tree = tree_of(alloc, proof)?;
    match print(alloc, &tree) {
        Ok(json) => Ok(json),
        Err(PrintErr::Reserved) => unreachable!(),
        Err(PrintErr::Memory) => Err(AllocError),
    }
}
