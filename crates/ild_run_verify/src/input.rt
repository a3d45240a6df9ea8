//! A proof, read from its input.
ghost use Rattle.std.specs.Prelude.{map};
ghost use Rattle.ild_data.specs.Seen.{data_of};
ghost use Rattle.ild_run_verify.specs.inside.Read.{ReadsProof, ReadsItems, ReadsList};

use crate::VerifyFault;
use ild_data::Tree;
use ild_inclusion::Proof;
use ild_json::{JsonErr, read};
use std::alloc::Global;

// The proof whose blocks these are, each as bytes.
fn proof_of_items(alloc: Global, items: Vec<Tree>) -> Result<Proof, VerifyFault>
    ensures { ReadsItems (map data_of items.items) result }
{
    let mut proof = Proof::new(alloc);
    for item in items {
        let Tree::Bytes(block) = item else {
            return Err(VerifyFault::Proof);
        };
        proof.push(block)?;
    }
    Ok(proof)
}

// The proof that data are: the list of its blocks.
fn proof_of_tree(alloc: Global, tree: Tree) -> Result<Proof, VerifyFault>
    ensures { ReadsList (data_of tree) result }
{
    match tree {
        Tree::List(items) => proof_of_items(alloc, items.into_vec()),
        _ => Err(VerifyFault::Proof),
    }
}

/// The proof that an input is: the list of its blocks, each as bytes, in DAG-JSON.
pub(crate) fn proof_of(alloc: Global, input: &[u8]) -> Result<Proof, VerifyFault>
    ensures { ReadsProof input.now result }
{
    match read(alloc, input) {
        Ok(tree) => proof_of_tree(alloc, tree),
        Err(JsonErr::Memory) => Err(VerifyFault::Memory),
        Err(
            JsonErr::Syntax | JsonErr::Number | JsonErr::Reserved | JsonErr::Bytes | JsonErr::Cid,
        ) => Err(VerifyFault::Proof),
    }
}
