//! Blocks added to a proof.
ghost use Rattle.std.specs.Prelude.{◌≡◌, ◌++◌, ◌∷◌, [], IfOk};
ghost use Rattle.ild_view_doc.specs.Docs.{block_in};

use ild_data::Octets;
use ild_inclusion::Proof;
use ild_view_doc::Doc;
use std::alloc::{AllocError, Global};

/// A proof of the block of a root alone.
pub(crate) fn begun(alloc: Global, doc: &Doc<'_>) -> Result<Proof, AllocError>
    ensures { IfOk result (λ proof. proof ≡ block_in doc.now ∷ []) }
{
    let mut proof = Proof::new(alloc);
    proof.push(Octets::of(alloc, doc.block())?)?;
    Ok(proof)
}

/// Appends copies of blocks to a proof.
pub(crate) fn add_all(proof: &mut Proof, blocks: &[Octets]) -> Result<(), AllocError>
    ensures { IfOk result (λ _. proof.new ≡ proof.old ++ blocks.now) }
{
    for block in blocks {
        proof.push(block.copy()?)?;
    }
    Ok(())
}
