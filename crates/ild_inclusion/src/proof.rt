//! Proofs.
ghost use Rattle.std.specs.Prelude.{◌≡◌, ◌++◌, ◌∷◌, [], OnOk, OnErr};

use ild_data::Octets;
use std::alloc::{AllocError, Global};
use std::marker::Model;

/// A proof: the block of the root, and the nodes of HAMTs on the way of a path, in the order in which it meets them.
#[derive(Drop)]
pub struct Proof {
    blocks: Vec<Octets>,
}

impl Model for Proof {
    ghost use Rattle.std.specs.Prelude.{List, ℕ};

    ghost Value = { List (List ℕ) };

    ghost view = { λ a. a.blocks.items };
}

impl Proof {
    /// No block yet.
    pub fn new(alloc: Global) -> Proof
        ensures { result ≡ [] }
    {
        Proof {
            blocks: Vec::new(alloc),
        }
    }

    /// Appends a block.
    pub fn push(&mut self, block: Octets) -> Result<(), AllocError>
        ensures ok { OnOk result (self.new ≡ self.old ++ block ∷ []) }
        ensures err { OnErr result (self.new ≡ self.old) }
    {
        self.blocks.push(block)?;
        Ok(())
    }

    /// The blocks.
    pub fn blocks(&self) -> &[Octets]
        ensures { result.now ≡ self.now }
    {
        &self.blocks
    }
}
