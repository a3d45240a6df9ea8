//! Spellings of values, which contracts see as the values.
ghost use Rattle.std.specs.Prelude.{◌≡◌, IfOk};
ghost use Rattle.ild_data.specs.Data.{Data};
ghost use Rattle.ild_data.specs.Limits.{IsWithin};
ghost use Rattle.ild_data.specs.Spell.{spell};
ghost use Rattle.ild_cbor.specs.Nodes.{HasData};
ghost use Rattle.ild_typed.specs.Nested.{IsBlock};

use ild_cbor::Node;
use ild_data::Octets;
use std::alloc::{AllocError, Global};
use std::marker::Model;

/// The spelling of one value, owned.
#[derive(Drop)]
pub struct Spelled {
    bytes: Octets,
}

impl Model for Spelled {
    ghost use Rattle.ild_data.specs.Data.{Data};
    ghost use Rattle.ild_node_slots.specs.Spelled.{data_coded, tree_in, IsFaultless};

    ghost Value = { Data };

    ghost coded = { data_coded };

    ghost view = { λ a. tree_in a.bytes };

    ghost invariant = { λ a. IsFaultless a.bytes };
}

impl Spelled {
    /// The spelling of a node, copied from its block.
    pub fn of(alloc: Global, node: &Node<'_>) -> Result<Spelled, AllocError>
        ensures same { (t : Data) → HasData node.now t → IfOk result (λ s. s ≡ t) }
        ensures within { IfOk result IsWithin }
    {
        let bytes = Octets::of(alloc, node.spelling())?;
        let _bytes = bytes.as_slice();
        Ok(Spelled { bytes })
    }

    /// Bytes that are known to spell a value within the limits of a block.
    pub fn known(bytes: Octets) -> Spelled
        requires { IsBlock bytes }
        ensures { (t : Data) → IsWithin t → bytes ≡ spell t → result ≡ t }
    {
        Spelled { bytes }
    }

    /// The same value, spelled anew.
    pub fn copy(&self) -> Result<Spelled, AllocError>
        ensures { IfOk result (λ s. s ≡ self.now) }
    {
        Ok(Spelled {
            bytes: self.bytes.copy()?,
        })
    }

    /// The bytes alone.
    pub fn into_octets(self) -> Octets
        ensures { result ≡ spell self }
    {
        let _bytes = self.bytes.as_slice();
        self.bytes
    }

    /// The bytes, of a value within the limits of a block.
    pub fn as_slice(&self) -> &[u8]
        ensures spelled { result.now ≡ spell self.now }
        ensures within { IsWithin self.now }
    {
        self.bytes.as_slice()
    }
}
