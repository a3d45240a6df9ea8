//! The tables of what was found sound: of HAMTs, and of the nodes in them.
ghost use Rattle.std.specs.Prelude.{◌≡◌, ◌⊎◌, [], true, List, ℕ, Contains};
ghost use Rattle.ild_open_known.specs.Covers.{IsKnown, IsKnownNode, IsSpot};
ghost use Rattle.ild_open_known.specs.Roots.{known_in, nodes_in};
ghost use Rattle.ild_open_known.specs.declared.kind.ReadAs.{ReadAs as As};

use crate::kind::{ReadAs, Seat};
use ild_data::{BlockId, Octets};
use std::alloc::{AllocError, Global};
use std::collections::BTreeMap;

// The root of a HAMT, and what it was read as.
#[derive(Drop)]
pub(crate) struct Root {
    pub(crate) read_as: ReadAs,
    pub(crate) bytes: Octets,
}

// A node beneath the root of a HAMT, at the end of a way of indices, and what the HAMT was read as.
#[derive(Drop)]
pub(crate) struct Spot {
    pub(crate) read_as: ReadAs,
    pub(crate) id: BlockId,
    pub(crate) way: Octets,
}

// Whether it is the node under an id at the end of a way.
fn is_at(spot: &Spot, id: BlockId, way: &[u8]) -> bool
    ensures { result ≡ true → IsSpot spot.now id.0 way.now }
{
    spot.id == id && spot.way.as_slice() == way
}

/// The roots of HAMTs that were found sound, and the nodes beneath roots, each with what it was read as.
#[derive(Drop)]
pub struct Known {
    pub(crate) roots: BTreeMap<[u8; 32], Root>,
    pub(crate) nodes: BTreeMap<[u8; 32], Spot>,
}

impl Known {
    /// None.
    pub fn new(alloc: Global) -> Known
        ensures roots { known_in result ≡ [] }
        ensures nodes { nodes_in result ≡ [] }
    {
        Known {
            roots: BTreeMap::new(alloc),
            nodes: BTreeMap::new(alloc),
        }
    }

    /// Whether a root with these bytes, whose seat this is, was found sound, read as this in no greater room. What was added may be missed
    /// where memory was wanting.
    pub fn has(&self, seat: Seat, read_as: ReadAs, bytes: &[u8]) -> bool
        ensures { result ≡ true → IsKnown (known_in self.now) read_as bytes.now }
    {
        match self.roots.get(&seat.digest) {
            Some(root) => root.read_as.covers(read_as) && root.bytes.as_slice() == bytes,
            None => false,
        }
    }

    // Adds a root, as `add` does, and tells where memory is wanting.
    fn put(
        &mut self,
        alloc: Global,
        seat: Seat,
        read_as: ReadAs,
        bytes: &[u8],
    ) -> Result<(), AllocError>
        ensures added { (r : As × List ℕ) → Contains (known_in self.new) r → Contains (known_in self.old) r ⊎ (r ≡ (read_as, bytes.now)) }
        ensures nodes { nodes_in self.new ≡ nodes_in self.old }
    {
        let root = Root {
            read_as,
            bytes: Octets::of(alloc, bytes)?,
        };
        self.roots.insert(seat.digest, root)?;
        Ok(())
    }

    /// Adds a root that was found sound, read as this, at its seat, in the place of the same one in another room. Where memory is wanting
    /// it isn't added.
    pub fn add(&mut self, alloc: Global, seat: Seat, read_as: ReadAs, bytes: &[u8])
        ensures added { (r : As × List ℕ) → Contains (known_in self.new) r → Contains (known_in self.old) r ⊎ (r ≡ (read_as, bytes.now)) }
        ensures nodes { nodes_in self.new ≡ nodes_in self.old }
    {
        let _added = self.put(alloc, seat, read_as, bytes);
    }

    /// Whether the node under an id, whose seat this is, was found sound at this way from a root, read as this in no greater room. What
    /// was added may be missed where memory was wanting.
    pub fn has_node(&self, seat: Seat, read_as: ReadAs, id: BlockId, way: &[u8]) -> bool
        ensures { result ≡ true → IsKnownNode (nodes_in self.now) read_as id.0 way.now }
    {
        match self.nodes.get(&seat.digest) {
            Some(spot) => spot.read_as.covers(read_as) && is_at(spot, id, way),
            None => false,
        }
    }

    // Adds a node, as `add_node` does, and tells where memory is wanting.
    fn put_node(
        &mut self,
        alloc: Global,
        seat: Seat,
        read_as: ReadAs,
        id: BlockId,
        way: &[u8],
    ) -> Result<(), AllocError>
        ensures added { (r : As × List ℕ × List ℕ) → Contains (nodes_in self.new) r → Contains (nodes_in self.old) r ⊎ (r ≡ (read_as, id.0, way.now)) }
        ensures roots { known_in self.new ≡ known_in self.old }
    {
        let spot = Spot {
            read_as,
            id,
            way: Octets::of(alloc, way)?,
        };
        self.nodes.insert(seat.digest, spot)?;
        Ok(())
    }

    /// Adds a node that was found sound at a way, read as this, at its seat, in the place of the same one in another room. Where memory is
    /// wanting it isn't added.
    pub fn add_node(&mut self, alloc: Global, seat: Seat, read_as: ReadAs, id: BlockId, way: &[u8])
        ensures added { (r : As × List ℕ × List ℕ) → Contains (nodes_in self.new) r → Contains (nodes_in self.old) r ⊎ (r ≡ (read_as, id.0, way.now)) }
        ensures roots { known_in self.new ≡ known_in self.old }
    {
        let _added = self.put_node(alloc, seat, read_as, id, way);
    }
}
