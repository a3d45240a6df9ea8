//! What stays the same while a value is read.
ghost use Rattle.std.specs.Prelude.{◌≡◌, false, true};
ghost use Rattle.ild_open_read.specs.inside.Sound.{IsPassed, Remembers};

use ild_cbor::Node;
use ild_data::KeyHash;
use ild_open_known::{Known, ReadAs, Seat};
use std::alloc::Global;

/// What stays the same while a value is read.
#[derive(Drop)]
pub(crate) struct Reader<'k, H: KeyHash> {
    /// Where the parts of the value are kept.
    pub(crate) alloc: Global,
    /// Whether the value is to be kept.
    pub(crate) keep: bool,
    /// How the keys of HAMTs are hashed.
    pub(crate) keys: &'k H,
}

impl<'k, H: KeyHash> Reader<'k, H> {
    /// Whether the HAMT of a root, of which nothing is to be kept, was found sound: then it needn't be read. The root's seat is handed in.
    pub(crate) fn passes(&self, known: &Known, seat: Seat, read_as: ReadAs, root: &Node<'_>) -> bool
        requires off { self.now.keep ≡ false }
        ensures { result ≡ true → IsPassed self.now.keep known.now read_as root.now }
    {
        let bytes = root.spelling();
        known.has(seat, read_as, bytes)
    }

    /// Remembers that the HAMT of a root is sound, at the root's seat.
    pub(crate) fn remembers(&self, known: &mut Known, seat: Seat, read_as: ReadAs, root: &Node<'_>)
        ensures { Remembers known.old known.new read_as root.now }
    {
        let bytes = root.spelling();
        known.add(self.alloc, seat, read_as, bytes);
    }
}
