//! What a HAMT is read as.
ghost use Rattle.std.specs.Prelude.{◌≡◌, ◌++◌, true};
ghost use Rattle.sha2.specs.Hashers.{Holds256};
ghost use Rattle.sha2.specs.Sha256.{sha256};
ghost use Rattle.ild_open_known.specs.Covers.{Covers};
ghost use Rattle.ild_open_known.specs.Seats.{kind_bytes};

use ild_data::{BlockId, HamtShape};
use ild_schema::{Slot, TypeNo};
use sha2::{Digest, Sha256};

/// What the entries of a HAMT are read as, its shape, and how many levels there is room for.
#[derive(Clone, Copy)]
pub struct ReadAs {
    /// The type of its keys.
    pub key: TypeNo,
    /// The slot of its values.
    pub value: Slot,
    /// Its shape.
    pub shape: HamtShape,
    /// The levels that its entries may take.
    pub room: u32,
}

/// Where a root or a node stands among those that are known: worked out once, to look for it and to add it. Who asks at another's seat
/// finds nothing.
#[derive(Clone, Copy)]
pub struct Seat {
    pub(crate) digest: [u8; 32],
}

// Whether two shapes have the same numbers.
fn is_shape(a: HamtShape, b: HamtShape) -> bool
    ensures { result ≡ true → a ≡ b }
{
    a.width == b.width && a.bucket == b.bucket
}

// Whether two slots are the same.
fn is_slot(a: Slot, b: Slot) -> bool
    ensures { result ≡ true → a ≡ b }
{
    a.ty.0 == b.ty.0 && a.nullable == b.nullable
}

impl ReadAs {
    /// Whether the other is the same, with no less room.
    pub(crate) fn covers(self, other: ReadAs) -> bool
        ensures { result ≡ true → Covers self other }
    {
        self.key.0 == other.key.0
            && is_slot(self.value, other.value)
            && is_shape(self.shape, other.shape)
            && self.room <= other.room
    }

    // A hash that has taken this in, whatever the room.
    fn begun(self) -> Sha256
        ensures { Holds256 result (kind_bytes self) }
    {
        let mut hasher = Sha256::new();
        hasher.update(&self.key.0.to_be_bytes());
        hasher.update(&self.value.ty.0.to_be_bytes());
        hasher.update(&[self.value.nullable as u8]);
        hasher.update(&self.shape.width.to_be_bytes());
        hasher.update(&self.shape.bucket.to_be_bytes());
        hasher
    }

    /// The seat of a root with these bytes that is read as this, in whatever room.
    pub fn seat(self, bytes: &[u8]) -> Seat
        ensures { result.digest ≡ sha256 (kind_bytes self ++ bytes.now) }
    {
        let mut hasher = self.begun();
        hasher.update(bytes);
        Seat {
            digest: hasher.finalize(),
        }
    }

    /// The seat of the node under an id at the end of a way, in a HAMT that is read as this, in whatever room.
    pub fn seat_at(self, id: BlockId, way: &[u8]) -> Seat
        ensures { result.digest ≡ sha256 ((kind_bytes self ++ id.0) ++ way.now) }
    {
        let mut hasher = self.begun();
        hasher.update(&id.0);
        hasher.update(way);
        Seat {
            digest: hasher.finalize(),
        }
    }
}
