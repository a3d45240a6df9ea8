//! One HAMT on the way of a path.
ghost use Rattle.std.specs.Prelude.{◌≤◌};
ghost use Rattle.ild_path_entry.specs.Entry.{room_in};

use ild_data::Path;
use ild_hamt::Trail;
use ild_path_entry::Entry;

/// A HAMT on the way of a path, and the entry by which the path goes on.
#[derive(Drop)]
pub struct Hop<'s> {
    /// The segments from the root of the block to the HAMT.
    pub front: Path,
    /// The way of the segment that is the entry's key.
    pub trail: Trail,
    /// The value at the key, in a block of its own: so deep that there is room for the node around it.
    pub entry: Entry<'s>,
    pub ghost nests: { room_in entry ≤ 92 },
}
