//! Whether a key belongs where it stands in a HAMT.
ghost use Rattle.std.specs.Prelude.{◌≡◌, ◌+◌, ◌<◌, ◌≤◌, length};
ghost use Rattle.ild_data.specs.TrieShape.{trie_levels};
ghost use Rattle.ild_bulk_walker.specs.Todo.{agrees, fits};

use ild_data::{HamtShape, KeyHash};
use ild_node_slots::index_of;

// Whether a hash has the indices of a way, the first of them at a depth.
fn agrees(shape: HamtShape, hash: &[u8; 32], depth: u32, way: &[u8]) -> bool
    requires { depth + length way.now ≤ trie_levels shape }
    ensures { result ≡ agrees shape hash.now depth way.now }
{
    match way {
        [] => true,
        [first, rest @ ..] => {
            index_of(hash, depth, shape) == *first && agrees(shape, hash, depth + 1, rest)
        }
    }
}

/// Whether a key belongs to an index of the node at the end of a way of indices.
pub fn fits<H: KeyHash>(keys: &H, shape: HamtShape, way: &[u8], i: u8, key: &str) -> bool
    requires { length way.now < trie_levels shape }
    ensures { result ≡ fits H.hash_of shape way.now i key.now }
{
    let hash = keys.hash(key.as_bytes());
    agrees(shape, &hash, 0, way) && index_of(&hash, way.len() as u32, shape) == i
}
