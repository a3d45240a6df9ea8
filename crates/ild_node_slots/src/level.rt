//! The index of a key's hash at a depth of a HAMT.
ghost use Rattle.std.specs.Prelude.{◌≡◌, ◌<◌, ◌≤◌, ◌+◌, ◌*◌, ◌^◌, true, false, slice_index};
ghost use Rattle.ild_data.specs.TrieShape.{index, index_at, trie_levels, bits_at};

use ild_data::HamtShape;

/// How many bits a hash has.
const HASH_BITS: usize = 256;

/// How many bits a byte has.
const BYTE_BITS: u32 = 8;

/// Whether a HAMT of this shape has a level at a depth: whether a hash has the bits of one more index behind those of the depths before.
pub fn has_level(shape: HamtShape, depth: usize) -> bool
    ensures yes { result ≡ true → depth < trie_levels shape }
    ensures no { result ≡ false → trie_levels shape ≤ depth }
{
    depth < HASH_BITS && (depth + 1) * shape.width as usize <= HASH_BITS
}

/// The index of a hash at a depth, its next bits, or `None` where the levels are used up.
pub fn index(hash: &[u8; 32], depth: u32, shape: HamtShape) -> Option<u8>
    ensures { result ≡ index_at shape hash.now depth }
{
    if has_level(shape, depth as usize) {
        Some(index_of(hash, depth, shape))
    } else {
        None
    }
}

/// The index of a hash at a depth that it has.
pub fn index_of(hash: &[u8; 32], depth: u32, shape: HamtShape) -> u8
    requires { depth < trie_levels shape }
    ensures index { result ≡ index shape hash.now depth }
    ensures slot { result < 2 ^ shape.width }
{
    if shape.width == BYTE_BITS {
        return hash[depth as usize];
    }
    bits_from(hash, (depth * shape.width) as usize, shape.width)
}

// So many bits of a hash, from one on: they stand in the byte of the first and the one behind it.
fn bits_from(hash: &[u8; 32], from: usize, count: u32) -> u8
    requires few { count ≤ 8 }
    requires within { from + count ≤ 256 }
    ensures bits { result ≡ bits_at hash.now from count }
    ensures small { result < 2 ^ count }
{
    let two = pair_at(hash, from / 8);
    let behind = 16 - from as u32 % 8 - count;
    ((two >> behind) % (1 << count)) as u8
}

// A byte of a hash and the one behind it, as one number. Past the last there are zeros.
fn pair_at(hash: &[u8; 32], at: usize) -> u32
    requires { at ≤ 32 }
    ensures two { result ≡ slice_index hash.now at * 2 ^ 8 + slice_index hash.now (at + 1) }
    ensures small { slice_index hash.now (at + 1) < 256 }
{
    256 * byte_at(hash, at) + byte_at(hash, at + 1)
}

fn byte_at(hash: &[u8; 32], at: usize) -> u32
    ensures byte { result ≡ slice_index hash.now at }
    ensures small { result < 256 }
{
    match hash.get(at) {
        Some(byte) => *byte as u32,
        None => 0,
    }
}
