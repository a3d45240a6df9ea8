//! The shape of a HAMT (IPLD HashMap, "bitWidth" and "bucketSize").
ghost use Rattle.std.specs.Prelude.{◌≡◌, ◌≤◌, ◌^◌, false, MatchOption};

/// How many bits of a key's hash choose a slot, and how many entries a bucket takes.
#[derive(Clone, Copy, Debug, PartialEq, Eq)]
pub struct HamtShape {
    pub width: u32,
    pub bucket: u32,
    pub ghost wide: { 3 ≤ width },
    pub ghost narrow: { width ≤ 8 },
    pub ghost filled: { 1 ≤ bucket },
    pub ghost small: { bucket ≤ 16 },
}

impl HamtShape {
    ghost use Rattle.ild_data.specs.TrieShape.{usual, trie_levels, is_shape};

    /// The shape of a HAMT of which nothing is said: 8 bits, and 3 entries.
    pub fn usual() -> HamtShape
        ensures { result ≡ usual }
    {
        HamtShape {
            width: 8,
            bucket: 3,
        }
    }

    /// The shape of so many bits, 3 to 8, and entries, 1 to 16.
    pub fn new(width: u32, bucket: u32) -> Option<HamtShape>
        ensures { MatchOption result (is_shape width bucket ≡ false) (λ p. (p.width ≡ width) × (p.bucket ≡ bucket)) }
    {
        if (3..=8).contains(&width) && (1..=16).contains(&bucket) {
            Some(HamtShape { width, bucket })
        } else {
            None
        }
    }

    /// How many slots a node has.
    pub fn slots(&self) -> usize
        ensures { result ≡ 2 ^ self.now.width }
    {
        1 << self.width
    }

    /// How many levels a HAMT has at most.
    pub fn levels(&self) -> u32
        ensures { result ≡ trie_levels self.now }
    {
        256 / self.width
    }
}
