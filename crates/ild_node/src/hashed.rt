//! Entries that are spelled, with the hashes of their keys.

/// The spelling of an entry (IPLD HashMap, "BucketEntry"), and the hash of its key.
#[derive(Clone, Copy)]
pub struct HashedEntry<'b> {
    pub hash: [u8; 32],
    pub entry: &'b [u8],
}
