//! The hashes of a HAMT's keys. That of `abc` is the first example of FIPS 180-4.
use ild_data::{KeyHash, PadKeys, Sha256Keys};

/// The first four bytes of a key's hash, by a type that hashes keys.
fn first_bytes<H: KeyHash>(keys: &H, key: &[u8]) -> [u8; 4] {
    let hash = keys.hash(key);
    [hash[0], hash[1], hash[2], hash[3]]
}

/// Keys, and how their hashes begin: the sha2-256, and the padded key.
const HASHED: [(&[u8], [u8; 4], [u8; 4]); 2] = [
    (b"abc", [0xba, 0x78, 0x16, 0xbf], [0x61, 0x62, 0x63, 0]),
    (b"", [0xe3, 0xb0, 0xc4, 0x42], [0, 0, 0, 0]),
];

#[test]
fn keys_are_hashed(rt: HostRuntime) {
    for (key, hashed, padded) in HASHED {
        assert_eq!(rt; first_bytes(&Sha256Keys, key), hashed);
        assert_eq!(rt; first_bytes(&PadKeys, key), padded);
    }
}

#[test]
fn long_keys_are_cut(rt: HostRuntime) {
    let long = PadKeys.hash(b"kkkkkkkkkkkkkkkkkkkkkkkkkkkkkkkk1");
    assert_eq!(rt; long[31], 0x6b);
    assert!(rt; long == PadKeys.hash(b"kkkkkkkkkkkkkkkkkkkkkkkkkkkkkkkk"));
}
