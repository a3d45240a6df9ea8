//! CIDs and their texts: an example of each answer. More of them are cases of `new` and `show` (`CIDS` of tests/conformance/tables.py).
use ild_data::{BlockId, CidFault, CidRef, TextErr, cid_of_text, cid_text};
use std::test::Fail;

/// Version 1, DAG-CBOR, sha2-256, and 32 bytes 00.
const ZERO: [u8; 36] = [
    0x01, 0x71, 0x12, 0x20, 0, 0, 0, 0, 0, 0, 0, 0, 0, 0, 0, 0, 0, 0, 0, 0, 0, 0, 0, 0, 0, 0, 0, 0,
    0, 0, 0, 0, 0, 0, 0, 0,
];

/// By python3's `base64.b32encode`.
const ZERO_TEXT: &str = "bafyreiaaaaaaaaaaaaaaaaaaaaaaaaaaaaaaaaaaaaaaaaaaaaaaaaaaaa";

/// Bytes, and why they are no CID.
const FAULTS: [(&[u8], Option<CidFault>); 6] = [
    (&[1, 0x71, 0x12, 0x20, 0], Some(CidFault::Short)),
    (&[1, 0x80, 0x80, 0x00], Some(CidFault::Varint)),
    (&[0x12, 0x20, 0, 0], Some(CidFault::Version)),
    (&[1, 0x71, 0x12, 65], Some(CidFault::Long)),
    (&[1, 0x71, 0x12, 0, 7], Some(CidFault::Rest)),
    (&ZERO, None),
];

#[test]
fn faults(rt: HostRuntime) {
    for (bytes, want) in FAULTS {
        assert_eq!(rt; CidRef::read(bytes).err(), want);
    }
}

#[test]
fn parts(rt: HostRuntime) -> Result<(), Fail> {
    let bytes = [1, 0xa9, 0x02, 0xa2, 0x20, 2, 8, 9];
    let cid = CidRef::read(&bytes)?;
    assert_eq!(rt; (cid.codec(), cid.hash()), (0x0129, 0x1022));
    assert_eq!(rt; cid.digest(), [8, 9].as_slice());
    assert_eq!(rt; cid.block(), None);
    Ok(())
}

#[test]
fn blocks_of_cids(rt: HostRuntime) -> Result<(), Fail> {
    let id = BlockId([0; 32]);
    assert_eq!(rt; CidRef::read(&ZERO)?.block(), Some(id));
    assert_eq!(rt; id.text(rt.alloc())?.as_str(), ZERO_TEXT);
    Ok(())
}

#[test]
fn texts(rt: HostRuntime) -> Result<(), Fail> {
    let cid = cid_of_text(rt.alloc(), ZERO_TEXT)?;
    assert_eq!(rt; cid.as_slice(), ZERO.as_slice());
    assert_eq!(rt; cid_text(rt.alloc(), &cid.view())?.as_str(), ZERO_TEXT);
    Ok(())
}

/// Texts that are none of a CID.
const NO_TEXTS: [(&str, TextErr); 4] = [
    ("BAFYREIA", TextErr::Prefix),
    ("ba1", TextErr::Digit),
    ("baf", TextErr::Bits),
    ("bci", TextErr::Cid(CidFault::Version)),
];

#[test]
fn no_texts(rt: HostRuntime) {
    for (text, want) in NO_TEXTS {
        let found = cid_of_text(rt.alloc(), text).err();
        assert!(rt; found == Some(want) || found == Some(TextErr::Memory));
    }
}
