//! Unions: each form, with a block of a member and one for each cause of a refusal, in their order.
use crate::said::{all_said, number};
use ild_cbor::{Piece, check};
use ild_compile::compile;
use ild_layer_piece::{entries, entry};
use ild_schema::{Accepted, TypeDef, TypeNo};
use ild_union::layer;
use std::test::Fail;

// Members that are told by keys of maps.
const KEYS: &str =
    "type Dot struct { x Int } type Box struct { w Int h Int } type K union { | Dot \"dot\" | Box \"box\" } representation keyed type V union { | Dot \"dot\" | Box \"box\" } representation envelope { discriminantKey \"k\" contentKey \"c\" } type I union { | Dot \"dot\" | Box \"box\" } representation inline { discriminantKey \"k\" } type Again = I";

// Members that are told by their kinds, or by what they begin with.
const FRONTS: &str =
    "type Box struct { w Int h Int } type A string type B string type Raw bytes type More bytes type Q union { | Int int | String string | Box map | Bytes bytes } representation kinded type P union { | A \"a:\" | B \"b:\" } representation stringprefix type X union { | Raw \"01\" | More \"fF02\" } representation bytesprefix";

/// What is said of a union is the number of the member, and the bytes of its part.
const KEYED: [&str; 20] = [
    "K a163626f78a2616803617702 => 1 a2616803617702",
    "K 8101 => Kind",
    "K a0 => Count",
    "K a2616101616202 => Count",
    "K a1616101 => Member",
    "V a26163a2616803617702616b63626f78 => 1 a2616803617702",
    "V 80 => Kind",
    "V a3616301616b63626f78617a00 => Name",
    "V a2616301617a00 => Name",
    "V a1617a00 => Name",
    "V a1616b63626f78 => Missing",
    "V a0 => Missing",
    "V a2616301616b6161 => Member",
    "V a2616301616b01 => Member",
    "I a3616803616b63626f78617702 => 1 a3616803616b63626f78617702",
    "Again a1616b63646f74 => 0 a1616b63646f74",
    "I 616b => Kind",
    "I a1617702 => Missing",
    "I a1616b01 => Member",
    "I a1616b6161 => Member",
];

const KINDED: [&str; 14] = [
    "Q 01 => 0 01",
    "Q 6161 => 1 6161",
    "Q a0 => 2 a0",
    "Q 4161 => 3 4161",
    "Q 80 => Kind",
    "Q f6 => Kind",
    "P 63613a78 => 0 78",
    "P 62623a => 1 ",
    "P 42613a => Kind",
    "P 62633a => Prefix",
    "X 4301aabb => 0 aabb",
    "X 42ff02 => 1 ",
    "X 62613a => Kind",
    "X 4202ff => Prefix",
];

#[test]
fn by_keys(rt: HostRuntime) -> Result<(), Fail> {
    all_said(rt.alloc(), KEYS, &KEYED)?;
    Ok(())
}

#[test]
fn by_kinds_and_prefixes(rt: HostRuntime) -> Result<(), Fail> {
    all_said(rt.alloc(), FRONTS, &KINDED)?;
    Ok(())
}

/// Whether two entries are handed out of the member's map, `w` among them, and the key of the discriminant leads to no value there.
fn is_without_key(acc: &Accepted, ty: TypeNo, block: &[u8]) -> Option<bool> {
    let root = Piece::Node(check(block).ok()?);
    if ty.0 >= acc.types() {
        return None;
    }
    let TypeDef::Union(_) = acc.def(acc.base(ty)) else {
        return None;
    };
    match layer(acc, ty, root) {
        Ok((_, part)) => {
            let names = entries(acc, &part)?.count();
            Some(names == 2 && entry(acc, &part, "w").is_some() && entry(acc, &part, "k").is_none())
        }
        Err(_) => None,
    }
}

#[test]
fn without_the_discriminant(rt: HostRuntime) -> Result<(), Fail> {
    let acc = compile(rt.alloc(), KEYS.as_bytes()).ok().ok_or("a schema")?;
    let ty = number(&acc, "Again").ok_or("a type")?;
    let block = b"\xa3\x61h\x03\x61k\x63box\x61w\x02";
    assert_eq!(rt; is_without_key(&acc, ty, block), Some(true));
    Ok(())
}
