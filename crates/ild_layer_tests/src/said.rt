//! What is said of a block as the layer of a type, in rows of tables.
use crate::structs;
use hex::{decode, encode};
use ild_cbor::{Piece, Why, check};
use ild_compile::compile;
use ild_enum::unit;
use ild_schema::{Accepted, TypeDef, TypeNo};
use std::alloc::Global;

/// A cause by its name.
pub(crate) fn word(why: Why) -> &'static str {
    match why {
        Why::Kind => "Kind",
        Why::Name => "Name",
        Why::Missing => "Missing",
        Why::Count => "Count",
        Why::Order => "Order",
        Why::Repeat => "Repeat",
        Why::Implicit => "Implicit",
        Why::Delimiter => "Delimiter",
        Why::Prefix => "Prefix",
        Why::Member => "Member",
        Why::Depth => "Depth",
        Why::Trie => "Trie",
        Why::HashAlg => "HashAlg",
        Why::BucketSize => "BucketSize",
    }
}

/// The digit of a small number.
pub(crate) fn digit(number: u32) -> u8 {
    b'0' + (number % 10) as u8
}

/// The number of a declared type.
pub(crate) fn number(acc: &Accepted, name: &str) -> Option<TypeNo> {
    acc.type_named(name)
}

/// The bytes of the item, or of the part of one, for which a piece stands.
fn bytes_of<'b>(piece: Piece<'b>) -> &'b [u8] {
    match piece {
        Piece::Node(node) | Piece::Inline(node, _) => node.spelling(),
        Piece::Text(text) => text.as_bytes(),
        Piece::Bytes(bytes) => bytes,
    }
}

fn is_member(found: Result<u32, Why>, want: &str) -> bool {
    match found {
        Ok(member) => want.as_bytes() == [digit(member)].as_slice(),
        Err(why) => word(why) == want,
    }
}

fn is_unit(found: Result<(), Why>, want: &str) -> bool {
    match found {
        Ok(()) => want == "0",
        Err(why) => word(why) == want,
    }
}

fn is_part(alloc: Global, found: Result<(u32, Piece<'_>), Why>, want: &str) -> Option<bool> {
    match found {
        Ok((member, part)) => {
            let (front, bytes) = want.split_once(' ')?;
            let told = encode(alloc, bytes_of(part)).ok()?;
            Some(is_member(Ok(member), front) && told.as_str() == bytes)
        }
        Err(why) => Some(word(why) == want),
    }
}

/// Whether this is said of a block.
fn is_said(alloc: Global, acc: &Accepted, name: &str, block: &[u8], want: &str) -> Option<bool> {
    let ty = number(acc, name)?;
    let node = check(block).ok()?;
    let root = Piece::Node(node);
    if ty.0 >= acc.types() {
        return None;
    }
    match acc.def(acc.base(ty)) {
        TypeDef::Unit(_) => Some(is_unit(unit(acc, ty, root), want)),
        TypeDef::Enum(_) => Some(is_member(ild_enum::layer(acc, ty, root), want)),
        TypeDef::Union(_) => is_part(alloc, ild_union::layer(acc, ty, root), want),
        _ => structs::is_said(acc, ty, node, want),
    }
}

/// Whether a row is so: a type, a block in hexadecimals, and behind ` => ` what is said, or the cause of the refusal.
fn is_so(alloc: Global, acc: &Accepted, row: &str) -> Option<bool> {
    let (given, want) = row.split_once(" => ")?;
    let (name, block) = given.split_once(' ')?;
    let block = decode(alloc, block).ok()?;
    is_said(alloc, acc, name, &block, want)
}

/// The first row of a table that isn't so under a schema is an error.
pub(crate) fn all_said(
    alloc: Global,
    src: &str,
    rows: &[&'static str],
) -> Result<(), &'static str> {
    let acc = compile(alloc, src.as_bytes()).ok().ok_or("a schema")?;
    for row in rows {
        if is_so(alloc, &acc, row) != Some(true) {
            return Err(*row);
        }
    }
    Ok(())
}
