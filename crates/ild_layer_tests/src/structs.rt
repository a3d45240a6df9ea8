//! Structs: each form, with blocks of its fields and one for each cause of a refusal. The letters of fields are those of held, absent, null
//! and implicit ones.
ghost use Rattle.std.specs.Prelude.{◌≤◌, length};
ghost use Rattle.ild_struct.specs.Parts.{fields_of};

use crate::said::{all_said, digit, word};
use ild_cbor::{Node, Piece};
use ild_layer_piece::is_null;
use ild_schema::{Accepted, TypeDef, TypeNo};
use ild_struct::{Part, StructParts, layer};
use std::test::Fail;

const SRC: &str =
    "type M struct { a Int (rename \"x\") b optional Int n nullable Int m Int (implicit 0) } type I struct \
     { n Int (implicit 0) } type T struct { a Int b optional Int c optional Int } representation tuple type \
     L struct { a Int b optional Int m Int (implicit 0) } representation listpairs type P struct { a String \
     b optional String m String (implicit \"i\") } representation stringpairs { innerDelim \"=\" entryDelim \
     \"&\" } type J struct { a String b String } representation stringjoin { join \":\" }";

/// What is said of a struct is how many of its fields are written, and a letter for each field.
const NODES: [&str; 32] = [
    "M a3616d01616ef6617801 => 3 HANH",
    "M a2616e01617801 => 2 HAHI",
    "I a0 => 0 I",
    "I a1616e00 => Implicit",
    "M 80 => Kind",
    "M a3616101616e01617801 => Name",
    "M a1616101 => Name",
    "M a1617801 => Missing",
    "M a2616d00617801 => Missing",
    "M a3616d00616e01617801 => Implicit",
    "T 8101 => 1 HAA",
    "T 83010203 => 3 HHH",
    "T 80 => Count",
    "T 8401020304 => Count",
    "T a0 => Kind",
    "L 8182616101 => 1 HAI",
    "L 83826161018261620282616d05 => 3 HHH",
    "L a0 => Kind",
    "L 8101 => Kind",
    "L 81820101 => Kind",
    "L 8281617a01 => Kind",
    "L 8182617a01 => Name",
    "L 8181617a => Name",
    "L 80 => Missing",
    "L 8180 => Missing",
    "L 8182616201 => Missing",
    "L 81816161 => Count",
    "L 828261610180 => Count",
    "L 818361610102 => Count",
    "L 828261620182616101 => Order",
    "L 828261610182616101 => Repeat",
    "L 828261610182616d00 => Implicit",
];

const TEXTS: [&str; 18] = [
    "P 63613d31 => 1 HAI",
    "P 6b613d3126623d32266d3d33 => 3 HHH",
    "P 80 => Kind",
    "P 6161 => Delimiter",
    "P 657a3d312661 => Delimiter",
    "P 60 => Missing",
    "P 637a3d31 => Name",
    "P 63623d31 => Missing",
    "P 67623d3126613d31 => Order",
    "P 67613d3126613d32 => Repeat",
    "P 67613d31266d3d69 => Implicit",
    "P 66613d3d26623d => 2 HHI",
    "J 63783a79 => 2 HH",
    "J 613a => 2 HH",
    "J 01 => Kind",
    "J 6178 => Delimiter",
    "J 65783a793a7a => Delimiter",
    "J 60 => Delimiter",
];

fn letter(part: Part<'_>) -> u8 {
    match part {
        Part::Held(_) => b'H',
        Part::Absent => b'A',
        Part::Null(_) => b'N',
        Part::Implicit => b'I',
    }
}

/// Whether the letters are those of the first fields.
fn are_said(parts: &StructParts<'_>, count: usize, letters: &[u8]) -> bool
    requires { count ≤ length (fields_of parts.now) }
{
    let mut same = count == letters.len();
    for (i, wanted) in letters.iter().enumerate() {
        same &= i < count && letter(parts.field(i)) == *wanted;
    }
    same
}

/// How many parts are written, if each is that of its letter.
fn written(parts: &StructParts<'_>, letters: &[u8]) -> Option<u32> {
    let mut count: u32 = 0;
    let mut present = parts.present();
    while let Some((i, piece)) = present.next() {
        count = count.saturating_add(1);
        let letter = if is_null(&piece) { b'N' } else { b'H' };
        if letters.get(i) != Some(&letter) {
            return None;
        }
    }
    Some(count)
}

/// Whether this is said of the layer of a struct.
pub(crate) fn is_said(acc: &Accepted, ty: TypeNo, node: Node<'_>, want: &str) -> Option<bool> {
    if ty.0 >= acc.types() {
        return None;
    }
    let TypeDef::Struct(def) = acc.def(acc.base(ty)) else {
        return None;
    };
    let count = def.fields.len();
    match layer(acc, ty, Piece::Node(node)) {
        Ok(parts) => {
            let (number, letters) = want.split_once(' ')?;
            let letters = letters.as_bytes();
            let many = digit(written(&parts, letters)?);
            Some(are_said(&parts, count, letters) && number.as_bytes() == [many].as_slice())
        }
        Err(why) => Some(word(why) == want),
    }
}

#[test]
fn structs_in_maps_and_lists(rt: HostRuntime) -> Result<(), Fail> {
    all_said(rt.alloc(), SRC, &NODES)?;
    Ok(())
}

#[test]
fn structs_in_texts(rt: HostRuntime) -> Result<(), Fail> {
    all_said(rt.alloc(), SRC, &TEXTS)?;
    Ok(())
}
