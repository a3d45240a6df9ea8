//! A union whose members are told by their kinds.
ghost use Rattle.std.specs.Prelude.{◌≡◌, ◌<◌, ◌≤◌, IfOk, IfSome, List, length};
ghost use Rattle.std.specs.List.{position_from};
ghost use Rattle.ild_data.specs.Data.{Data};
ghost use Rattle.ild_layer_piece.specs.Pieces.{StandsFor};
ghost use Rattle.ild_schema.specs.DataKinds.{is_marked, same_kind};
ghost use Rattle.ild_schema.specs.Marks.{mark_kind};
ghost use Rattle.ild_schema.specs.declared.def.UnionForm.TheVariants as F;
ghost use Rattle.ild_schema.specs.declared.row.Row.{Row};
ghost use Rattle.ild_union.specs.inside.Answers.{UnionAnswer, word_of};

use ild_cbor::{Kind, Piece, Why};
use ild_layer_piece::kind;
use ild_schema::{KindWord, Mark, Member, UnionDef};

fn word_of(kind: Kind) -> KindWord
    ensures { result ≡ word_of kind }
{
    match kind {
        Kind::Null => KindWord::Null,
        Kind::Bool => KindWord::Bool,
        Kind::Int => KindWord::Int,
        Kind::Text => KindWord::Text,
        Kind::Bytes => KindWord::Bytes,
        Kind::List => KindWord::List,
        Kind::Map => KindWord::Map,
        Kind::Link => KindWord::Link,
    }
}

fn same_word(a: KindWord, b: KindWord) -> bool
    ensures { result ≡ same_kind a b }
{
    a as u8 == b as u8
}

fn is_marked(mark: &Mark, word: KindWord) -> bool
    ensures { result ≡ is_marked word (mark_kind mark.now) }
{
    match mark {
        Mark::Kind(own) => same_word(*own, word),
        Mark::Bare | Mark::Text(_) => false,
    }
}

// The first member of a kind, of the eight that an accepted schema has at most: each is of another kind.
fn number_of(members: &[Member], word: KindWord) -> Option<usize>
    ensures first { result ≡ position_from (λ m. is_marked word (mark_kind m.mark)) 0 members.now }
    ensures within { IfSome result (λ n. n < length members.now) }
{
    members
        .iter()
        .position(|member| is_marked(&member.mark, word))
}

/// The member whose kind the data have, for which the piece itself stands.
pub(crate) fn kinded<'b>(def: &UnionDef, piece: &Piece<'b>) -> Result<(u32, Piece<'b>), Why>
    requires { length def.now.members ≤ 1024 }
    ensures answer { (rows : List Row) (t : Data) → StandsFor rows piece.now t → def.now.form ≡ F.Kinded → UnionAnswer rows def.now t result }
    ensures within { IfOk result (λ p. p.0 < length def.now.members) }
    ensures same { IfOk result (λ p. p.1 ≡ piece.now) }
{
    let word = word_of(kind(piece));
    match number_of(def.members.as_slice(), word) {
        Some(number) => Ok((number as u32, *piece)),
        None => Err(Why::Kind),
    }
}
