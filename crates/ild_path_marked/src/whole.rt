//! Members that are told by their kinds.
ghost use Rattle.std.specs.Prelude.{◌≡◌};
ghost use Rattle.std.specs.Option.{option_map_or};
ghost use Rattle.ild_cbor.specs.Nodes.{HasData};
ghost use Rattle.ild_data.specs.Data.{Data};
ghost use Rattle.ild_path_marked.specs.inside.Parts.{is_kind, word_of};
ghost use Rattle.ild_path_marked.specs.Tells.{Tells};
ghost use Rattle.ild_schema.specs.DataKinds.{same_kind};
ghost use Rattle.ild_schema.specs.declared.def.UnionForm.TheVariants as F;
ghost use Rattle.ild_typed.specs.Composed.{member_form};

use crate::part::Part;
use crate::write::made;
use ild_cbor::{Kind, Node};
use ild_data::Octets;
use ild_schema::{KindWord, Mark, Member};
use ild_splice::SpliceErr;
use std::alloc::Global;

fn word_of(kind: Kind) -> KindWord
    ensures { result ≡ word_of kind }
{
    match kind {
        Kind::Null => KindWord::Null,
        Kind::Bool => KindWord::Bool,
        Kind::Int => KindWord::Int,
        Kind::Text => KindWord::Text,
        Kind::Bytes => KindWord::Bytes,
        Kind::List => KindWord::List,
        Kind::Map => KindWord::Map,
        Kind::Link => KindWord::Link,
    }
}

fn same_word(a: KindWord, b: KindWord) -> bool
    ensures { result ≡ same_kind a b }
{
    a as u8 == b as u8
}

// Whether a mark is a kind, and this one.
pub(crate) fn is_kind(mark: &Mark, word: KindWord) -> bool
    ensures { result ≡ is_kind mark.now word }
{
    match mark {
        Mark::Kind(own) => same_word(*own, word),
        Mark::Bare | Mark::Text(_) => false,
    }
}

/// The member itself, where it is of its kind.
pub(crate) fn kinded(
    alloc: Global,
    member: &Member,
    part: &Node<'_>,
) -> Result<Option<Octets>, SpliceErr>
    ensures { (d : Data) → HasData part.now d → Tells (member_form F.Kinded d member.now) result }
{
    if !is_kind(&member.mark, word_of(part.kind())) {
        return Ok(None);
    }
    made(alloc, &[Part::Spelled(part.spelling())])
}
