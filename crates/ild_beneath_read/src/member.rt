//! The members of unions.
ghost use Rattle.std.specs.Prelude.{◌≡◌, ◌<◌, Some, length};
ghost use Rattle.ild_beneath.specs.Parts.{has_kind, has_text, union_parts};
ghost use Rattle.ild_cbor.specs.Scalar.{kind_of as kind_in};
ghost use Rattle.ild_data.specs.Data.{Data};
ghost use Rattle.ild_layer_piece.specs.Pieces.{IsNumbered, StandsFor, passed_key};
ghost use Rattle.ild_schema.specs.Copies.{base as base_of};
ghost use Rattle.ild_schema.specs.DataKinds.{same_kind};
ghost use Rattle.ild_schema.specs.Marks.{mark_kind};
ghost use Rattle.ild_schema.specs.Rows.{def_at};
ghost use Rattle.ild_schema.specs.declared.def.TypeDef.TheVariants as D;
ghost use Rattle.ild_schema.specs.declared.def.UnionForm.TheVariants as UF;
ghost use Rattle.ild_typed.specs.Kinds.{kind_word_of};
ghost use Rattle.ild_typed.specs.Named.{where_some};
ghost use Rattle.ild_typed.specs.Slots.{slot_of};
ghost use Rattle.ild_beneath_read.specs.inside.Opened.{AreMapStructs, IsReady, IsWhole, MembersIn, Parted, opened_member, slot_found};

use crate::opened::Opened;
use ild_cbor::{Kind, Piece};
use ild_layer_piece::{entries, entry, kind};
use ild_schema::{Accepted, KindWord, Mark, Member, Slot, TypeNo, UnionDef, UnionForm};

// The slot of a member.
fn slot_of(member: &Member) -> Slot
    ensures { result ≡ slot_of member.now }
{
    Slot {
        ty: member.ty,
        nullable: false,
    }
}

// Whether a kind is the one that a schema names.
fn is_word(word: KindWord, kind: Kind) -> bool
    ensures { (t : Data) → kind ≡ kind_in t → result ≡ same_kind word (kind_word_of t) }
{
    word as u8 == kind as u8
}

// Whether it is the one that stands behind a member.
fn is_marked(mark: &Mark, kind: Kind) -> bool
    ensures { (t : Data) → kind ≡ kind_in t → result ≡ where_some (λ k. same_kind k (kind_word_of t)) (mark_kind mark.now) }
{
    match mark {
        Mark::Kind(word) => is_word(*word, kind),
        Mark::Bare | Mark::Text(_) => false,
    }
}

// The slot of the first member of a kind.
fn slot_by_kind(members: &[Member], kind: Kind) -> Option<Slot>
    ensures { (t : Data) → kind ≡ kind_in t → result ≡ slot_found (has_kind (kind_word_of t)) members.now }
{
    for member in members {
        if is_marked(&member.mark, kind) {
            return Some(slot_of(member));
        }
    }
    None
}

// The slot of the first member with a text.
fn slot_by_text(acc: &Accepted, base: TypeNo, def: &UnionDef, text: &str) -> Option<Slot>
    requires within { base.0 < length acc.now }
    requires known { def_at acc.now base.0 ≡ Some (D.Union def.now) }
    ensures { result ≡ slot_found (has_text text.now) def.now.members }
{
    let Some(number) = acc.part_spelled(base, text) else {
        return None;
    };
    match def.members.get(number) {
        Some(member) => Some(slot_of(member)),
        None => None,
    }
}

// A member that was found, or none.
fn member_of<'b>(slot: Option<Slot>, piece: Piece<'b>) -> Opened<'b>
    ensures { result ≡ opened_member slot piece.entry }
{
    match slot {
        Some(slot) => Opened::Member(slot, piece),
        None => Opened::Nothing,
    }
}

// The member whose text is the first key.
fn keyed<'b>(acc: &'b Accepted, base: TypeNo, def: &UnionDef, piece: &Piece<'b>) -> Opened<'b>
    requires within { base.0 < length acc.now }
    requires known { def_at acc.now base.0 ≡ Some (D.Union def.now) }
    requires members { MembersIn acc.now def.now.members }
    requires numbered { IsNumbered acc.now piece.now }
    ensures parted { (t : Data) → StandsFor acc.now piece.now t → Parted acc.now (union_parts UF.Keyed def.now.members t) result }
    ensures ready { IsReady acc.now result }
{
    let Some(mut left) = entries(acc, piece) else {
        return Opened::Nothing;
    };
    let Some((name, node)) = left.next() else {
        return Opened::Nothing;
    };
    member_of(slot_by_text(acc, base, def, name), Piece::Node(node))
}

// The member whose kind the data have.
fn kinded<'b>(acc: &Accepted, def: &UnionDef, piece: &Piece<'b>) -> Opened<'b>
    requires members { MembersIn acc.now def.now.members }
    requires numbered { IsNumbered acc.now piece.now }
    requires whole { IsWhole piece.now }
    ensures parted { (t : Data) → StandsFor acc.now piece.now t → Parted acc.now (union_parts UF.Kinded def.now.members t) result }
    ensures ready { IsReady acc.now result }
{
    member_of(slot_by_kind(def.members.as_slice(), kind(piece)), *piece)
}

// The member whose text stands under a key, and the content under another.
fn envelope<'b>(
    acc: &Accepted,
    base: TypeNo,
    def: &UnionDef,
    key: &str,
    content: &str,
    piece: &Piece<'b>,
) -> Opened<'b>
    requires within { base.0 < length acc.now }
    requires known { def_at acc.now base.0 ≡ Some (D.Union def.now) }
    requires members { MembersIn acc.now def.now.members }
    requires numbered { IsNumbered acc.now piece.now }
    ensures parted { (t : Data) → StandsFor acc.now piece.now t → Parted acc.now (union_parts (UF.Envelope key.now content.now) def.now.members t) result }
    ensures ready { IsReady acc.now result }
{
    let Some(mark) = entry(acc, piece, key) else {
        return Opened::Nothing;
    };
    let Some(node) = entry(acc, piece, content) else {
        return Opened::Nothing;
    };
    let Some(name) = mark.text() else {
        return Opened::Nothing;
    };
    member_of(slot_by_text(acc, base, def, name), Piece::Node(node))
}

// The member whose text stands under a key among its own entries.
fn inline<'b>(
    acc: &Accepted,
    own: TypeNo,
    base: TypeNo,
    def: &UnionDef,
    key: &str,
    piece: &Piece<'b>,
) -> Opened<'b>
    requires own { own.0 < length acc.now }
    requires within { base.0 < length acc.now }
    requires known { def_at acc.now base.0 ≡ Some (D.Union def.now) }
    requires passed { passed_key acc.now own.0 ≡ Some key.now }
    requires members { MembersIn acc.now def.now.members }
    requires structs { AreMapStructs acc.now def.now.members }
    requires numbered { IsNumbered acc.now piece.now }
    requires whole { IsWhole piece.now }
    ensures parted { (t : Data) → StandsFor acc.now piece.now t → Parted acc.now (union_parts (UF.Inline key.now) def.now.members t) result }
    ensures ready { IsReady acc.now result }
{
    let Some(mark) = entry(acc, piece, key) else {
        return Opened::Nothing;
    };
    let Some(name) = mark.text() else {
        return Opened::Nothing;
    };
    match piece {
        Piece::Node(node) => member_of(
            slot_by_text(acc, base, def, name),
            Piece::Inline(*node, own.0),
        ),
        _ => Opened::Nothing,
    }
}

/// The member of a union for which a piece stands, in its own slot.
pub(crate) fn open_union<'b>(
    acc: &'b Accepted,
    own: TypeNo,
    base: TypeNo,
    def: &UnionDef,
    piece: &Piece<'b>,
) -> Opened<'b>
    requires own { own.0 < length acc.now }
    requires base { base.0 ≡ base_of acc.now own.0 }
    requires within { base.0 < length acc.now }
    requires known { def_at acc.now base.0 ≡ Some (D.Union def.now) }
    requires members { MembersIn acc.now def.now.members }
    requires numbered { IsNumbered acc.now piece.now }
    requires whole { IsWhole piece.now }
    ensures parted { (t : Data) → StandsFor acc.now piece.now t → Parted acc.now (union_parts def.now.form def.now.members t) result }
    ensures ready { IsReady acc.now result }
{
    acc.recall();
    match &def.form {
        UnionForm::Keyed => keyed(acc, base, def, piece),
        UnionForm::Kinded => kinded(acc, def, piece),
        UnionForm::Envelope(key, content) => envelope(
            acc,
            base,
            def,
            key.as_str(),
            content.as_str(),
            piece,
        ),
        UnionForm::Inline(key) => inline(acc, own, base, def, key.as_str(), piece),
        UnionForm::StringPrefix => Opened::Nothing,
        UnionForm::BytesPrefix => Opened::Nothing,
    }
}
