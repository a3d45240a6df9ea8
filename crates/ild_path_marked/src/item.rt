//! The item of a union's value, form by form.
ghost use Rattle.std.specs.Prelude.{◌≡◌, option_map};
ghost use Rattle.ild_cbor.specs.Nodes.{HasData};
ghost use Rattle.ild_data.specs.Data.{Data};
ghost use Rattle.ild_path_marked.specs.inside.Parts.{is_kinded};
ghost use Rattle.ild_path_marked.specs.Tells.{Tells};
ghost use Rattle.ild_schema.specs.Marks.{mark_text};
ghost use Rattle.ild_typed.specs.Composed.{marked_form, member_form, union_form};

use crate::entries::{envelope, inline, keyed};
use crate::prefixed::{behind_bytes, behind_text};
use crate::whole::kinded;
use ild_cbor::Node;
use ild_data::Octets;
use ild_schema::{Mark, Member, UnionDef, UnionForm};
use ild_splice::SpliceErr;
use std::alloc::Global;

pub(crate) fn is_kinded(form: &UnionForm) -> bool
    ensures { result ≡ is_kinded form.now }
{
    match form {
        UnionForm::Kinded => true,
        _ => false,
    }
}

pub(crate) fn text_of(mark: &Mark) -> Option<&str>
    ensures { option_map (λ s. s.now) result ≡ mark_text mark.now }
{
    match mark {
        Mark::Text(text) => Some(text.as_str()),
        Mark::Bare | Mark::Kind(_) => None,
    }
}

// The item by the text of the member's mark.
fn of_text(
    alloc: Global,
    form: &UnionForm,
    name: &str,
    part: &Node<'_>,
) -> Result<Option<Octets>, SpliceErr>
    ensures { (d : Data) → HasData part.now d → Tells (marked_form form.now d name.now) result }
{
    match form {
        UnionForm::Keyed => keyed(alloc, name, part),
        UnionForm::Kinded => Ok(None),
        UnionForm::StringPrefix => behind_text(alloc, name, part),
        UnionForm::BytesPrefix => behind_bytes(alloc, name, part),
        UnionForm::Envelope(key, content) => {
            envelope(alloc, key.as_str(), content.as_str(), name, part)
        }
        UnionForm::Inline(key) => inline(alloc, key.as_str(), name, part),
    }
}

fn of_member(
    alloc: Global,
    form: &UnionForm,
    member: &Member,
    part: &Node<'_>,
) -> Result<Option<Octets>, SpliceErr>
    ensures { (d : Data) → HasData part.now d → Tells (member_form form.now d member.now) result }
{
    if is_kinded(form) {
        return kinded(alloc, member, part);
    }
    match text_of(&member.mark) {
        Some(name) => of_text(alloc, form, name, part),
        None => Ok(None),
    }
}

/// The item of a union's value, made from the item of its member: the canonical bytes of a new block (DAG-CBOR). A member that is told
/// by its kind is copied as it is; else its mark's text is the key of the only entry, a prefix of the member's text or bytes, or
/// the value under the discriminant's key, beside the member or among its entries, which are copied as they stand (IPLD Schemas,
/// "Union Representation Strategies").
///
/// The answer is `None` where the union has no such member, or the member's item can't stand in the union's form: it is of another kind
/// than the form or the mark asks for, or has an entry at the discriminant's key already. Where the new item would have more than
/// 4,194,304 bytes, and only there, the answer is `SpliceErr::Size`; `SpliceErr::Memory` is told of no other
/// item than one that is no longer. How deep it nests is for the caller to see to.
pub fn marked(
    alloc: Global,
    union: &UnionDef,
    member: usize,
    part: &Node<'_>,
) -> Result<Option<Octets>, SpliceErr>
    ensures { (d : Data) → HasData part.now d → Tells (union_form union.now.form union.now.members (member, d)) result }
{
    match union.members.get(member) {
        Some(member) => of_member(alloc, &union.form, member, part),
        None => Ok(None),
    }
}
