//! Forms of which a part is changed in the item that stands there.
ghost use Rattle.std.specs.Prelude.{◌≡◌, ◌<◌, Some, [], false, length, option_map, true};
ghost use Rattle.ild_cbor.specs.Nodes.{HasData};
ghost use Rattle.ild_data.specs.Data.{Data};
ghost use Rattle.ild_layer_piece.specs.Pieces.{IsNumbered, IsWithout, StandsFor, passed_key};
ghost use Rattle.ild_path_block.specs.Items.{AnswersItem, is_refusing};
ghost use Rattle.ild_path_item.specs.inside.Rewrites.{MakesChanged, has_parts};
ghost use Rattle.ild_schema.specs.Slots.{form_of};
ghost use Rattle.ild_schema.specs.declared.def.TypeDef.{TypeDef as Def};
ghost use Rattle.ild_splice.specs.Splices.{IsAt};
ghost use Rattle.ild_view.specs.View.{slot_of, table_of};

use crate::told::told;
use ild_cbor::{Node, Piece, known_root};
use ild_data::Octets;
use ild_path_apply::applied;
use ild_path_block::{PartEdit, change_of, node_of};
use ild_path_last::LastChange;
use ild_schema::{Accepted, TypeDef, TypeNo, UnionForm};
use ild_splice::{SpliceErr, changes_stay_within, nodes_are_at_places};
use ild_view::View;
use std::alloc::Global;

// The item as a block by itself.
fn apart<'b>(node: &Node<'b>) -> Node<'b>
    ensures { (t : Data) → HasData node.now t → IsAt result t [] t }
{
    // It does no work: its clause says what the node of a whole block is.
    nodes_are_at_places();
    known_root(node.spelling())
}

// The item with a change.
fn in_item(
    alloc: Global,
    item: &Node<'_>,
    change: &LastChange<'_>,
    new: Option<Node<'_>>,
) -> Result<Option<Octets>, SpliceErr>
    ensures { (t : Data) → IsAt item.now t [] t → MakesChanged t change.now new.entry result }
{
    told(applied(alloc, item, change, new, None))
}

// The key of the discriminant that stands beside a union's member, if it does.
fn discriminant(acc: &Accepted, union: u32) -> Option<&str>
    requires { union < length acc.now }
    ensures { option_map (λ k. k.now) result ≡ passed_key acc.now union }
{
    match acc.def(acc.base(TypeNo(union))) {
        TypeDef::Union(def) => match &def.form {
            UnionForm::Inline(key) => Some(key.as_str()),
            _ => None,
        },
        _ => None,
    }
}

// The same of a map without an entry. What is left is no longer than what stands there.
fn without_entry(
    alloc: Global,
    node: &Node<'_>,
    key: &str,
    change: &LastChange<'_>,
    new: Option<Node<'_>>,
) -> Result<Option<Octets>, SpliceErr>
    ensures { (t : Data) → IsWithout (Some key.now) node.now t → MakesChanged t change.now new.entry result }
{
    // They do no work: their clauses say what the node of a whole block is, and what is left by a change.
    nodes_are_at_places();
    changes_stay_within();
    let gone = LastChange::RemoveEntry(key);
    let rest = match applied(alloc, &apart(node), &gone, None, None) {
        Ok(rest) => rest,
        Err(SpliceErr::Size) => unreachable!(),
        Err(SpliceErr::Memory) => return Err(SpliceErr::Memory),
    };
    in_item(alloc, &known_root(rest.as_slice()), change, new)
}

// The item of what a piece becomes, which stands for a list or a map.
fn in_piece(
    alloc: Global,
    acc: &Accepted,
    piece: &Piece<'_>,
    change: &LastChange<'_>,
    new: Option<Node<'_>>,
) -> Result<Option<Octets>, SpliceErr>
    requires { IsNumbered acc.now piece.now }
    ensures { (t : Data) → StandsFor acc.now piece.now t → has_parts t ≡ true → MakesChanged t change.now new.entry result }
{
    match piece {
        Piece::Node(node) => in_item(alloc, &apart(node), change, new),
        Piece::Inline(node, union) => match discriminant(acc, *union) {
            Some(key) => without_entry(alloc, node, key, change, new),
            None => Ok(None),
        },
        Piece::Text(_) | Piece::Bytes(_) => Ok(None),
    }
}

/// The item of what a holder becomes whose form has no rule that could refuse it: that of the holder with the one change.
pub(crate) fn changed_item(
    alloc: Global,
    view: &View<'_>,
    segment: &str,
    edit: &PartEdit<'_>,
) -> Result<Option<Octets>, SpliceErr>
    ensures { (d : Def) → form_of (table_of view.now) (slot_of view.now) ≡ Some d → is_refusing (Some d) ≡ false → AnswersItem view.now segment.now edit.now result }
{
    let acc = view.schema();
    acc.recall();
    let Some(piece) = view.piece() else {
        return Ok(None);
    };
    let Some(change) = change_of(view, segment, edit) else {
        return Ok(None);
    };
    in_piece(alloc, acc, &piece, &change, node_of(edit))
}
