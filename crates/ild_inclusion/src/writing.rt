//! What is found, written out.
ghost use Rattle.std.specs.Prelude.{◌≡◌, IfOk, Ok};
ghost use Rattle.ild_inclusion.specs.Given.{HasMemory};
ghost use Rattle.ild_inclusion.specs.Verifies.{result_of};
ghost use Rattle.ild_inclusion.specs.inside.Found.{IsFound};
ghost use Rattle.ild_inclusion.specs.inside.Shown.{IsShown};
ghost use Rattle.ild_inclusion.specs.declared.answer.Answer.{Answer as Said};
ghost use Rattle.ild_schema.specs.Value.{Value};
ghost use Rattle.ild_view.specs.View.{IsView, slot_of, table_of};

use crate::answer::{Answer, Part};
use crate::fault::VerifyErr;
use crate::found::Found;
use ild_cbor::Piece;
use ild_data::Octets;
use ild_emit::Emit;
use ild_view::View;
use std::alloc::{AllocError, Global};

// The spelling of the representation at a view, written out.
fn written(alloc: Global, view: &View<'_>) -> Result<Octets, AllocError>
    ensures { (f : Value) → IsView view.now f → IfOk result (IsShown (table_of view.now) (slot_of view.now) f) }
{
    let tree = view.rep(alloc)?;
    let mut out = Emit::new(alloc);
    out.tree(&tree)?;
    Ok(out.finish())
}

// The spelling of the representation at a view: an item of the block is copied as it stands there.
fn spelling(alloc: Global, view: &View<'_>) -> Result<Octets, AllocError>
    ensures { (f : Value) → IsView view.now f → IfOk result (IsShown (table_of view.now) (slot_of view.now) f) }
{
    match view.piece() {
        Some(Piece::Node(node)) => Octets::of(alloc, node.spelling()),
        Some(Piece::Text(_) | Piece::Bytes(_) | Piece::Inline(_, _)) => written(alloc, view),
        None => written(alloc, view),
    }
}

/// The answer of what is found: the representation of a part is spelled.
pub(crate) fn spelled(alloc: Global, found: &Found<'_>) -> Result<Answer, VerifyErr>
    ensures { (a : Said) → IsFound found.now a → HasMemory result → result ≡ Ok a }
{
    match found {
        Found::Here(view) => Ok(Answer::Here(spelling(alloc, view)?)),
        Found::Absent(k) => Ok(Answer::Absent(*k)),
    }
}

/// The same, with the representation as a tree.
pub(crate) fn planted(alloc: Global, found: &Found<'_>) -> Result<Part, VerifyErr>
    ensures { (a : Said) → IsFound found.now a → HasMemory result → result_of result ≡ Ok a }
{
    match found {
        Found::Here(view) => Ok(Part::Here(view.rep(alloc)?)),
        Found::Absent(k) => Ok(Part::Absent(*k)),
    }
}
