//! Parts by their places: elements of lists, and the items of a list inside an Any.
ghost use Rattle.std.specs.Prelude.{◌≡◌, ◌<◌, ◌^◌, ℕ, List, Some, codes, is_some, length, true};
ghost use Rattle.ild_data.specs.Data as T;
ghost use Rattle.ild_data.specs.Data.{Data};
ghost use Rattle.ild_data.specs.Key.{same_text};
ghost use Rattle.ild_path_edits.specs.Table.{new_index};
ghost use Rattle.ild_path_last.specs.Change.{TellsListed};
ghost use Rattle.ild_path_last.specs.declared.change.LastChange.TheVariants as C;
ghost use Rattle.ild_layer_piece.specs.Pieces.{StandsFor};
ghost use Rattle.ild_schema.specs.Slots.{form_of};
ghost use Rattle.ild_schema.specs.declared.row.Row.{Row};
ghost use Rattle.ild_path_steps.specs.declared.steps.PartSteps.TheVariants as P;
ghost use Rattle.ild_typed.specs.Segment.{index_of};

use crate::change::LastChange;
use ild_cbor::{Kind, Piece};
use ild_layer_piece::kind;
use ild_path_steps::{PartSteps, index};
use ild_schema::{Accepted, Slot, TypeDef};

/// Whether the parts of a holder have places.
pub(crate) fn is_listed(acc: &Accepted, slot: Slot, piece: &Piece<'_>) -> bool
    requires { slot.ty.0 < length acc.now }
    ensures known { is_some (form_of acc.now slot) ≡ true }
    ensures told { TellsListed acc.now (StandsFor acc.now piece.now) slot result }
{
    match acc.def(acc.base(slot.ty)) {
        TypeDef::List { .. } => true,
        TypeDef::Any => kind(piece) == Kind::List,
        _ => false,
    }
}

/// The item at a place becomes the new part's.
pub(crate) fn item_set<'a>(segment: &str) -> LastChange<'a>
    ensures { (i : ℕ) → index_of segment.now ≡ Some i → i < 2 ^ 64 → result ≡ C.Replace (P.Item i) }
{
    match index(segment) {
        Some(i) => LastChange::Replace(PartSteps::Item(i)),
        None => LastChange::Nothing,
    }
}

/// The item at a place goes.
pub(crate) fn item_gone<'a>(segment: &str) -> LastChange<'a>
    ensures { (i : ℕ) → index_of segment.now ≡ Some i → i < 2 ^ 64 → result ≡ C.RemoveItem i }
{
    match index(segment) {
        Some(i) => LastChange::RemoveItem(i),
        None => LastChange::Nothing,
    }
}

// Whether a segment stands for the end of a list.
fn is_end(segment: &str) -> bool
    ensures { result ≡ same_text segment.now (codes "-") }
{
    segment == "-"
}

// How many items a list has.
fn count(piece: &Piece<'_>) -> Option<u64>
    ensures { (rows : List Row) (ds : List Data) → StandsFor rows piece.now (T.list (T.items_of ds)) → result ≡ Some (length ds) }
{
    match piece {
        Piece::Node(node) => node.count(),
        Piece::Text(_) | Piece::Bytes(_) | Piece::Inline(_, _) => None,
    }
}

// The place at which a new part comes: an index, or the end.
fn new_place(piece: &Piece<'_>, segment: &str) -> Option<u64>
    ensures { (rows : List Row) (ds : List Data) (i : ℕ) → StandsFor rows piece.now (T.list (T.items_of ds)) → new_index (length ds) segment.now ≡ Some i → result ≡ Some i }
{
    if is_end(segment) {
        count(piece)
    } else {
        index(segment)
    }
}

/// The new part's item comes at a place.
pub(crate) fn item_new<'a>(piece: &Piece<'_>, segment: &str) -> LastChange<'a>
    ensures { (rows : List Row) (ds : List Data) (i : ℕ) → StandsFor rows piece.now (T.list (T.items_of ds)) → new_index (length ds) segment.now ≡ Some i → result ≡ C.InsertItem i }
{
    match new_place(piece, segment) {
        Some(i) => LastChange::InsertItem(i),
        None => LastChange::Nothing,
    }
}
