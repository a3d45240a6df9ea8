//! The parts of a piece, one after another.
ghost use Rattle.std.specs.Prelude.{◌≡◌, ◌<◌, ℕ, List, IfSome, Some};
ghost use Rattle.ild_cbor.specs.declared.piece.Piece.{Piece};
ghost use Rattle.ild_schema.specs.declared.row.Row.{Row};
ghost use Rattle.ild_typed.specs.Spots.{Spot};
ghost use Rattle.ild_layer_parts.specs.PassedOver.{AreInside, AreInsideBoth};
ghost use Rattle.ild_layer_parts.specs.Parts.{HasLeft, LeadsOn, Splits, parts_left};
ghost use Rattle.ild_layer_parts.specs.Ready.{AreReady, AreReadyBoth};
ghost use Rattle.ild_layer_parts.specs.Ways.{LeadsWay};

use crate::elements::Elements;
use crate::entries::Entries;
use crate::fields::Fields;
use crate::pair_entries::PairEntries;
use crate::part::Part;
use crate::root::RootEntries;
use crate::text_entries::TextEntries;
use ild_layer_places::Way;

/// The parts of a piece that are left, in the order in which they are checked.
#[derive(Clone, Copy)]
pub enum Parts<'b> {
    Nothing,
    List(Elements<'b>),
    Map(Entries<'b>),
    Root(RootEntries<'b>),
    Struct(Fields<'b>),
    Member(Part<'b>),
    Texts(TextEntries<'b>),
    Pairs(PairEntries<'b>),
}

impl<'b> Parts<'b> {
    /// The first part, where something is to be checked of it, and the parts behind it; or `None` where none is left.
    #[inline(always)]
    pub fn split_first(&self) -> Option<(Option<Part<'b>>, Parts<'b>)>
        ensures step { (rows : List Row) (ps : List Spot) → HasLeft rows self.now ps → Splits rows ps result }
        ensures way { (rows : List Row) (ps : List Spot) → HasLeft rows self.now ps → IfSome result (λ r. LeadsOn rows self.now r.0 ps) }
        ensures fewer { IfSome result (λ r. parts_left r.1 < parts_left self.now) }
        ensures ready { (rows : List Row) → AreReady rows self.now → IfSome result (λ r. AreReadyBoth rows r.0 r.1) }
        ensures inside { (rows : List Row) (ty : ℕ) (y : Piece) → AreInside rows ty y self.now → IfSome result (λ r. AreInsideBoth rows ty y r.0 r.1) }
    {
        match self {
            Parts::Nothing => None,
            Parts::List(elements) => match elements.split_first() {
                Some((part, behind)) => Some((Some(part), Parts::List(behind))),
                None => None,
            },
            Parts::Map(entries) => match entries.split_first() {
                Some((part, behind)) => Some((Some(part), Parts::Map(behind))),
                None => None,
            },
            Parts::Root(entries) => match entries.split_first() {
                Some((part, behind)) => Some((part, Parts::Root(behind))),
                None => None,
            },
            Parts::Struct(fields) => match fields.split_first() {
                Some((part, behind)) => Some((part, Parts::Struct(behind))),
                None => None,
            },
            Parts::Member(part) => Some((Some(*part), Parts::Nothing)),
            Parts::Texts(entries) => match entries.split_first() {
                Some((part, behind)) => Some((Some(part), Parts::Texts(behind))),
                None => None,
            },
            Parts::Pairs(entries) => match entries.split_first() {
                Some((part, behind)) => Some((Some(part), Parts::Pairs(behind))),
                None => None,
            },
        }
    }

    /// Where the part stands that is handed out first.
    pub fn way(&self, part: &Part<'b>) -> Way<'b>
        ensures { (rows : List Row) (ps : List Spot) → HasLeft rows self.now ps → LeadsOn rows self.now (Some part.now) ps → LeadsWay result ps }
    {
        match self {
            Parts::Struct(fields) => fields.way(),
            _ => part.way,
        }
    }
}
