//! The elements of a list as parts.
ghost use Rattle.std.specs.Prelude.{◌≡◌, ◌<◌, List, IfSome};
ghost use Rattle.ild_cbor.specs.Steps.{HasItems};
ghost use Rattle.ild_data.specs.Data as T;
ghost use Rattle.ild_data.specs.Data.{items_list};
ghost use Rattle.ild_schema.specs.declared.row.Row.{Row};
ghost use Rattle.ild_typed.specs.Spots.{Spot, element_spots};
ghost use Rattle.ild_layer_parts.specs.Elements.{HasElements, SplitsElements, elements_left};
ghost use Rattle.ild_layer_parts.specs.Ways.{LeadsFirst};
ghost use Rattle.ild_layer_parts.specs.PassedOver.{IsWhole};
ghost use Rattle.ild_layer_parts.specs.Ready.{AreReady, IsIn, IsReady};
ghost use Rattle.ild_layer_parts.specs.declared.parts.Parts.TheVariants as P;

use crate::part::{Part, value_part};
use ild_cbor::{Items, Piece};
use ild_layer_places::Way;
use ild_schema::Slot;

/// The elements of a list that are left, of which so many went before.
#[derive(Clone, Copy)]
pub struct Elements<'b> {
    pub(crate) slot: Slot,
    pub(crate) items: Items<'b>,
    pub(crate) place: u64,
}

impl<'b> Elements<'b> {
    /// The elements of a list, from the first on.
    pub fn of(slot: Slot, items: Items<'b>) -> Elements<'b>
        ensures has { (ds : T.Items) → HasItems items.entry ds → HasElements result (element_spots slot 0 (items_list ds)) }
        ensures ready { (rows : List Row) → IsIn rows slot → AreReady rows (P.List result) }
    {
        Elements {
            slot,
            items,
            place: 0,
        }
    }

    /// The first element, and those behind it.
    pub(crate) fn split_first(&self) -> Option<(Part<'b>, Elements<'b>)>
        ensures step { (rows : List Row) (ps : List Spot) → HasElements self.now ps → SplitsElements rows ps result }
        ensures way { (ps : List Spot) → HasElements self.now ps → IfSome result (λ r. LeadsFirst r.0 ps) }
        ensures fewer { IfSome result (λ r. elements_left r.1 < elements_left self.now) }
        ensures ready { (rows : List Row) → IsIn rows self.now.slot → IfSome result (λ r. IsReady rows r.0 × IsIn rows r.1.slot) }
        ensures whole { IfSome result (λ r. IsWhole r.0) }
    {
        let mut items = self.items;
        let item = items.next()?;
        let part = value_part(self.slot, Piece::Node(item), Way::Item(self.place));
        let behind = Elements {
            slot: self.slot,
            items,
            place: self.place.saturating_add(1),
        };
        Some((part, behind))
    }
}
