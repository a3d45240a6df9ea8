//! The pairs of a list as parts: a key, and then its value.
ghost use Rattle.std.specs.Prelude.{◌≡◌, ◌<◌, ℕ, List, IfSome, map};
ghost use Rattle.ild_cbor.specs.Steps.{HasItems};
ghost use Rattle.ild_data.specs.Data.{Data, items_of};
ghost use Rattle.ild_schema.specs.Slots.{plainly};
ghost use Rattle.ild_schema.specs.declared.def.MapForm.TheVariants as MF;
ghost use Rattle.ild_schema.specs.declared.row.Row.{Row};
ghost use Rattle.ild_typed.specs.Spots.{Spot, entry_spots};
ghost use Rattle.ild_typed.specs.Strings.{pair_data};
ghost use Rattle.ild_layer_parts.specs.PairEntries.{HasPairs, SplitsPairs, pairs_left};
ghost use Rattle.ild_layer_parts.specs.PassedOver.{IsWhole};
ghost use Rattle.ild_layer_parts.specs.Ready.{AreReady, IsIn, IsReady};
ghost use Rattle.ild_layer_parts.specs.declared.parts.Parts.TheVariants as P;
ghost use Rattle.ild_layer_parts.specs.Ways.{LeadsFirst};

use crate::part::{Part, key_part, value_part};
use ild_cbor::{Items, Node, Piece};
use ild_layer_pairs::{Shape, shape_of};
use ild_layer_places::Way;
use ild_schema::{Slot, TypeNo};

/// The pairs of a list that are left, of which so many went before. Of the first of these the key may have been handed out, and
/// not its value.
#[derive(Clone, Copy)]
pub struct PairEntries<'b> {
    pub(crate) key: TypeNo,
    pub(crate) value: Slot,
    pub(crate) items: Items<'b>,
    pub(crate) place: u64,
    pub(crate) held: Option<Node<'b>>,
}

impl<'b> PairEntries<'b> {
    /// The pairs of a list, from the first on.
    pub fn of(key: TypeNo, value: Slot, items: Items<'b>) -> PairEntries<'b>
        ensures has { (es : List (List ℕ × Data)) → HasItems items.entry (items_of (map pair_data es)) → HasPairs result (entry_spots MF.ListPairs key value 0 es) }
        ensures ready { (rows : List Row) → IsIn rows (plainly key) → IsIn rows value → AreReady rows (P.Pairs result) }
    {
        PairEntries {
            key,
            value,
            items,
            place: 0,
            held: None,
        }
    }

    fn on(&self, items: Items<'b>, place: u64, held: Option<Node<'b>>) -> PairEntries<'b>
        ensures { result ≡ record { key = self.now.key; value = self.now.value; items = items.entry; place = place; held = held.entry } }
    {
        PairEntries {
            key: self.key,
            value: self.value,
            items,
            place,
            held,
        }
    }

    /// The first key or value, and what is behind it.
    pub(crate) fn split_first(&self) -> Option<(Part<'b>, PairEntries<'b>)>
        ensures step { (rows : List Row) (ps : List Spot) → HasPairs self.now ps → SplitsPairs rows ps result }
        ensures way { (ps : List Spot) → HasPairs self.now ps → IfSome result (λ r. LeadsFirst r.0 ps) }
        ensures fewer { IfSome result (λ r. pairs_left r.1 < pairs_left self.now) }
        ensures ready { (rows : List Row) → IsIn rows (plainly self.now.key) → IsIn rows self.now.value → IfSome result (λ r. IsReady rows r.0 × IsIn rows (plainly r.1.key) × IsIn rows r.1.value) }
        ensures whole { IfSome result (λ r. IsWhole r.0) }
    {
        let mut items = self.items;
        if let Some(value) = self.held {
            return Some((
                value_part(self.value, Piece::Node(value), Way::Within(self.place, 1)),
                self.on(items, self.place.saturating_add(1), None),
            ));
        }
        let Some(item) = items.next() else {
            return None;
        };
        match shape_of(&item) {
            Shape::Pair(key, value) => Some((
                key_part(self.key, key, Way::Within(self.place, 0)),
                self.on(items, self.place, Some(value)),
            )),
            Shape::Odd => None,
            Shape::Other => None,
        }
    }
}
