//! The entries of a map as parts: a key, and then its value.
ghost use Rattle.std.specs.Prelude.{◌≡◌, ◌<◌, ℕ, List, IfSome};
ghost use Rattle.ild_data.specs.Data.{Data};
ghost use Rattle.ild_layer_piece.specs.Entries.{HasLeft};
ghost use Rattle.ild_schema.specs.declared.def.MapForm.TheVariants as MF;
ghost use Rattle.ild_schema.specs.declared.row.Row.{Row};
ghost use Rattle.ild_typed.specs.Spots.{Spot, entry_spots};
ghost use Rattle.ild_layer_parts.specs.Entries.{HasEntries, SplitsEntries, entries_left};
ghost use Rattle.ild_layer_parts.specs.PassedOver.{IsWhole};
ghost use Rattle.ild_layer_parts.specs.Ready.{AreReady, IsIn, IsReady};
ghost use Rattle.ild_layer_parts.specs.declared.parts.Parts.TheVariants as P;
ghost use Rattle.ild_layer_parts.specs.Ways.{LeadsFirst};
ghost use Rattle.ild_schema.specs.Slots.{plainly};

use crate::part::{Part, key_part, value_part};
use ild_cbor::{Node, Piece};
use ild_layer_piece::MapEntries;
use ild_layer_places::Way;
use ild_schema::{Slot, TypeNo};

/// The entries of a map that are left. Of one the key may have been handed out, and not its value.
#[derive(Clone, Copy)]
pub struct Entries<'b> {
    pub(crate) key: TypeNo,
    pub(crate) value: Slot,
    pub(crate) left: MapEntries<'b>,
    pub(crate) held: Option<(&'b str, Node<'b>)>,
}

impl<'b> Entries<'b> {
    /// The entries of a map, from the first on.
    pub fn of(key: TypeNo, value: Slot, left: MapEntries<'b>) -> Entries<'b>
        ensures has { (es : List (List ℕ × Data)) → HasLeft left.entry es → HasEntries result (entry_spots MF.Map key value 0 es) }
        ensures ready { (rows : List Row) → IsIn rows (plainly key) → IsIn rows value → AreReady rows (P.Map result) }
    {
        Entries {
            key,
            value,
            left,
            held: None,
        }
    }

    /// The first key or value, and what is behind it.
    pub(crate) fn split_first(&self) -> Option<(Part<'b>, Entries<'b>)>
        ensures step { (rows : List Row) (ps : List Spot) → HasEntries self.now ps → SplitsEntries rows ps result }
        ensures way { (ps : List Spot) → HasEntries self.now ps → IfSome result (λ r. LeadsFirst r.0 ps) }
        ensures fewer { IfSome result (λ r. entries_left r.1 < entries_left self.now) }
        ensures ready { (rows : List Row) → IsIn rows (plainly self.now.key) → IsIn rows self.now.value → IfSome result (λ r. IsReady rows r.0 × IsIn rows (plainly r.1.key) × IsIn rows r.1.value) }
        ensures whole { IfSome result (λ r. IsWhole r.0) }
    {
        let mut left = self.left;
        match self.held {
            Some((key, node)) => Some((
                value_part(self.value, Piece::Node(node), Way::Under(key)),
                Entries {
                    key: self.key,
                    value: self.value,
                    left,
                    held: None,
                },
            )),
            None => match left.next() {
                Some((key, node)) => Some((
                    key_part(self.key, key, Way::Key(key)),
                    Entries {
                        key: self.key,
                        value: self.value,
                        left,
                        held: Some((key, node)),
                    },
                )),
                None => None,
            },
        }
    }
}
