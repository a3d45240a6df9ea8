//! The pairs of a text as parts: a key, and then its value.
ghost use Rattle.std.specs.Prelude.{◌≡◌, ◌<◌, ℕ, List, IfSome};
ghost use Rattle.ild_schema.specs.Slots.{plainly};
ghost use Rattle.ild_schema.specs.declared.def.MapForm.TheVariants as MF;
ghost use Rattle.ild_schema.specs.declared.row.Row.{Row};
ghost use Rattle.ild_layer_fields.specs.Entries.{text_entries};
ghost use Rattle.ild_text.specs.Parts.{pairs_in};
ghost use Rattle.ild_typed.specs.Spots.{Spot, entry_spots};
ghost use Rattle.ild_layer_parts.specs.PassedOver.{IsWhole};
ghost use Rattle.ild_layer_parts.specs.Ready.{AreReady, IsIn, IsReady};
ghost use Rattle.ild_layer_parts.specs.declared.parts.Parts.TheVariants as P;
ghost use Rattle.ild_layer_parts.specs.Texts.{HasTexts, SplitsTexts, texts_left};
ghost use Rattle.ild_layer_parts.specs.Ways.{LeadsFirst};

use crate::part::{Part, key_part, value_part};
use ild_cbor::Piece;
use ild_layer_places::Way;
use ild_schema::{Slot, TypeNo};
use ild_text::PairParts;

/// The pairs of a text that are left. Of one the key may have been handed out, and not its value.
#[derive(Clone, Copy)]
pub struct TextEntries<'b> {
    pub(crate) key: TypeNo,
    pub(crate) value: Slot,
    pub(crate) split: PairParts<'b>,
    pub(crate) held: Option<&'b str>,
}

impl<'b> TextEntries<'b> {
    /// The pairs of a text, from the first on.
    pub fn of(key: TypeNo, value: Slot, split: PairParts<'b>) -> TextEntries<'b>
        ensures has { (inner entry : List ℕ) → HasTexts result (entry_spots (MF.StringPairs inner entry) key value 0 (text_entries (pairs_in split.entry))) }
        ensures ready { (rows : List Row) → IsIn rows (plainly key) → IsIn rows value → AreReady rows (P.Texts result) }
    {
        TextEntries {
            key,
            value,
            split,
            held: None,
        }
    }

    fn on(&self, split: PairParts<'b>, held: Option<&'b str>) -> TextEntries<'b>
        ensures { result ≡ record { key = self.now.key; value = self.now.value; split = split.entry; held = held.entry } }
    {
        TextEntries {
            key: self.key,
            value: self.value,
            split,
            held,
        }
    }

    /// The first key or value, and what is behind it.
    pub(crate) fn split_first(&self) -> Option<(Part<'b>, TextEntries<'b>)>
        ensures step { (rows : List Row) (ps : List Spot) → HasTexts self.now ps → SplitsTexts rows ps result }
        ensures way { (ps : List Spot) → HasTexts self.now ps → IfSome result (λ r. LeadsFirst r.0 ps) }
        ensures fewer { IfSome result (λ r. texts_left r.1 < texts_left self.now) }
        ensures ready { (rows : List Row) → IsIn rows (plainly self.now.key) → IsIn rows self.now.value → IfSome result (λ r. IsReady rows r.0 × IsIn rows (plainly r.1.key) × IsIn rows r.1.value) }
        ensures whole { IfSome result (λ r. IsWhole r.0) }
    {
        if let Some(value) = self.held {
            return Some((
                value_part(self.value, Piece::Text(value), Way::Here),
                self.on(self.split, None),
            ));
        }
        match self.split.split_first() {
            Some(((key, value), behind)) => Some((
                key_part(self.key, key, Way::Here),
                self.on(behind, Some(value)),
            )),
            None => None,
        }
    }
}
