//! What an edit makes of one holder on its path, as a text.
ghost use Rattle.std.specs.Prelude.{◌≡◌, ℕ, IfOk, IsSomeAnd, List, Some, false, slice_get, true};
ghost use Rattle.ild_path_delimiter.specs.inside.Levels.{LevelIs, StandsAsText, StandsFree};
ghost use Rattle.ild_path_holder.specs.Along.{is_holder};
ghost use Rattle.ild_path_item.specs.Texts.{borrowed_text};
ghost use Rattle.ild_schema.specs.declared.row.Row.{Row};
ghost use Rattle.ild_typed.specs.At.{InSlot, seen};
ghost use Rattle.ild_view.specs.Parts.{IsPartView};

use ild_data::Txt;
use ild_layer_piece::text;
use ild_path_item::new_text;
use ild_view::View;
use std::alloc::{AllocError, Global};

/// What a holder becomes.
#[derive(Drop)]
pub(crate) enum Level {
    /// It stands as no text: neither it nor what it stands in has a delimiter rule.
    Free,
    /// Its own delimiter rule is broken.
    Broken,
    /// It stands as this text again.
    Text(Txt),
}

// Whether the view of a holder stands as no text.
fn stands_free(view: &View<'_>) -> bool
    ensures free { result ≡ true → (rows : List Row) (q : InSlot) → IsPartView rows q view.now → StandsFree rows q }
    ensures text { result ≡ false → (rows : List Row) (q : InSlot) → IsPartView rows q view.now → is_holder (seen rows q) ≡ true → StandsAsText rows q }
{
    match view.piece() {
        Some(piece) => text(&piece).is_none(),
        None => false,
    }
}

// What the holder of a view becomes where its part at a segment becomes a text, or goes.
fn made(
    alloc: Global,
    view: &View<'_>,
    segment: &str,
    new: Option<&str>,
) -> Result<Level, AllocError>
    ensures { (rows : List Row) (q : InSlot) → IsPartView rows q view.now → is_holder (seen rows q) ≡ true → IfOk result (LevelIs rows q segment.now (borrowed_text new.entry)) }
{
    if stands_free(view) {
        return Ok(Level::Free);
    }
    match new_text(alloc, view, segment, new)? {
        Some(text) => Ok(Level::Text(text)),
        None => Ok(Level::Broken),
    }
}

/// What the holder with a number becomes where its part at the next segment becomes a text, or goes.
pub(crate) fn level_of(
    alloc: Global,
    views: &[View<'_>],
    segments: &[Txt],
    k: usize,
    new: Option<&str>,
) -> Result<Level, AllocError>
    ensures { (rows : List Row) (q : InSlot) (s : List ℕ) → IsSomeAnd (slice_get views.now k) (IsPartView rows q)
        → slice_get segments.now k ≡ Some s → is_holder (seen rows q) ≡ true → IfOk result (LevelIs rows q s (borrowed_text new.entry)) }
{
    if k < views.len() && k < segments.len() {
        made(alloc, &views[k], segments[k].as_str(), new)
    } else {
        Ok(Level::Free)
    }
}
