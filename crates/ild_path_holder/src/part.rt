//! The steps to a part of a view.
ghost use Rattle.std.specs.Prelude.{Some};
ghost use Rattle.ild_path_holder.specs.Viewed.{LiftsPart, LeadsPart};

use ild_path_steps::{PartSteps, steps_to};
use ild_view::View;

/// The steps from the item of a view to that of the part to which a segment leads. There are some where there is the part, unless
/// the block leaves it out.
pub fn part_steps<'a>(view: &View<'a>, segment: &'a str) -> Option<PartSteps<'a>>
    ensures lifts { LiftsPart view.now segment.now result }
    ensures leads { LeadsPart view.now segment.now result }
{
    match view.piece() {
        Some(piece) => steps_to(view.schema(), view.slot(), &piece, segment),
        None => None,
    }
}
