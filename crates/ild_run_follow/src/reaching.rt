//! How far a path leads in one block, and what the holders on the way leave of a room.
ghost use Rattle.std.specs.Prelude.{◌≤◌, drop};
ghost use Rattle.ild_run_follow.specs.inside.Rooms.{LeavesRoom, Steps};

use ild_data::Path;
use ild_path_room::levels;
use ild_view::{NoPath, Step, View};

/// The part of a view to which the segments of a path lead, from one on, or the root of a HAMT that has to be entered; and how many levels
/// it may nest, where the view's value may nest so many.
pub(crate) fn reach<'b>(
    view: &View<'b>,
    path: &Path,
    from: usize,
    room: u32,
) -> (Result<Step<'b>, NoPath>, u32)
    ensures steps { Steps view.now from (drop from path.now) result.0 }
    ensures leaves { LeavesRoom view.now room (drop from path.now) result.1 }
    ensures low { result.1 ≤ room }
{
    let segments = path.as_slice();
    let mut at = *view;
    let mut left = room;
    let mut k = from;
    while k < segments.len() {
        let Some(part) = at.part(segments[k].as_str()) else {
            return (at.at(path, k), left);
        };
        left = left.saturating_sub(levels(&at));
        at = part;
        k += 1;
    }
    (Ok(Step::Here(at)), left)
}
