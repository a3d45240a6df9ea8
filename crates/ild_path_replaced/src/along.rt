//! Which holder is replaced.
ghost use Rattle.std.specs.Prelude.{◌≡◌, ◌<◌, IfSome, List, Option, false, length};
ghost use Rattle.ild_splice_changes.specs.TreeChange.{Located};
ghost use Rattle.ild_data.specs.Data.{Data};
ghost use Rattle.ild_path_replaced.specs.Seen.{AreThere, has_whole, seen_at, steps_before, top_of, touched};
ghost use Rattle.ild_path_steps.specs.Steps.{carried_along};

use crate::touch::{Touch, carried};
use ild_path_steps::PartSteps;

/// The first holder that is replaced where the last one is changed, or `None` where the change is seen in the item to which all
/// steps lead.
pub fn replaced<'a>(steps: &[PartSteps<'a>], last: Touch<'a>) -> Option<usize>
    ensures seen { (ws : List (Option Data)) (e : Located) → AreThere steps.now ws → top_of e ≡ touched last.entry → carried_along steps.now ws e ≡ seen_at steps.now ws e result }
    ensures within { IfSome result (λ k. k < length steps.now) }
    ensures before { has_whole (steps_before steps.now result) ≡ false }
{
    let mut touch = last;
    let mut place = None;
    let mut k = steps.len();
    while k > 0 {
        k -= 1;
        match carried(&steps[k], &touch) {
            Some(above) => {
                touch = above;
            }
            None => {
                touch = Touch::Whole;
                place = Some(k);
            }
        }
    }
    place
}
