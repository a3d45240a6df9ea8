//! Laws of where a document stands.
ghost use Rattle.ild_run_standing.specs.Laws.{HeldAreStanding, StandingAreAt, StillReplies, ValuesPassOn};

use ild_typed_places::places_are_held;

/// Where a value stands under the id of a document's block, and that block is held, the document stands at the value, of which the store
/// lacks nothing.
pub fn standing_are_at()
    ensures { StandingAreAt }
{
    places_are_held();
}

/// Where a document stands at a value of which the store lacks nothing, the value stands under the id of its block.
pub fn held_are_standing()
    ensures { HeldAreStanding }
{}

/// Where no block came, and the value stays, a line is replied to as the plain value says, or with a refusal that has its cause.
pub fn still_replies()
    ensures { StillReplies }
{}

/// A value that stays passes on what a batch carries of it.
pub fn values_pass_on()
    ensures { ValuesPassOn }
{}
