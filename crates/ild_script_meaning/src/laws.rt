//! Laws of the lines of a script on typed values.
ghost use Rattle.ild_script_meaning.specs.LinesLaws.{BatchesOwe, LinesKeepHeld, RefusedLeave};
ghost use Rattle.ild_script_meaning.specs.PlainLaws.{SaysPlainMap};

/// A line that is refused leaves the state. Unless it is refused as exhausted or for its size, no block may come, and nothing is put.
pub fn refused_lines_leave_the_state()
    ensures { RefusedLeave }
{}

/// Inside a batch an edit puts nothing, and leaves the batch owing as many puts as the same edit makes outside one.
pub fn edits_in_a_batch_are_owed()
    ensures { BatchesOwe }
{}

/// Where the value of a state and the one at its batch's begin can be held by a store, so can those of the state that a line leaves.
pub fn lines_keep_values_that_can_be_held()
    ensures { LinesKeepHeld }
{}

/// On a map from texts to integers, the lines that a plain map knows mean the same as on a plain map: the same reply, the same value, and
/// the same blocks may come. A plain map knows `get`, `set` and `del` of a path that is not the root's, and `root`.
pub fn lines_say_what_a_plain_map_says()
    ensures { SaysPlainMap }
{}
