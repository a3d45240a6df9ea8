//! What a line of a script is due where its path crosses typed links (IPLD Schemas, "Links"): definitions and laws, and no code.
#![tactic(auto)]

ghost use Rattle.ild_links_lines.specs.Laws.{RefusedLeaveState, WalksAreOne};

/// A path has one walk at most over the same blocks.
pub fn walks_are_one()
    ensures { WalksAreOne }
{}

/// A line that is refused leaves the state.
pub fn refused_leave_state()
    ensures { RefusedLeaveState }
{}
