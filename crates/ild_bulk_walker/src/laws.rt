//! Laws of what a walk gives.
ghost use Rattle.ild_bulk_walker.specs.Calls.{GetsInAll, GetsWhatItEnters};
ghost use Rattle.ild_bulk_walker.specs.Trees.{GivenIsTrie, NodesAreTheTries};

/// The blocks beneath a root give exactly the entries whose HAMT they are, in the order of the trie and with no key twice.
pub fn given_is_trie()
    ensures { GivenIsTrie }
{}

/// Beneath a root that gives entries there are as many blocks of nodes as their HAMT has: so many gets a walk makes at most.
pub fn nodes_are_the_tries()
    ensures { NodesAreTheTries }
{}

/// Any number of calls of `next`, whether they fail or not, make a get for each node that they enter, and at most one more for each
/// call that failed: over every store, and in all no more than there are nodes beneath the root, where a store tells what it holds.
pub fn nodes_are_got_once()
    ensures enters { GetsWhatItEnters }
    ensures all { GetsInAll }
{}
