//! Laws of edits beneath HAMTs.
ghost use Rattle.ild_path_entered.specs.EnteredLaws.{AtEntries, BelowEntries, EntriesAreCut, EntriesArePut, NoneMet, SetsHaveData, SetsStand, ThroughEntries};

/// An edit at a key of a HAMT puts the entry or takes it away; one beneath makes of the entry's value what it makes of it by itself. Through
/// many HAMTs, one in the value of another's entry, it is so too. What was set is there, and has data where the whole has.
pub fn entries_are_edited()
    ensures below { BelowEntries }
    ensures keys { AtEntries }
    ensures through { ThroughEntries }
    ensures stand { SetsStand }
    ensures have { SetsHaveData }
    ensures met { NoneMet }
{}

/// A value with an entry of a HAMT in it put, or gone, is held where the new value of the entry and the nodes of the new trie are.
pub fn entries_are_held()
    ensures put { EntriesArePut }
    ensures cut { EntriesAreCut }
{}
