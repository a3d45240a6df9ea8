//! Laws of what a store holds.
ghost use Rattle.ild_path_held.specs.HeldEdits.{HamtsAreCut, HamtsArePut, HamtsAreTries, HamtsHaveTries, HeldEdits, HeldParts, HeldStays, HeldWholes};

/// A store that holds a value holds each part of it, and what an edit in one block makes, where it holds the new part.
pub fn parts_are_held()
    ensures parts { HeldParts }
    ensures stays { HeldStays }
    ensures wholes { HeldWholes }
    ensures edits { HeldEdits }
{}

/// The HAMT of a value that a store holds is a trie that it holds. With an entry put, or without one, the value is held where the store holds
/// the trie of the new entries.
pub fn hamts_are_held()
    ensures tries { HamtsAreTries }
    ensures put { HamtsArePut }
    ensures cut { HamtsAreCut }
    ensures have { HamtsHaveTries }
{}
