//! Laws of judgements from a place.
ghost use Rattle.ild_path_judged.specs.Laws.{ComingIsJudged, GoingIsJudged, RefusedInOrder, UnrefusedHaveData};

/// In a value that can be held, a part is set or inserted at a path. The changed value has a hole where the part has one or the last
/// holder then does, a broken delimiter where the part has one, nests no deeper than the limit where the part fits in the room that
/// is left at its place, and a HAMT without a trie where the part has one or the last holder then is one. Where a part is deleted,
/// the last holder alone may then have a hole, and nothing is too deep or without a trie.
pub fn changes_are_judged_from_their_place()
    ensures coming { ComingIsJudged }
    ensures going { GoingIsJudged }
{}

/// Of a changed value, the first of hole, delimiter, depth, exhausted and size is its refusal. Where none of the first four is one, it
/// has data.
pub fn changes_are_refused_in_order()
    ensures first { RefusedInOrder }
    ensures data { UnrefusedHaveData }
{}
