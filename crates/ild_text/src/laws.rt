//! Laws of texts of parts, over all texts.
ghost use Rattle.ild_schema.specs.Joins.{JoinsAreApart, JoinsByCount, OneJoin, OnePairs, PairsByKeys};
ghost use Rattle.ild_text.specs.Prefix.{OnePrefixed};

/// A text has at most one list of parts, and then no two occurrences of the delimiter overlap. A text that was made of so
/// many parts, and is split into so many, is split into these.
pub fn joins_are_one()
    ensures one { OneJoin }
    ensures apart { JoinsAreApart }
    ensures by_count { JoinsByCount }
{}

/// A text has at most one list of pairs. A text that was made of pairs, and is split into pairs with the same keys, is split
/// into these.
pub fn pairs_are_one()
    ensures one { OnePairs }
    ensures by_keys { PairsByKeys }
{}

/// Where no prefix of a union begins another one, a text begins with one of them at most.
pub fn prefixes_are_one()
    ensures { OnePrefixed }
{}
