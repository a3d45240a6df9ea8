//! Data that differ in their links alone, each link being as long as the other's: definitions and laws, and no code (DAG-CBOR, "Links";
//! IPLD HashMap).
#![tactic(auto)]

ghost use Rattle.ild_data_alike.specs.Laws.{AlikeAreAsLong, AlikeHaveAlikeTries};

/// They are spelled as long.
pub fn alike_are_as_long()
    ensures { AlikeAreAsLong }
{}

/// So are the nodes of the tries of entries whose values are such data.
pub fn alike_have_alike_tries()
    ensures { AlikeHaveAlikeTries }
{}
