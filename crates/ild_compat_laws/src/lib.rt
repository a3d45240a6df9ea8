//! What a later schema that is compatible makes of blocks: laws, and no code. Their statements are in `specs/`, for all accepted
//! schemas.
#![tactic(auto)]

ghost use Rattle.ild_compat_laws.specs.Laws.{StandingAreRead, ValuesAreRead};

/// What stands in a block as a value of a slot stands there as one of each compatible slot, with the same shown form and nested
/// no deeper.
pub fn values_are_read()
    ensures { ValuesAreRead }
{}

/// Where a value stands in a store, a value of each compatible type stands there under the same id, with the same shown form.
pub fn standing_are_read()
    ensures { StandingAreRead }
{}
