//! A root that names its schema is a value of a struct: laws, and no code. Their statements are in `specs/`, for all schemas.
#![tactic(auto)]

ghost use Rattle.ild_named_law.specs.Law.{RootsAreStructs};
ghost use Rattle.ild_named_law.specs.Paths.{ChangesAreAlike, HoldersAreAlike, PathsAreEntered, PathsLeadAlike, RootsAreShown, ValuesAreSet};

/// A value stands under a root that names its schema exactly where the struct of its type's name, the value and the link to the schema's
/// text stands as a bare root of the longer table, and the block of that text is held.
pub fn roots_are_structs()
    ensures { RootsAreStructs }
{}

/// A path that begins with `value` leads in the struct where the rest of it leads in the value.
pub fn paths_lead_alike()
    ensures { PathsLeadAlike }
{}

/// The same where of a HAMT the root alone may be known.
pub fn paths_are_entered()
    ensures { PathsAreEntered }
{}

/// The struct with its field `value` set is the struct over that value.
pub fn values_are_set()
    ensures { ValuesAreSet }
{}

/// Such a path has the last holder that the rest of it has in the value.
pub fn holders_are_alike()
    ensures { HoldersAreAlike }
{}

/// A change at such a path is that of the value at the rest of it: the name and the link stay.
pub fn changes_are_alike()
    ensures { ChangesAreAlike }
{}

/// The struct is shown as the map over the value's shown form.
pub fn roots_are_shown()
    ensures { RootsAreShown }
{}
