//! Laws of the values that data mean.
ghost use Rattle.ild_value_meaning.specs.KeyTests.{KeysAreTested};
ghost use Rattle.ild_value_meaning.specs.MeantLaws.{FilledIsShown, MeantIsRead, MeantIsTyped, NothingWhereBroken, OneMeant, ReadIsMeant, ShownIsMeant};

/// Data mean one value of a slot at most, and the reading by the types finds it and no other.
pub fn one_value_is_meant()
    ensures read { MeantIsRead }
    ensures sound { ReadIsMeant }
    ensures one { OneMeant }
{}

/// What a tree means is a typed value of the slot, whose maps rise.
pub fn meant_is_typed()
    ensures { MeantIsTyped }
{}

/// The shown form of a value, whose maps rise, means it.
pub fn shown_is_meant()
    ensures { ShownIsMeant }
{}

/// A tree that means a value is its shown form, but for fields with their implicit value, which may be left out: with these put in
/// it is the shown form.
pub fn filled_is_shown()
    ensures { FilledIsShown }
{}

/// A tree means no value of a slot exactly where some part of it breaks one of the five rules, at its type.
pub fn nothing_is_meant_where_a_rule_is_broken()
    ensures { NothingWhereBroken }
{}

/// Whether a text is one of a key type can be tested, for the types of each schema.
pub fn keys_are_tested()
    ensures { KeysAreTested }
{}
