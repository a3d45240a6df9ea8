//! The law of the longer table.
ghost use Rattle.ild_named_type.specs.Root.{RootsAreTyped};

/// The table of a schema that a text declares is one for which no rule fails, with the struct of the roots over one of its types too.
pub fn roots_are_typed()
    ensures { RootsAreTyped }
{}
