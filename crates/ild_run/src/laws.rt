//! Laws of the definitions that the top call cites.
ghost use Rattle.ild_run.specs.Complete.{CanBeApart};
ghost use Rattle.ild_run.specs.Named.{RootsNeedNoSchema};
ghost use Rattle.ild_run.specs.NamedScript.{LinesCanBeApart};

/// The premise on collisions, under which a call does all that its words ask for, can be met.
pub fn collisions_can_be_apart()
    ensures { CanBeApart }
{}

/// So can that of a script on the value under a root, by the root alone.
pub fn lines_can_be_apart()
    ensures { LinesCanBeApart }
{}

/// A call that shows a value by its root alone never ends for its words, a schema, an input or a value that it makes.
pub fn roots_need_no_schema()
    ensures { RootsNeedNoSchema }
{}
