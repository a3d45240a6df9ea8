//! Laws of the generator.
ghost use Rattle.ild_generator.specs.Laws.{EntriesArePlain, StepsAddBlocks, StepsAreEdits};
ghost use Rattle.ild_generator.specs.Schema.{IsCompiledTo};

/// The text of the schema is compiled to the table that the generator stands on.
pub fn schema_is_its_text()
    ensures { IsCompiledTo }
{}

/// The edit of a step makes of a value what the step makes of the plain map; or it is refused where the step leaves the map.
pub fn steps_are_edits()
    ensures { StepsAreEdits }
{}

/// No blocks may come by that edit but those of the map that the step asks for.
pub fn steps_add_blocks()
    ensures { StepsAddBlocks }
{}

/// The keys of the generated map rise, and are texts.
pub fn entries_are_plain()
    ensures { EntriesArePlain }
{}
