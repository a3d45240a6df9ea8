//! Laws of scripts that are seen from one step further out, over all texts.
ghost use Rattle.ild_named_lines.specs.Laws.{LinesAreReadBeneath, ScriptsAreOfLines};

/// A line with `/value` before its path is read as the same command, whose path goes through `value` first.
pub fn lines_are_read_beneath()
    ensures { LinesAreReadBeneath }
{}

/// The lines of a script that was made so are those of the script, each with `/value` before its path.
pub fn scripts_are_of_lines()
    ensures { ScriptsAreOfLines }
{}
