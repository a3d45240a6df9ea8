//! The law of parts without a text.
ghost use Rattle.ild_path_textless.specs.Textless.{TextlessBreakNothing};

/// In a value that can be held, a part is set or inserted at a path. Where it has no text and breaks no delimiter by itself, the changed
/// value breaks none: what stands as a text has texts as its parts, so no list, map, integer or other data stand in one.
pub fn textless_parts_break_nothing()
    ensures nothing { TextlessBreakNothing }
{}
