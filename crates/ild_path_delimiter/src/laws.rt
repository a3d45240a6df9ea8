//! Laws of texts that are made of texts (IPLD Schemas, "stringjoin", "stringpairs", "stringprefix").
ghost use Rattle.ild_path_delimiter.specs.Laws.{OnlyTextsBreak, TextsBreakNothing, TextsOfTexts};

/// A value that stands as a text breaks no delimiter rule, at no level.
pub fn texts_break_nothing()
    ensures { TextsBreakNothing }
{}

/// What holds parts and stands as no text has no delimiter rule, whatever its parts become; nor has what holds it in turn: the parts of a
/// text are texts.
pub fn only_texts_break()
    ensures breaks { OnlyTextsBreak }
    ensures parts { TextsOfTexts }
{}
