//! Laws of the line grammar, over all texts.
ghost use Rattle.ild_script.specs.Laws.{CommandsAreOfTexts, TextsAreReadBack, SegmentsAreOne};

/// Every text is written by exactly one segment.
pub fn segments_write_texts()
    ensures back { TextsAreReadBack }
    ensures one { SegmentsAreOne }
{}

/// The segments of the path of a line that was read are texts, and its json is one.
pub fn commands_are_of_texts()
    ensures { CommandsAreOfTexts }
{}
