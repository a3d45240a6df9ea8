//! Laws of the lines of scripts over named heads. No call does any work.
ghost use Rattle.ild_heads_lines.specs.Laws.{NumbersAreDecimals};

/// Each number of a session is written by its decimal, and by nothing else.
pub fn numbers_are_decimals()
    ensures { NumbersAreDecimals }
{}
