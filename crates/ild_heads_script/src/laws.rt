//! A law of scripts over named heads. The call does no work.
ghost use Rattle.ild_heads_script.specs.Laws.{LinesSpell};

use crate::Roots;

/// The lines of a script spell a list of events, in order: the text is that of this list, and the state is the one behind it.
pub fn lines_spell_events<R: Roots>(work: &R)
    ensures { LinesSpell R.told R.stands (R.plain (R.rules work.now)) R.ran R.later R.is_empty R.cause }
{}
