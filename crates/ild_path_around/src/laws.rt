//! Laws of delimiters around HAMTs.
ghost use Rattle.ild_path_around.specs.Alike.{FrontsBreakAlike, SoundInside};
ghost use Rattle.ild_path_around.specs.Blocks.{BlocksBreakAlike, TextEditsOfFronts};
ghost use Rattle.ild_path_around.specs.Keys.{KeysBreakNothing};
ghost use Rattle.ild_path_around.specs.Outside.{OutsideOfEntries, OutsideOfHamts};
ghost use Rattle.ild_path_around.specs.Slots.{SlotsBehind, SlotsOfFronts};

use ild_path_delimiter::only_texts_break;

/// No HAMT stands in a text: what becomes of one breaks a delimiter in the whole exactly where it does in the HAMT, and an edit at one of
/// its keys breaks none.
pub fn hamts_stand_in_no_text()
    ensures outside { OutsideOfHamts }
    ensures entries { OutsideOfEntries }
    ensures keys { KeysBreakNothing }
{
    only_texts_break();
}

/// A front breaks the delimiters that its value breaks, but for those in the entries of HAMTs, which it doesn't show. So an edit in one
/// block, of a value that broke none, breaks of it those that it breaks of the front.
pub fn fronts_break_alike()
    ensures alike { FrontsBreakAlike }
    ensures inside { SoundInside }
    ensures blocks { BlocksBreakAlike }
    ensures texts { TextEditsOfFronts }
{}

/// The slot of what an edit brings is told at the value behind a path, and in one block by the front of that value.
pub fn slots_are_told()
    ensures behind { SlotsBehind }
    ensures fronts { SlotsOfFronts }
{}
