//! Laws for callers.
ghost use Rattle.ild_path_item.specs.Upward.{ItemsAreBlocks, ItemsBegin, ItemsGoUp, PartsAreSet};

/// What asks `new_item` for the items of the holders along a path, from the last one up: each is set in the one above it, by its item, and
/// the item that is then answered is that of what the holder above becomes by the edit.
pub fn items_go_up()
    ensures set { PartsAreSet }
    ensures begin { ItemsBegin }
    ensures up { ItemsGoUp }
    ensures blocks { ItemsAreBlocks }
{}
