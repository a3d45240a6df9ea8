//! Blocks beside any store.
ghost use Rattle.ild_edges.specs.Gained.{BlocksHoldThemselves};

/// Of any blocks each is the one under its id, or two of them collide. So what follows from the blocks that a store gave holds of these
/// blocks, whatever the store does.
pub fn blocks_hold_themselves()
    ensures { BlocksHoldThemselves }
{}
