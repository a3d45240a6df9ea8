//! The law of the places that blocks tell.
ghost use Rattle.ild_run_beneath.specs.Trees.{TreesStand};

use ild_beneath::{children_are_places, data_are_read};
use ild_typed::{bare_roots_are_frames, storable_blocks};

/// The places of a document's value are those that a walk meets from its root block on.
pub fn trees_stand()
    ensures { TreesStand }
{
    data_are_read();
    children_are_places();
    storable_blocks();
    bare_roots_are_frames();
}
