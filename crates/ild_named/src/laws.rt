//! The law of the frame.
ghost use Rattle.ild_named.specs.Named.{NamedAreFrames};

/// A root that names a type of a schema keeps its value's data apart, and is a tree that a block can hold where they fit beneath it.
pub fn named_are_frames()
    ensures { NamedAreFrames }
{}
