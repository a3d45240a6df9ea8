//! The steps that a walk has still to do.
ghost use Rattle.std.specs.Prelude.{◌≡◌, ◌≤◌, true, length};
ghost use Rattle.std.specs.Str.{is_utf8};
ghost use Rattle.ild_node_slots.specs.Spelled.{IsFaultless};
ghost use Rattle.ild_bulk_walker.specs.Pieces.{piece};

use ild_data::{BlockId, Octets};
use std::rc::Rc;

/// A step of a walk.
#[derive(Drop)]
pub(crate) enum Step {
    /// An entry to be given, which stands at an index of its node.
    Give(Entry),
    /// A child to be entered, which stands at an index of its node.
    Enter(Child),
    /// A node to be left, which was entered when so many entries were given.
    Leave(u64),
}

/// An entry to be given: where its key and the spelling of its value stand in the block of its node, the value behind the key.
#[derive(Drop)]
pub(crate) struct Entry {
    pub(crate) held: Rc<Octets>,
    pub(crate) from: usize,
    pub(crate) middle: usize,
    pub(crate) to: usize,
    pub(crate) index: u8,
    ghost order: { from ≤ middle },
    ghost rise: { middle ≤ to },
    ghost within: { to ≤ length held.value },
    ghost text: { is_utf8 (piece held.value from middle) ≡ true },
    ghost tree: { IsFaultless (piece held.value middle to) },
}

/// A child to be entered.
#[derive(Clone, Copy)]
pub(crate) struct Child {
    pub(crate) id: BlockId,
    pub(crate) index: u8,
}
