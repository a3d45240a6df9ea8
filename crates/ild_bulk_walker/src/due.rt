//! What a walk has to do next.
use crate::step::Child;

/// The next step of a walk.
#[derive(Clone, Copy)]
pub(crate) enum Due {
    /// To give an entry.
    Give,
    /// To enter a child.
    Enter(Child),
    /// To leave a node, which was entered when so many entries were given.
    Leave(u64),
    /// Nothing: the walk has ended.
    End,
}
