//! Where a path leads in a view.
use crate::view::View;

/// Where a path leads.
#[derive(Clone, Copy)]
pub enum Step<'b> {
    /// To this part.
    Here(View<'b>),
    /// To this root of a HAMT, which has to be entered: its key is the segment with this number.
    Enter(View<'b>, usize),
}

/// A path leads nowhere from the segment with this number on.
#[derive(Clone, Copy, Debug, PartialEq, Eq)]
pub struct NoPath {
    pub k: usize,
}
