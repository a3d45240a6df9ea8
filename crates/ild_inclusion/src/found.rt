//! Where a path leads, before it is written out.
use ild_view::View;

/// Where a path leads: to a part, by its view; or nowhere, from the segment with this number on.
#[derive(Clone, Copy)]
pub(crate) enum Found<'b> {
    Here(View<'b>),
    Absent(usize),
}
