//! How far a path leads in one block.
ghost use Rattle.std.specs.Prelude.{◌≡◌, ◌≤◌, length};
ghost use Rattle.ild_path_inward.specs.Halts.{HaltsAt};
ghost use Rattle.ild_schema.specs.Value.{Value};
ghost use Rattle.ild_view.specs.View.{IsView, slot_of, table_of};

use ild_data::Txt;
use ild_path_room::levels;
use ild_view::View;

/// Where a path stops in a block.
#[derive(Clone, Copy)]
pub struct Halt<'b, 'p> {
    /// The last part that it reaches.
    pub view: View<'b>,
    /// The segments that are left; the first of them leads to no part that the block shows.
    pub left: &'p [Txt],
    /// How many levels the part may nest.
    pub room: u32,
}

/// How far some segments lead from a view, whose value may nest so many levels.
pub fn halt_in<'b, 'p>(root: &View<'b>, segments: &'p [Txt], room: u32) -> Halt<'b, 'p>
    ensures halts { (f : Value) → IsView root.now f → HaltsAt (table_of root.now) room (slot_of root.now, f) segments.now result }
    ensures table { table_of result.view ≡ table_of root.now }
    ensures left { length result.left.now ≤ length segments.now }
{
    let mut view = *root;
    let mut left = segments;
    let mut free = room;
    while let Some((segment, behind)) = left.split_first() {
        let Some(part) = view.part(segment.as_str()) else {
            return Halt {
                view,
                left,
                room: free,
            };
        };
        free = free.saturating_sub(levels(&view));
        view = part;
        left = behind;
    }
    Halt {
        view,
        left,
        room: free,
    }
}
