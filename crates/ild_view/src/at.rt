//! Paths into a view.
ghost use Rattle.std.specs.Prelude.{◌≡◌, drop};
ghost use Rattle.ild_data.specs.Key.{same_text};
ghost use Rattle.ild_schema.specs.Value.{Value};
ghost use Rattle.ild_typed.specs.At.{or_enter, reached, seen};
ghost use Rattle.ild_typed.specs.Segment.{part};

use crate::segment::index;
use crate::step::{NoPath, Step};
use crate::view::View;
use ild_data::Path;

// Whether two texts are one.
fn is_text(a: &str, b: &str) -> bool
    ensures { result ≡ same_text a.now b.now }
{
    a == b
}

impl<'b> View<'b> {
    ghost use Rattle.ild_view.specs.Parts.{HandsOut};
    ghost use Rattle.ild_view.specs.Reaches.{Reaches};
    ghost use Rattle.ild_view.specs.View.{IsView, slot_of, table_of};

    /// The part to which a segment leads: a field, an entry, the member, an element; `None` where it leads to none, or into a HAMT.
    pub fn part(&self, segment: &str) -> Option<View<'b>>
        ensures { (f : Value) → IsView self.now f → HandsOut (table_of self.now) (part (seen (table_of self.now) (slot_of self.now, f)) segment.now) result }
    {
        if let Some(view) = self.field(segment) {
            return Some(view);
        }
        if let Some(view) = self.entry(segment) {
            return Some(view);
        }
        if let Some((name, view)) = self.member() {
            return if is_text(segment, name) {
                Some(view)
            } else {
                None
            };
        }
        self.acc.recall();
        match index(segment) {
            Some(i) => self.item(i),
            None => None,
        }
    }

    // Where a path stops that has no part for its segment with this number: at the root of a HAMT, which has to be entered, or
    // nowhere.
    fn stop(&self, k: usize) -> Result<Step<'b>, NoPath>
        ensures { (f : Value) → IsView self.now f → Reaches (table_of self.now) (or_enter k (slot_of self.now) f) result }
    {
        match self.hamt() {
            Some(_) => Ok(Step::Enter(*self, k)),
            None => Err(NoPath { k }),
        }
    }

    /// The part to which the segments of a path lead, from a segment on, or the root of a HAMT that has to be entered, with the
    /// segment that is its key. A link leads nowhere.
    pub fn at(&self, path: &Path, from: usize) -> Result<Step<'b>, NoPath>
        ensures { (f : Value) → IsView self.now f → Reaches (table_of self.now) (reached (table_of self.now) from (slot_of self.now, f) (drop from path.now)) result }
    {
        let segments = path.as_slice();
        let mut view = *self;
        let mut k = from;
        while k < segments.len() {
            match view.part(segments[k].as_str()) {
                Some(part) => {
                    view = part;
                }
                None => return view.stop(k),
            }
            k += 1;
        }
        Ok(Step::Here(view))
    }
}
