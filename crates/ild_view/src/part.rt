//! Views of the parts of a view.
ghost use Rattle.std.specs.Prelude.{◌≡◌, ◌<◌, ◌≤◌, length, true};
ghost use Rattle.ild_view.specs.Body.{body_types, is_placed};
ghost use Rattle.ild_view.specs.Front.{BodyHasFront};
ghost use Rattle.ild_view.specs.Safe.{is_safe};

use crate::body::Body;
use crate::view::View;
use ild_schema::Slot;

impl<'b> View<'b> {
    ghost use Rattle.ild_view.specs.View.{body_of, slot_of, table_of};

    // The view of what stands for a part, in the slot of the part.
    pub(crate) fn placed(&self, slot: Slot, body: Body<'b>) -> View<'b>
        requires within { slot.ty.0 < length (table_of self.now) }
        requires safe { is_safe (table_of self.now) slot ≡ true }
        requires numbered { body_types body ≤ length (table_of self.now) }
        requires placed { is_placed (table_of self.now) slot body ≡ true }
        requires front { ∥ BodyHasFront (table_of self.now) slot body ∥₁ }
        ensures table { table_of result ≡ table_of self.now }
        ensures slot { slot_of result ≡ slot }
        ensures body { body_of result ≡ body.entry }
    {
        View {
            acc: self.acc,
            slot,
            body,
        }
    }
}
