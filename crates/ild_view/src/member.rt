//! The member of a union.
ghost use Rattle.ild_schema.specs.Value.{Value};
ghost use Rattle.ild_typed.specs.At.{seen};

use crate::body::Body;
use crate::form::union_in;
use crate::view::View;
use ild_schema::Slot;
use ild_union::layer;

impl<'b> View<'b> {
    ghost use Rattle.ild_view.specs.Parts.{HandsOutMember, member_held};
    ghost use Rattle.ild_view.specs.View.{IsView, slot_of, table_of};

    /// The member that a union holds, with its name, or `None` where the value is no union.
    pub fn member(&self) -> Option<(&'b str, View<'b>)>
        ensures { (f : Value) → IsView self.now f → HandsOutMember (table_of self.now) (member_held (seen (table_of self.now) (slot_of self.now, f))) result }
    {
        self.acc.recall();
        if self.is_null_there() {
            return None;
        }
        match union_in(self.def()) {
            Some(def) => match self.body {
                Body::Held(piece) => match layer(self.acc, self.slot.ty, piece) {
                    Ok((number, part)) => {
                        let member = &def.members.as_slice()[number as usize];
                        let slot = Slot {
                            ty: member.ty,
                            nullable: false,
                        };
                        let view = self.placed(slot, Body::Held(part));
                        Some((member.name.as_str(), view))
                    }
                    Err(_) => None,
                },
                Body::Implicit(_) => None,
            },
            None => None,
        }
    }
}
