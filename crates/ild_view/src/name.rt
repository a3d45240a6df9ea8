//! The members of enums.
ghost use Rattle.std.specs.Prelude.{◌≡◌, option_map};
ghost use Rattle.ild_schema.specs.Slots.{form_of};
ghost use Rattle.ild_schema.specs.Value.{Value};
ghost use Rattle.ild_view.specs.Names.{enum_name_of};

use crate::body::Body;
use crate::form::enum_in;
use crate::view::View;
use ild_enum::layer;

impl<'b> View<'b> {
    ghost use Rattle.ild_view.specs.View.{IsView, slot_of, table_of};

    /// The name of the member that an enum is, or `None` where the value is no enum.
    pub fn enum_name(&self) -> Option<&'b str>
        ensures { (f : Value) → IsView self.now f → option_map (λ s. s.now) result ≡ enum_name_of (form_of (table_of self.now) (slot_of self.now)) f }
    {
        self.acc.recall();
        if self.is_null_there() {
            return None;
        }
        match enum_in(self.def()) {
            Some(def) => match self.body {
                Body::Held(piece) => match layer(self.acc, self.slot.ty, piece) {
                    Ok(number) => Some(def.members.as_slice()[number as usize].name.as_str()),
                    Err(_) => None,
                },
                Body::Implicit(_) => None,
            },
            None => None,
        }
    }
}
