//! Values that are data by themselves.
ghost use Rattle.ild_schema.specs.Value.{Value};
ghost use Rattle.ild_view.specs.Itself.{Embodies, itself};

use crate::body::Body;
use crate::form::is_plain;
use crate::view::View;

impl<'b> View<'b> {
    ghost use Rattle.ild_view.specs.View.{IsView, table_of};

    /// The body, where the value is null, a scalar, or what an Any is.
    pub(crate) fn itself(&self) -> Option<Body<'b>>
        ensures { (f : Value) → IsView self.now f → Embodies (table_of self.now) (itself f) result }
    {
        self.acc.recall();
        if self.is_null_there() {
            return Some(self.body);
        }
        if is_plain(self.def()) {
            Some(self.body)
        } else {
            None
        }
    }
}
