//! Null and scalars.
ghost use Rattle.std.specs.Prelude.{◌≡◌, ◌↔◌, option_map, true};
ghost use Rattle.std.specs.Option.{option_and_then};
ghost use Rattle.ild_cbor.specs.Scalar.{boolean_of, bytes_of, int_of, link_of, text_of};
ghost use Rattle.ild_data.specs.CidView.{cid_bytes};
ghost use Rattle.ild_schema.specs.Value.{Value, null};
ghost use Rattle.ild_view.specs.Itself.{itself};

use crate::view::View;
use ild_data::{CidRef, Int};

impl<'b> View<'b> {
    ghost use Rattle.ild_view.specs.View.{IsView};

    /// Whether the value is null.
    pub fn is_null(&self) -> bool
        ensures { (f : Value) → IsView self.now f → (result ≡ true) ↔ (f ≡ null) }
    {
        self.acc.recall();
        self.is_null_there()
    }

    /// The truth value, or `None` where the value is none. An Any is what its data are.
    pub fn boolean(&self) -> Option<bool>
        ensures { (f : Value) → IsView self.now f → result ≡ option_and_then boolean_of (itself f) }
    {
        match self.itself() {
            Some(body) => body.boolean(),
            None => None,
        }
    }

    /// The integer, or `None` where the value is none.
    pub fn int(&self) -> Option<Int>
        ensures { (f : Value) → IsView self.now f → result ≡ option_and_then int_of (itself f) }
    {
        match self.itself() {
            Some(body) => body.int(),
            None => None,
        }
    }

    /// The text, or `None` where the value is none.
    pub fn text(&self) -> Option<&'b str>
        ensures { (f : Value) → IsView self.now f → option_map (λ s. s.now) result ≡ option_and_then text_of (itself f) }
    {
        match self.itself() {
            Some(body) => body.text(),
            None => None,
        }
    }

    /// The byte string, or `None` where the value is none.
    pub fn bytes(&self) -> Option<&'b [u8]>
        ensures { (f : Value) → IsView self.now f → option_map (λ s. s.now) result ≡ option_and_then bytes_of (itself f) }
    {
        match self.itself() {
            Some(body) => body.bytes(),
            None => None,
        }
    }

    /// The CID of a link, or `None` where the value is none.
    pub fn link(&self) -> Option<CidRef<'b>>
        ensures { (f : Value) → IsView self.now f → option_map cid_bytes result ≡ option_and_then link_of (itself f) }
    {
        match self.itself() {
            Some(body) => body.link(),
            None => None,
        }
    }
}
