//! The pairs of a list.
ghost use Rattle.std.specs.Prelude.{◌≡◌};
ghost use Rattle.ild_data.specs.Data.{Data};
ghost use Rattle.ild_cbor.specs.Nodes.{HasData};
ghost use Rattle.ild_layer_fields.specs.Pairs.{IsPairOf};

use ild_cbor::Node;

/// A pair of a list.
#[derive(Clone, Copy)]
pub enum Pair<'b> {
    /// No list, or a list that begins with something other than a text.
    Odd,
    /// A list with no items.
    Empty,
    /// A name with no value, or with more than one.
    Name(&'b str),
    /// A name and its value.
    Entry(&'b str, Node<'b>),
}

impl<'b> Pair<'b> {
    /// The pair that an item is.
    pub fn of(item: &Node<'b>) -> Pair<'b>
        ensures { (d : Data) → HasData item.now d → IsPairOf d result }
    {
        let Some(mut parts) = item.items() else {
            return Pair::Odd;
        };
        let Some(first) = parts.next() else {
            return Pair::Empty;
        };
        let Some(name) = first.text() else {
            return Pair::Odd;
        };
        let Some(value) = parts.next() else {
            return Pair::Name(name);
        };
        match parts.next() {
            Some(_) => Pair::Name(name),
            None => Pair::Entry(name, value),
        }
    }
}
