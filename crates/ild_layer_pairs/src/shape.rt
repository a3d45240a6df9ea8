//! The pairs of a list.
ghost use Rattle.ild_cbor.specs.Nodes.{HasData};
ghost use Rattle.ild_data.specs.Data.{Data};
ghost use Rattle.ild_layer_pairs.specs.Shape.{IsShape};

use ild_cbor::Node;

/// What an item of a list of pairs is.
#[derive(Clone, Copy)]
pub enum Shape<'b> {
    /// No list, or a list that begins with something other than a text.
    Odd,
    /// A list with no value, or with more than one.
    Other,
    /// A name and its value.
    Pair(&'b str, Node<'b>),
}

/// What an item is.
pub fn shape_of<'b>(item: &Node<'b>) -> Shape<'b>
    ensures { (d : Data) → HasData item.now d → IsShape d result }
{
    let Some(mut parts) = item.items() else {
        return Shape::Odd;
    };
    let Some(first) = parts.next() else {
        return Shape::Other;
    };
    let Some(name) = first.text() else {
        return Shape::Odd;
    };
    let Some(value) = parts.next() else {
        return Shape::Other;
    };
    match parts.next() {
        Some(_) => Shape::Other,
        None => Shape::Pair(name, value),
    }
}
