//! The values of pairs, which are lists of two items.
ghost use Rattle.std.specs.Prelude.{option_map};
ghost use Rattle.ild_cbor.specs.Nodes.{HasData};
ghost use Rattle.ild_data.specs.Data.{Data};
ghost use Rattle.ild_layer_piece.specs.Entries.{Found};
ghost use Rattle.ild_typed.specs.Named.{entry_of, items_or};
ghost use Rattle.ild_typed.specs.NodeReading.{pair_in};
ghost use Rattle.ild_beneath_read.specs.inside.Pairs.{IsNamed, IsPairOf};

use ild_cbor::Node;

/// The two items of a list of two.
pub(crate) fn pair_of<'b>(item: &Node<'b>) -> Option<(Node<'b>, Node<'b>)>
    ensures { (d : Data) → HasData item.now d → IsPairOf (pair_in d) result }
{
    item.pair()
}

/// The name and the value of a pair whose name is a text.
pub(crate) fn named<'b>(item: &Node<'b>) -> Option<(&'b str, Node<'b>)>
    ensures { (d : Data) → HasData item.now d → IsNamed (entry_of (items_or d)) result }
{
    let Some((name, value)) = pair_of(item) else {
        return None;
    };
    match name.text() {
        Some(text) => Some((text, value)),
        None => None,
    }
}

/// The value of a bucket's entry: the second of its two items.
pub(crate) fn entry_value<'b>(item: &Node<'b>) -> Option<Node<'b>>
    ensures { (d : Data) → HasData item.now d → Found (option_map (λ p. p.1) (pair_in d)) result }
{
    match pair_of(item) {
        Some((_, value)) => Some(value),
        None => None,
    }
}
