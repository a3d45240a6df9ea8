//! Cutting bytes in two, the block around an item, and how many parts the item has.
ghost use Rattle.std.specs.Prelude.{◌≡◌, ◌+◌, ℕ, Some, length, take, drop};
ghost use Rattle.ild_cbor.specs.Nodes.{HasData, block_of, start_of};
ghost use Rattle.ild_cbor.specs.Scalar.{count_of};
ghost use Rattle.ild_data.specs.Data.{Data};
ghost use Rattle.ild_data.specs.Spell.{spell};

use ild_cbor::Node;

/// The first so many bytes, or all where there are fewer, and those behind them.
pub(crate) fn cut(bytes: &[u8], at: usize) -> (&[u8], &[u8])
    ensures front { result.0.now ≡ take at bytes.now }
    ensures behind { result.1.now ≡ drop at bytes.now }
{
    let at = at.min(bytes.len());
    (&bytes[..at], &bytes[at..])
}

/// What stands in the block in front of an item, and what stands behind it.
pub(crate) fn around<'b>(node: &Node<'b>) -> (&'b [u8], &'b [u8])
    ensures front { result.0.now ≡ take (start_of node.now) (block_of node.now) }
    ensures behind { (d : Data) → HasData node.now d → result.1.now ≡ drop (start_of node.now + length (spell d)) (block_of node.now) }
{
    let (start, size) = node.span();
    let (front, rest) = cut(node.block(), start);
    (front, cut(rest, size).1)
}

/// How many parts a list or a map has.
pub(crate) fn part_count(node: &Node<'_>) -> u64
    ensures { (d : Data) (n : ℕ) → HasData node.now d → count_of d ≡ Some n → result ≡ n }
{
    node.count().unwrap_or(0)
}
