//! The parts of an item.
ghost use Rattle.std.specs.Prelude.{◌≡◌, ◌++◌, List, length};
ghost use Rattle.ild_data.specs.Data.{Data, items_of, list};
ghost use Rattle.ild_cbor.specs.Nodes.{HasData, IsPart, Finds, HasPart, HasLast, AreAround};
ghost use Rattle.ild_cbor.specs.Span.{place_of, item_of, entry_of, index_of};
ghost use Rattle.ild_cbor.specs.Pairing.{FindsPair};

use crate::node::Node;
use crate::search::value_from;
use crate::skip::skip;

impl<'b> Node<'b> {
    // The part that the end of the item's spelling begins with.
    fn part(&self, rest: &'b [u8]) -> Node<'b>
        requires { ∥ HasPart self.now rest.now ∥₁ }
        ensures { (h : HasPart self.now rest.now) → IsPart self.now result (length h.front) h.of }
    {
        let after = skip(rest, 1);
        Node {
            block: self.block,
            from: self.to - rest.len(),
            to: self.to - after.len(),
        }
    }

    // The same where nothing of the item stands behind the part.
    fn last(&self, rest: &'b [u8]) -> Node<'b>
        requires { ∥ HasLast self.now rest.now ∥₁ }
        ensures { (h : HasLast self.now rest.now) → IsPart self.now result (length h.part.front) h.part.of }
    {
        Node {
            block: self.block,
            from: self.to - rest.len(),
            to: self.to,
        }
    }

    /// The item at a place of a list, or `None` past the last, and where this item is no list.
    pub fn item(&self, i: u64) -> Option<Node<'b>>
        ensures { (t : Data) → HasData self.now t → Finds self.now (place_of t i) (item_of t i) result }
    {
        let start = self.start();
        if start.major != 4 || i >= start.argument {
            return None;
        }
        let rest = skip(start.rest, i);
        if i + 1 == start.argument {
            return Some(self.last(rest));
        }
        Some(self.part(rest))
    }

    /// The two items of a list of two, or `None` where this item is none.
    pub fn pair(&self) -> Option<(Node<'b>, Node<'b>)>
        ensures { (t : Data) → HasData self.now t → FindsPair self.now t result }
    {
        let start = self.start();
        if start.major != 4 || start.argument != 2 {
            return None;
        }
        let rest = skip(start.rest, 1);
        let first = Node {
            block: self.block,
            from: self.to - start.rest.len(),
            to: self.to - rest.len(),
        };
        Some((first, self.last(rest)))
    }

    /// What stands in a list before `m` of its items from number `i` on, and what stands behind them, as it is spelled.
    pub fn items_around(&self, i: u64, m: u64) -> (&'b [u8], &'b [u8])
        ensures { (xs ys zs : List Data) → HasData self.now (list (items_of (xs ++ (ys ++ zs)))) → length xs ≡ i → length ys ≡ m → AreAround result.0.now result.1.now xs zs }
    {
        let items = self.start().rest;
        let from = skip(items, i);
        let front = items.len().saturating_sub(from.len());
        (&items[..front], skip(from, m))
    }

    /// The value at a key of a map, or `None` where the key is absent, and where this item is no map.
    pub fn entry(&self, key: &str) -> Option<Node<'b>>
        ensures { (t : Data) → HasData self.now t → Finds self.now (place_of t (index_of key.now t)) (entry_of t key.now) result }
    {
        let start = self.start();
        if start.major != 5 {
            return None;
        }
        match value_from(start.rest, start.argument, key) {
            Some(value) => Some(self.part(value)),
            None => None,
        }
    }
}
