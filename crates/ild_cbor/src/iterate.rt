//! Walking the parts of an item.
ghost use Rattle.std.specs.Prelude.{◌≡◌};
ghost use Rattle.std.specs.Iterator.{at_most};
ghost use Rattle.ild_data.specs.Data.{Data};
ghost use Rattle.ild_cbor.specs.Nodes.{HasData};
ghost use Rattle.ild_cbor.specs.Steps.{ItemsGive, EntriesGive, FindsItems, FindsEntries, Unfolds, items_of, members_of};

use crate::items::Items;
use crate::node::Node;
use crate::pairs::Pairs;
use crate::scalar::known_text;
use crate::search::first_key;
use crate::skip::skip;
use crate::start::Start;

impl<'b> Node<'b> {
    /// The items of a list in order, or `None` where this item is no list.
    pub fn items(&self) -> Option<Items<'b>>
        ensures { (t : Data) → HasData self.now t → FindsItems self.now (items_of t) result }
    {
        let start = self.start();
        if start.major != 4 {
            return None;
        }
        Some(Items {
            block: self.block,
            from: self.to - start.rest.len(),
            left: start.argument,
        })
    }

    /// The keys and values of a map in order, or `None` where this item is no map.
    pub fn entries(&self) -> Option<Pairs<'b>>
        ensures { (t : Data) → HasData self.now t → FindsEntries self.now (members_of t) result }
    {
        let start = self.start();
        if start.major != 5 {
            return None;
        }
        Some(Pairs {
            block: self.block,
            from: self.to - start.rest.len(),
            left: start.argument,
        })
    }
}

impl<'b> Items<'b> {
    /// Where the next item is a list, its own items stand in its place from now on: how many they are. Else nothing is changed.
    pub fn unfold(&mut self) -> Option<u64>
        ensures { Unfolds self.old result self.new }
    {
        if self.left == 0 {
            return None;
        }
        let start = Start::of(&self.block[self.from..]);
        if start.major != 4 {
            return None;
        }
        let behind = self.block.len() - start.rest.len();
        *self = Items {
            block: self.block,
            from: behind,
            left: (self.left - 1).saturating_add(start.argument),
        };
        Some(start.argument)
    }
}

impl<'b> Iterator for Items<'b> {
    type Item = Node<'b>;

    ghost next_gives = { ItemsGive };

    ghost remaining = { λ s. at_most s.left };

    fn next(&mut self) -> Option<Node<'b>> {
        if self.left == 0 {
            return None;
        }
        let after = skip(&self.block[self.from..], 1);
        let behind = self.block.len() - after.len();
        let node = Node {
            block: self.block,
            from: self.from,
            to: behind,
        };
        *self = Items {
            block: self.block,
            from: behind,
            left: self.left - 1,
        };
        Some(node)
    }
}

impl<'b> Iterator for Pairs<'b> {
    type Item = (&'b str, Node<'b>);

    ghost next_gives = { EntriesGive };

    ghost remaining = { λ s. at_most s.left };

    fn next(&mut self) -> Option<(&'b str, Node<'b>)> {
        if self.left == 0 {
            return None;
        }
        let (key, value) = first_key(&self.block[self.from..]);
        let after = skip(value, 1);
        let key = known_text(key);
        let behind = self.block.len() - after.len();
        let node = Node {
            block: self.block,
            from: self.block.len() - value.len(),
            to: behind,
        };
        *self = Pairs {
            block: self.block,
            from: behind,
            left: self.left - 1,
        };
        Some((key, node))
    }
}
