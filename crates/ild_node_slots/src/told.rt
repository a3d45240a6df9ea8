//! Telling what the next item of a list is while going on behind it.
ghost use Rattle.std.specs.Prelude.{◌≡◌, length, None};
ghost use Rattle.ild_data.specs.Data.{Data, Items as DataItems, item, items_list};
ghost use Rattle.ild_cbor.specs.Chain.{chain};
ghost use Rattle.ild_cbor.specs.Nodes.{HasData};
ghost use Rattle.ild_cbor.specs.Steps.{HasItems};
ghost use Rattle.ild_typed.specs.NodeReading.{pair_in, entry_in, are_entries};
ghost use Rattle.ild_node_slots.specs.Told.{PairNext, EntryNext, Told, ElementTold, link_fits};

use crate::parts::{links_block, rises, text_in};
use ild_cbor::{Items, Node};

// The two items of the next one, a list of two.
fn next_pair<'b>(items: &mut Items<'b>) -> Option<(Node<'b>, Node<'b>)>
    ensures { (d : Data) (ds : DataItems) → HasItems items.old (item d ds) → PairNext items.old ds (pair_in d) result items.new }
{
    if items.unfold()? != 2 {
        return None;
    }
    let first = items.next()?;
    let second = items.next()?;
    Some((first, second))
}

/// The key and the value of the next item, the entry of a bucket, behind which the iterator then stands; `None` where the item is no entry.
pub fn next_entry<'b>(items: &mut Items<'b>) -> Option<(&'b str, Node<'b>)>
    ensures { (d : Data) (ds : DataItems) → HasItems items.old (item d ds) → EntryNext items.old ds (entry_in d) result items.new }
{
    let (key, value) = next_pair(items)?;
    match text_in(key.bytes()?) {
        Some(key) => Some((key, value)),
        None => None,
    }
}

// Whether so many of the next items are entries whose keys rise.
fn next_entries(items: &mut Items<'_>, count: u64) -> bool
    ensures { (es ds : DataItems) → HasItems items.old (chain es ds) → length (items_list es) ≡ count → Told (are_entries es None) ds result items.new }
{
    let mut last = None;
    for _ in 0..count {
        match next_entry(items) {
            Some((key, _)) => {
                if !rises(last, key) {
                    return false;
                }
                last = Some(key);
            }
            None => return false,
        }
    }
    true
}

// Whether an item is the link of a block.
fn links(node: &Node<'_>) -> bool
    ensures { (t : Data) → HasData node.now t → result ≡ link_fits t }
{
    match node.link() {
        Some(cid) => links_block(cid.whole()),
        None => false,
    }
}

/// Whether the next item is an element of a node: the link of a child, or a bucket of this many entries at most.
pub(crate) fn next_element(items: &mut Items<'_>, most: u32) -> bool
    ensures { (ds : DataItems) → HasItems items.old ds → ElementTold most ds result items.new }
{
    match items.unfold() {
        Some(count) => 0 < count && count <= most as u64 && next_entries(items, count),
        None => match items.next() {
            Some(element) => links(&element),
            None => false,
        },
    }
}
