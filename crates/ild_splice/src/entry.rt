//! The entries of a map before and behind a key.
ghost use Rattle.std.specs.Prelude.{◌≡◌, ◌≤◌, ◌+◌, ◌<◌, ◌^◌, length};
ghost use Rattle.ild_cbor.specs.Nodes.{HasData};
ghost use Rattle.ild_data.specs.Data.{Data, Members, map, members_list};
ghost use Rattle.ild_data.specs.Spell.{spell, spell_text};
ghost use Rattle.ild_splice.specs.Around.{AreAroundKey, AreCutAtKey};

use crate::cut::{cut, part_count};
use crate::size::head_size;
use ild_cbor::Node;
use ild_data::key_order;
use std::cmp::Ordering;

// How many bytes the entries are spelled in that were passed, and one more.
fn passed_with(passed: usize, key: &str, value: &Node<'_>) -> usize
    ensures { (d : Data) → HasData value.now d → passed + length (spell_text key.now) + length (spell d) < 2 ^ 64 → result ≡ passed + length (spell_text key.now) + length (spell d) }
{
    let text = head_size(key.len() as u64).saturating_add(key.len());
    passed.saturating_add(text).saturating_add(value.span().1)
}

// How many bytes of the entries stand before the place of a key, and how many with the entry at the key, where there is one.
fn place_of(node: &Node<'_>, key: &str) -> (usize, usize)
    ensures { (ms : Members) → HasData node.now (map ms) → AreCutAtKey result.0 result.1 key.now (members_list ms) }
{
    let mut passed = 0;
    if let Some(entries) = node.entries() {
        let mut rest = entries;
        while let Some((found, value)) = rest.next() {
            let next = passed_with(passed, found, &value);
            match key_order(key, found) {
                Ordering::Less => return (passed, passed),
                Ordering::Equal => return (passed, next),
                Ordering::Greater => passed = next,
            }
        }
    }
    (passed, passed)
}

/// The entries of a map as they are spelled: those before the place of a key, and those behind it (DAG-CBOR, "Map Keys"). The entry at
/// the key, where there is one, is in neither. Of an item that is no map nothing is said.
pub fn entries_around<'b>(node: &Node<'b>, key: &str) -> (&'b [u8], &'b [u8])
    ensures { (ms : Members) → HasData node.now (map ms) → AreAroundKey result.0.now result.1.now key.now (members_list ms) }
{
    let (from, to) = place_of(node, key);
    let entries = cut(node.spelling(), head_size(part_count(node))).1;
    (cut(entries, from).0, cut(entries, to).1)
}
