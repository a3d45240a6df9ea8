//! Reading a node as the steps that a walk does in it, while it is told that it is one.
ghost use Rattle.std.specs.Prelude.{◌≡◌, ◌++◌, ◌∷◌, ◌<◌, [], length, map, IfOk, OnOk};
ghost use Rattle.ild_data.specs.Data.{Data, Items as DataItems, items_list};
ghost use Rattle.ild_cbor.specs.Chain.{chain};
ghost use Rattle.ild_cbor.specs.Nodes.{HasData};
ghost use Rattle.ild_cbor.specs.Steps.{HasItems};
ghost use Rattle.ild_typed.specs.NodeReading.{are_entries, child_in, map_bit};
ghost use Rattle.ild_bulk_walker.specs.Steps.{step_todo};
ghost use Rattle.ild_bulk_walker.specs.Todo.{give};
ghost use Rattle.ild_bulk_walker.specs.inside.Told.{Adds, ChildAdds, ElementAdds, HasEntriesIn, HasItemsIn, IsNodeIn, Lies, LiesThere, PartsRead, ReadsElements, ReadsNode, SlotAdds, entries_todo};

use crate::step::{Child, Entry, Step};
use ild_cbor::{Items, Node};
use ild_data::{HamtShape, Octets};
use ild_node_slots::{child_in, map_bit, next_entry, rises};
use std::alloc::{AllocError, Global};
use std::rc::Rc;

// Appends the entry of this key and value, which stand one behind the other in the block.
fn add_entry(
    held: &Rc<Octets>,
    steps: &mut Vec<Step>,
    key: &str,
    value: Node<'_>,
    index: u8,
) -> Result<(), AllocError>
    requires { LiesThere held.now.value key.now value }
    ensures { (d : Data) → Lies held.now.value key.now value.entry d → OnOk result (map step_todo steps.new.items ≡ map step_todo steps.old.items ++ give key.now d index ∷ []) }
{
    let (middle, size) = value.span();
    let held = held.clone()?;
    let entry = Entry {
        held,
        from: middle - key.len(),
        middle,
        to: middle + size,
        index,
    };
    steps.push(Step::Give(entry))?;
    Ok(())
}

// Appends so many of the next items, where they are entries whose keys rise: whether they are.
fn add_entries(
    held: &Rc<Octets>,
    steps: &mut Vec<Step>,
    items: &mut Items<'_>,
    count: u64,
    index: u8,
) -> Result<bool, AllocError>
    requires { HasEntriesIn held.now.value count items.old }
    ensures { (es ds : DataItems) → HasItems items.old (chain es ds) → length (items_list es) ≡ count
        → IfOk result (λ r. Adds (are_entries es None) (entries_todo index es) held.now.value ds steps.old.items r items.new steps.new.items) }
{
    let mut last = None;
    for _ in 0..count {
        match next_entry(items) {
            Some((key, value)) => {
                if !rises(last, key) {
                    return Ok(false);
                }
                add_entry(held, steps, key, value, index)?;
                last = Some(key);
            }
            None => return Ok(false),
        }
    }
    Ok(true)
}

// Appends the child to whose block an item leads, where it is such a link: whether it is.
fn add_child(steps: &mut Vec<Step>, element: &Node<'_>, index: u8) -> Result<bool, AllocError>
    ensures { (t : Data) → HasData element.now t → IfOk result (λ r. ChildAdds (child_in t) index steps.old.items r steps.new.items) }
{
    match child_in(element) {
        Some(id) => {
            steps.push(Step::Enter(Child { id, index }))?;
            Ok(true)
        }
        None => Ok(false),
    }
}

// Appends the steps of the next item, where it is an element of a node: whether it is.
fn add_element(
    shape: HamtShape,
    held: &Rc<Octets>,
    steps: &mut Vec<Step>,
    items: &mut Items<'_>,
    index: u8,
) -> Result<bool, AllocError>
    requires { HasItemsIn held.now.value items.old }
    ensures { (ds : DataItems) → HasItems items.old ds → IfOk result (λ r. ElementAdds shape index held.now.value ds steps.old.items r items.new steps.new.items) }
{
    match items.unfold() {
        Some(count) => {
            if count == 0 || count > shape.bucket as u64 {
                return Ok(false);
            }
            add_entries(held, steps, items, count, index)
        }
        None => match items.next() {
            Some(element) => add_child(steps, &element, index),
            None => Ok(false),
        },
    }
}

// The same of a slot, which has an element where its bit is set.
fn add_slot(
    shape: HamtShape,
    held: &Rc<Octets>,
    steps: &mut Vec<Step>,
    map: &[u8],
    items: &mut Items<'_>,
    i: usize,
) -> Result<bool, AllocError>
    requires items { HasItemsIn held.now.value items.old }
    requires slot { i < 256 }
    ensures { (ds : DataItems) → HasItems items.old ds → IfOk result (λ r. SlotAdds shape (map_bit map.now i) i held.now.value ds items.old steps.old.items r items.new steps.new.items) }
{
    if map_bit(map, i) {
        return add_element(shape, held, steps, items, i as u8);
    }
    Ok(true)
}

// Appends the steps of all elements, where there is one for each bit that is set: whether there is.
fn add_elements(
    shape: HamtShape,
    held: &Rc<Octets>,
    steps: &mut Vec<Step>,
    map: &[u8],
    elements: Items<'_>,
) -> Result<bool, AllocError>
    requires { HasItemsIn held.now.value elements }
    ensures { (ds : DataItems) → HasItems elements.entry ds → IfOk result (λ r. ReadsElements shape map.now ds steps.old.items r steps.new.items) }
{
    let mut items = elements;
    for i in 0..shape.slots() {
        if !add_slot(shape, held, steps, map, &mut items, i)? {
            return Ok(false);
        }
    }
    Ok(items.next().is_none())
}

// The map and the elements of an item that may be a node.
fn parts_of<'b>(node: &Node<'b>) -> Option<(&'b [u8], Items<'b>)>
    ensures { (t : Data) → HasData node.now t → PartsRead node.now t result }
{
    let (ones, data) = node.pair()?;
    let map = ones.bytes()?;
    let elements = data.items()?;
    Some((map, elements))
}

/// The steps of a node of this shape in this block, the first behind the others, or `None` where the item is no node.
pub(crate) fn steps_in(
    alloc: Global,
    shape: HamtShape,
    held: &Rc<Octets>,
    node: Node<'_>,
) -> Result<Option<Vec<Step>>, AllocError>
    requires { IsNodeIn held.now.value node }
    ensures { (t : Data) → HasData node.entry t → IfOk result (ReadsNode shape t) }
{
    let Some((map, elements)) = parts_of(&node) else {
        return Ok(None);
    };
    if map.len() != shape.slots() / 8 {
        return Ok(None);
    }
    let mut steps = Vec::new(alloc);
    if !add_elements(shape, held, &mut steps, map, elements)? {
        return Ok(None);
    }
    steps.reverse();
    Ok(Some(steps))
}
