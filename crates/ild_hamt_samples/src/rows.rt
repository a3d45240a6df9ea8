//! Rows for tests.
ghost use Rattle.std.specs.Prelude.{◌≡◌, ◌++◌, ◌∷◌, [], IsTrue, IfOk, IfSome, OnOk};
ghost use Rattle.std.specs.Ordering.{is_lt};
ghost use Rattle.ild_data.specs.ByteOrder.{bytewise};
ghost use Rattle.ild_cbor.specs.Nodes.{HasData};
ghost use Rattle.ild_node.specs.Rows.{IsAbove, NestsIn};
ghost use Rattle.ild_node_slots.specs.Spelled.{tree_in};
ghost use Rattle.ild_hamt_samples.specs.Pairs.{entries_of};

use ild_cbor::{Node, check};
use ild_node::Rows;
use std::alloc::Global;
use std::test::Fail;

fn is_less(a: &str, b: &str) -> bool
    ensures { result ≡ is_lt (bytewise a.now b.now) }
{
    a < b
}

/// Whether a key is greater than those of all rows.
pub fn is_above(rows: &Rows, key: &str) -> bool
    ensures { IsTrue result → IsAbove key.now rows.now }
{
    match rows.len() {
        0 => true,
        n => match rows.get(n - 1) {
            Some((last, _)) => is_less(last, key),
            None => false,
        },
    }
}

/// Whether a value is a scalar.
pub fn is_scalar(node: &Node<'_>) -> bool
    ensures { IsTrue result → NestsIn 92 node.now }
{
    node.count().is_none()
}

// The node that a block is.
fn node_in(block: &[u8]) -> Option<Node<'_>>
    ensures { IfSome result (λ n. HasData n (tree_in block.now)) }
{
    match check(block) {
        Ok(node) => Some(node),
        Err(_) => None,
    }
}

/// Appends a row, whose value is a block of one scalar.
pub fn push(alloc: Global, rows: &mut Rows, key: &str, value: &[u8]) -> Result<(), Fail>
    ensures { OnOk result (rows.new ≡ rows.old ++ (key.now, tree_in value.now) ∷ []) }
{
    let Some(node) = node_in(value) else {
        return Err("a block".into());
    };
    if !is_above(rows, key) {
        return Err("the keys rise".into());
    }
    if !is_scalar(&node) {
        return Err("a scalar".into());
    }
    rows.push(alloc, key, &node)?;
    Ok(())
}

/// The rows of these keys and values.
pub fn rows_of(alloc: Global, pairs: &[(&str, u8)]) -> Result<Rows, Fail>
    ensures { IfOk result (λ rows. rows ≡ entries_of pairs.now) }
{
    let mut rows = Rows::new(alloc);
    for pair in pairs {
        push(alloc, &mut rows, pair.0, &[pair.1])?;
    }
    Ok(rows)
}
