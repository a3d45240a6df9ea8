//! A row put in its place among others.
ghost use Rattle.std.specs.Prelude.{◌≡◌, ◌<◌, ◌≤◌, length, slice_set, insert, IfOk, IfErr, OnOk, OnErr};
ghost use Rattle.std.specs.FinMap.{put};
ghost use Rattle.ild_data.specs.ByteOrder.{bytewise};
ghost use Rattle.ild_data.specs.Data.{Data};
ghost use Rattle.ild_cbor.specs.Nodes.{HasData};
ghost use Rattle.ild_node.specs.Rows.{rows_seen, row_seen};

use crate::row::Row;
use crate::rows::Rows;
use ild_cbor::Node;
use ild_data::Txt;
use ild_node_slots::Spelled;
use std::alloc::{AllocError, Global};
use std::cmp::Ordering;

// The place of the row with this key, or else the place that it would have.
fn place_of(rows: &[Row], key: &str) -> Result<usize, usize>
    ensures found { (v : Data) → IfOk result (λ i. (i < length rows.now) × (put bytewise key.now v (rows_seen rows.now) ≡ slice_set (rows_seen rows.now) i (key.now, v))) }
    ensures none { (v : Data) → IfErr result (λ i. (i ≤ length rows.now) × (put bytewise key.now v (rows_seen rows.now) ≡ insert (rows_seen rows.now) i (key.now, v))) }
{
    for (i, row) in rows.iter().enumerate() {
        match key.cmp(row.key.as_str()) {
            Ordering::Less => return Err(i),
            Ordering::Equal => return Ok(i),
            Ordering::Greater => {}
        }
    }
    Err(rows.len())
}

fn put_row(rows: &mut Vec<Row>, row: Row) -> Result<(), AllocError>
    ensures ok { OnOk result (rows_seen rows.new.items ≡ put bytewise row.key row.value (rows_seen rows.old.items)) }
    ensures err { OnErr result (rows.new.items ≡ rows.old.items) }
{
    match place_of(rows, row.key.as_str()) {
        Ok(i) => rows[i] = row,
        Err(i) => rows.insert(i, row)?,
    }
    Ok(())
}

impl Rows {
    ghost use Rattle.ild_node.specs.Rows.{NestsIn, deepest_value};

    /// Puts a row in its place, in place of the one with its key where there is one. The value leaves room for the node around it.
    pub fn put(&mut self, alloc: Global, key: &str, value: &Node<'_>) -> Result<(), AllocError>
        requires { NestsIn deepest_value value.now }
        ensures ok { (t : Data) → HasData value.now t → OnOk result (self.new ≡ put bytewise key.now t self.old) }
        ensures err { OnErr result (self.new ≡ self.old) }
    {
        let row = Row {
            key: Txt::of(alloc, key)?,
            value: Spelled::of(alloc, value)?,
        };
        put_row(&mut self.rows, row)
    }
}
