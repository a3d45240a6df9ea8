//! Rows: entries to be written, rising bytewise by key (IPLD HashMap, "Bucket").
ghost use Rattle.std.specs.Prelude.{◌≡◌, ◌++◌, ◌+◌, ◌∷◌, [], length, slice_get, option_map, OnOk, OnErr};
ghost use Rattle.ild_data.specs.Data.{Data};
ghost use Rattle.ild_cbor.specs.Nodes.{HasData};

use crate::row::Row;
use ild_cbor::Node;
use ild_data::Txt;
use ild_node_slots::Spelled;
use std::alloc::{AllocError, Global};
use std::marker::Model;

/// Keys and spelled values, rising bytewise by key.
#[derive(Drop)]
pub struct Rows {
    pub(crate) rows: Vec<Row>,
}

impl Model for Rows {
    ghost use Rattle.std.specs.Prelude.{List, ℕ};
    ghost use Rattle.ild_data.specs.Data.{Data};
    ghost use Rattle.ild_node_slots.specs.Spelled.{entries_coded};
    ghost use Rattle.ild_node.specs.Rows.{rows_seen, AreRows};

    ghost Value = { List (List ℕ × Data) };

    ghost coded = { entries_coded };

    ghost view = { λ a. rows_seen a.rows.items };

    ghost invariant = { λ a. AreRows (rows_seen a.rows.items) };
}

impl Rows {
    ghost use Rattle.ild_node.specs.Rows.{rows_seen, AreRows, IsAbove, NestsIn, deepest_value, spelled_entry};

    /// No row.
    pub fn new(alloc: Global) -> Rows
        ensures { result ≡ [] }
    {
        Rows {
            rows: Vec::new(alloc),
        }
    }

    /// Rows that are known to rise.
    pub fn known(rows: Vec<Row>) -> Rows
        requires { AreRows (rows_seen rows.items) }
        ensures { result ≡ rows_seen rows.items }
    {
        Rows { rows }
    }

    /// How many rows there are.
    pub fn len(&self) -> usize
        ensures count { result ≡ length self.now }
        ensures rows { AreRows self.now }
    {
        self.rows.len()
    }

    /// The key of a row and the spelling of its value, or `None` past the last.
    pub fn get(&self, i: usize) -> Option<(&str, &[u8])>
        ensures { option_map (λ r. (r.0.now, r.1.now)) result ≡ option_map spelled_entry (slice_get self.now i) }
    {
        if i < self.rows.len() {
            let row = &self.rows[i];
            Some((row.key.as_str(), row.value.as_slice()))
        } else {
            None
        }
    }

    /// The rows as a borrow.
    pub fn as_slice(&self) -> &[Row]
        ensures same { rows_seen result.now ≡ self.now }
        ensures rows { AreRows self.now }
    {
        &self.rows
    }

    /// Appends a row, whose key is greater than the last one, and whose value leaves room for the node around it.
    pub fn push(&mut self, alloc: Global, key: &str, value: &Node<'_>) -> Result<(), AllocError>
        requires above { IsAbove key.now self.old }
        requires nested { NestsIn deepest_value value.now }
        ensures ok { (t : Data) → HasData value.now t → OnOk result (self.new ≡ self.old ++ (key.now, t) ∷ []) }
        // Nothing is lost: there is one row more.
        ensures more { OnOk result (length self.new ≡ length self.old + 1) }
        ensures err { OnErr result (self.new ≡ self.old) }
    {
        let row = Row {
            key: Txt::of(alloc, key)?,
            value: Spelled::of(alloc, value)?,
        };
        self.rows.push(row)?;
        Ok(())
    }
}
