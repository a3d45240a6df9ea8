//! From bytes to a tree.
ghost use Rattle.std.specs.Prelude.{◌≡◌, ◌⊎◌, Ok, Err, IfOk, IfErr, IfSome};
ghost use Rattle.ild_data.specs.Seen.{data_of};
ghost use Rattle.ild_json.specs.Reading.{json_read};
ghost use Rattle.ild_json.specs.Law.{MeansTree};

use crate::walk::tree_of;
use crate::{JsonErr, document};
use ild_data::Tree;
use json::{Reader, Scratch};
use serde_json::Value;
use std::alloc::Global;
use std::str;

/// How deep arrays and objects may nest.
const MAX_DEPTH: usize = 127;

/// The tree that bytes mean, or `None` where something is at fault or memory is wanting.
fn read_sound(alloc: Global, bytes: &[u8]) -> Option<Tree>
    ensures { IfSome result (λ t. json_read bytes.now ≡ Ok (data_of t)) }
{
    let Ok(text) = str::from_utf8(bytes) else {
        return None;
    };
    let mut scratch = Scratch::new(alloc);
    let Ok(mut reader) = Reader::new(text, &mut scratch) else {
        return None;
    };
    let Ok(value) = json::Value::read(alloc, &mut reader, MAX_DEPTH) else {
        return None;
    };
    match reader.next() {
        None => document::tree_of(alloc, value),
        Some(_) => None,
    }
}

/// The tree that bytes mean, or the first fault, by a walk that takes objects bytewise by key.
fn read_slowly(alloc: Global, bytes: &[u8]) -> Result<Tree, JsonErr>
    ensures ok { IfOk result (λ t. json_read bytes.now ≡ Ok (data_of t)) }
    ensures err { IfErr result (λ e. (e ≡ JsonErr.Memory) ⊎ (json_read bytes.now ≡ Err e)) }
{
    match Value::from_slice(alloc, bytes) {
        Ok(value) => tree_of(alloc, value),
        Err(e) if e.is_memory() => Err(JsonErr::Memory),
        Err(_) => Err(JsonErr::Syntax),
    }
}

/// The tree that bytes mean, or the first fault.
fn read_tree(alloc: Global, bytes: &[u8]) -> Result<Tree, JsonErr>
    ensures ok { IfOk result (λ t. json_read bytes.now ≡ Ok (data_of t)) }
    ensures err { IfErr result (λ e. (e ≡ JsonErr.Memory) ⊎ (json_read bytes.now ≡ Err e)) }
{
    match read_sound(alloc, bytes) {
        Some(tree) => Ok(tree),
        None => read_slowly(alloc, bytes),
    }
}

/// The tree that bytes are as DAG-JSON, or the first fault.
pub fn read(alloc: Global, bytes: &[u8]) -> Result<Tree, JsonErr>
    ensures ok { IfOk result (λ t. json_read bytes.now ≡ Ok (data_of t)) }
    ensures err { IfErr result (λ e. (e ≡ JsonErr.Memory) ⊎ (json_read bytes.now ≡ Err e)) }
    // Where memory wasn't wanting, what the bytes mean is a tree.
    ensures tree { (result ≡ Err JsonErr.Memory) ⊎ MeansTree bytes.now }
{
    match read_tree(alloc, bytes) {
        Ok(tree) => {
            tree.well_formed();
            Ok(tree)
        }
        Err(e) => Err(e),
    }
}
