//! Whole blocks.
ghost use Rattle.std.specs.Prelude.{◌≡◌, None, IsOk, IfOk};
ghost use Rattle.std.specs.Result.{result_err};
ghost use Rattle.ild_data.specs.Data.{Data};
ghost use Rattle.ild_data.specs.Limits.{IsWithin};
ghost use Rattle.ild_cbor.specs.Reading.{Gives, all_at, done_of, fault_of};
ghost use Rattle.ild_cbor.specs.Block.{IsBlockOf};
ghost use Rattle.ild_cbor.specs.Nodes.{IsRoot};

use crate::fault::{CborFault, CborKind, Stop, stop_before};
use crate::item::item;
use crate::node::Node;
use ild_data::LONGEST_BLOCK;

const DEEPEST: u8 = 96;

// Reads one item and nothing behind it, and keeps nothing of it.
#[tactic(auto, unfolding(crate::specs::Reading::all_at))]
fn walk(bytes: &[u8]) -> Result<(), Stop>
    ensures { Gives (λ u. u) result (done_of (all_at bytes.now)) }
{
    let rest = item(DEEPEST, bytes)?;
    if !rest.is_empty() {
        return Err(stop_before(CborKind::Rest, rest));
    }
    Ok(())
}

// The first fault of a block.
#[tactic(auto, unfolding(crate::specs::Reading::fault_of))]
fn fault(bytes: &[u8]) -> Option<CborFault>
    ensures { result ≡ fault_of bytes.now }
{
    if bytes.len() > LONGEST_BLOCK {
        return Some(CborFault {
            kind: CborKind::Size,
            at: LONGEST_BLOCK,
        });
    }
    match walk(bytes) {
        Ok(()) => None,
        Err(stop) => Some(CborFault {
            kind: stop.kind,
            at: bytes.len().saturating_sub(stop.left),
        }),
    }
}

/// The one item of a block of DAG-CBOR, or the first fault from the left.
///
/// A block is the spelling of a tree: in at most 4,194,304 bytes, with at most 96 containers inside one another, every
/// head in its shortest form and the keys of every map in their order.
pub fn check(bytes: &[u8]) -> Result<Node<'_>, CborFault>
    // What is accepted is the spelling of a tree, and the node stands for it.
    ensures found { IfOk result (λ n. (d : Data) × IsBlockOf bytes.now d × IsRoot n bytes.now d) }
    // The spelling of a tree is accepted, and the node stands for that tree.
    ensures only { (d : Data) → IsBlockOf bytes.now d → IsOk result × IfOk result (λ n. IsRoot n bytes.now d) }
    // Where a block is refused, and where one is not.
    ensures fault { result_err result ≡ fault_of bytes.now }
{
    match fault(bytes) {
        Some(fault) => Err(fault),
        None => Ok(Node {
            block: bytes,
            from: 0,
            to: bytes.len(),
        }),
    }
}

/// The one item of a block that was checked before, without work.
pub fn known_root(bytes: &[u8]) -> Node<'_>
    requires { fault_of bytes.now ≡ None }
    ensures { (d : Data) → IsBlockOf bytes.now d → IsRoot result bytes.now d }
{
    Node {
        block: bytes,
        from: 0,
        to: bytes.len(),
    }
}
