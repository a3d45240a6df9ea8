//! The objects of the reserved namespace (DAG-JSON, "Reserved namespace"): one member under `/`.
ghost use Rattle.std.specs.Prelude.{◌≡◌, ◌⊎◌, option_map, Ok, Err, IfOk, IfErr};
ghost use Rattle.serde_json.specs.View.{view, members_view};
ghost use Rattle.ild_data.specs.Seen.{data_of};
ghost use Rattle.ild_json.specs.Slash.{only_member};
ghost use Rattle.ild_json.specs.Reading.{link_read, bytes_read, reserved_read};

use crate::JsonErr;
use base64::engine::general_purpose::STANDARD_NO_PAD;
use ild_data::{Octets, Tree, cid_of_text};
use serde_json::{Map, Value};
use std::alloc::Global;

/// The key under which links and bytes stand.
pub const SLASH: &str = "/";
/// The key under which the text of bytes stands.
pub const BYTES: &str = "bytes";

/// The value of the only member of an object, where it has this key.
pub fn only_member<'v>(members: &'v Map<String, Value>, key: &str) -> Option<&'v Value>
    ensures { option_map (λ v. view v.now) result ≡ only_member key.now (members_view members.now.entries) }
{
    if members.len() == 1 {
        members.get(key)
    } else {
        None
    }
}

/// What an object with the only key `/` means, by the value under it.
pub fn reserved(alloc: Global, value: &Value) -> Result<Tree, JsonErr>
    ensures ok { IfOk result (λ t. reserved_read (view value.now) ≡ Ok (data_of t)) }
    ensures err { IfErr result (λ e. (e ≡ JsonErr.Memory) ⊎ (reserved_read (view value.now) ≡ Err e)) }
{
    match value {
        Value::String(text) => link(alloc, text.as_str()),
        Value::Object(members) => match only_member(members, BYTES).and_then(Value::as_str) {
            Some(text) => bytes(alloc, text),
            None => Err(JsonErr::Reserved),
        },
        _ => Err(JsonErr::Reserved),
    }
}

/// The link that the text of a CID means.
#[tactic(auto, using(crate::proofs::Slashes::link_refused), unfolding(crate::specs::Reading::link_read))]
pub fn link(alloc: Global, text: &str) -> Result<Tree, JsonErr>
    ensures ok { IfOk result (λ t. link_read text.now ≡ Ok (data_of t)) }
    ensures err { IfErr result (λ e. (e ≡ JsonErr.Memory) ⊎ (link_read text.now ≡ Err e)) }
{
    Ok(Tree::Link(cid_of_text(alloc, text)?))
}

/// The bytes that a text in base64 means.
#[tactic(auto, using(crate::proofs::Slashes::bytes_refused), unfolding(crate::specs::Reading::bytes_read))]
pub fn bytes(alloc: Global, text: &str) -> Result<Tree, JsonErr>
    ensures ok { IfOk result (λ t. bytes_read text.now ≡ Ok (data_of t)) }
    ensures err { IfErr result (λ e. (e ≡ JsonErr.Memory) ⊎ (bytes_read text.now ≡ Err e)) }
{
    let bytes = STANDARD_NO_PAD.decode(alloc, text.as_bytes())?;
    Ok(Tree::Bytes(Octets::from_vec(bytes)))
}
