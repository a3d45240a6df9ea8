//! From a tree to its text.
ghost use Rattle.std.specs.Prelude.{◌≡◌, ◌≤◌, [], Some, None, Ok, IfOk, IfErr, IsUtf8, string_bytes};
ghost use Rattle.ild_data.specs.Limits.{deepest};
ghost use Rattle.ild_data.specs.Seen.{data_of, depth_of};
ghost use Rattle.json.specs.Lex.{tokens};
ghost use Rattle.json.specs.Print.{print};
ghost use Rattle.serde_json.specs.Data.{depth};
ghost use Rattle.serde_json.specs.Read.{max_depth};
ghost use Rattle.ild_json.specs.Printing.{json_of, json_text};
ghost use Rattle.ild_json.specs.Reading.{json_read};

use crate::PrintErr;
use crate::show::write;
use ild_data::{Tree, Txt};
use json::Writer;
use std::alloc::Global;

/// The DAG-JSON text of a tree, without white space and with keys that rise bytewise.
pub fn print(alloc: Global, tree: &Tree) -> Result<Txt, PrintErr>
    ensures ok { IfOk result (λ t. json_text (data_of tree.now) ≡ Some t) }
    ensures back { IfOk result (λ t. depth (json_of (data_of tree.now)) ≤ max_depth → json_read t ≡ Ok (data_of tree.now)) }
    ensures block { IfOk result (λ t. depth_of tree.now ≤ deepest → json_read t ≡ Ok (data_of tree.now)) }
    ensures reserved { IfErr result (λ e. e ≡ PrintErr.Reserved → json_text (data_of tree.now) ≡ None) }
{
    tree.well_formed();
    let mut out = Writer::new(Vec::with_capacity(alloc, 128)?);
    write(alloc, tree, &mut out)?;
    let text = text_of(out);
    Ok(Txt::from_string(text))
}

/// What was written, as a text.
fn text_of(out: Writer) -> String
    requires { out.before ≡ [] }
    ensures text { string_bytes result ≡ print out.tokens }
    ensures utf8 { IsUtf8 (string_bytes result) }
    ensures reads_back { tokens (string_bytes result) ≡ out.tokens }
{
    let bytes = out.into_inner();
    unsafe { String::from_utf8_unchecked(bytes) }
}
