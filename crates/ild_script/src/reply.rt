//! What lines are answered.
ghost use Rattle.std.specs.Prelude.{◌≡◌, ◌++◌, ◌∷◌, [], IfOk, option_map};
ghost use Rattle.ild_script.specs.Reply.{no_text, fixed_text, reply_text};

use ild_data::{BlockId, Octets, Txt};
use std::alloc::{AllocError, Global};

/// Why a line is refused.
#[derive(Clone, Copy, Debug, PartialEq, Eq)]
pub enum No {
    /// The line is outside the grammar.
    Line,
    /// The place isn't there, or the command isn't for it.
    Path,
    /// The json text can't be read.
    Json,
    /// The value or the key isn't of the type, or the place can't be deleted.
    Mismatch,
    /// A string form breaks a delimiter rule.
    Delimiter,
    /// An absent tuple field has a present one after it.
    Hole,
    /// The new value nests too deep.
    Depth,
    /// More keys of a HAMT than a bucket takes agree in all bits of their hashes that levels read.
    Exhausted,
    /// A block of the new value is longer than 4,194,304 bytes.
    Size,
    /// What is to be printed holds a map whose only key is `/`.
    Reserved,
    /// A block is missing or isn't of its form.
    Block,
    /// A call of the store failed.
    Store,
    /// Two byte strings have one id.
    Clash,
    /// Memory is wanting.
    Memory,
    /// The command isn't for inside, or outside, a batch.
    Batch,
}

/// What a line is answered: a json text, a root, or a refusal.
#[derive(Drop)]
pub enum Reply {
    Ok(Txt),
    Root(BlockId),
    No(No),
}

/// A refusal's line, with its line feed.
fn no_text(no: No) -> &'static [u8]
    ensures { result.now ≡ no_text no }
{
    match no {
        No::Line => b"no 1 line\n",
        No::Path => b"no 2 path\n",
        No::Json => b"no 3 json\n",
        No::Mismatch => b"no 4 mismatch\n",
        No::Delimiter => b"no 5 delimiter\n",
        No::Hole => b"no 6 hole\n",
        No::Depth => b"no 7 depth\n",
        No::Exhausted => b"no 8 exhausted\n",
        No::Size => b"no 9 size\n",
        No::Reserved => b"no 10 reserved\n",
        No::Block => b"no 11 block\n",
        No::Store => b"no 12 store\n",
        No::Clash => b"no 13 clash\n",
        No::Memory => b"no 14 memory\n",
        No::Batch => b"no 15 batch\n",
    }
}

impl Reply {
    /// The line of a reply that is the same whenever it is given, with its line feed: a refusal's. It takes no memory.
    pub fn fixed(&self) -> Option<&'static [u8]>
        ensures { option_map (λ line. line.now) result ≡ fixed_text self.now }
    {
        match self {
            Reply::No(no) => Some(no_text(*no)),
            _ => None,
        }
    }
}

/// A word, a space, a text and a line feed.
fn worded(alloc: Global, word: &[u8], text: &str) -> Result<Octets, AllocError>
    ensures { IfOk result (λ line. line ≡ word.now ++ (text.now ++ 10 ∷ [])) }
{
    let mut line = Vec::with_capacity(alloc, word.len() + text.len() + 1)?;
    line.extend_from_slice(word)?;
    line.extend_from_slice(text.as_bytes())?;
    line.push(b'\n')?;
    Ok(Octets::from_vec(line))
}

/// The line that is written for a reply, with its line feed.
pub fn reply_text(alloc: Global, reply: &Reply) -> Result<Octets, AllocError>
    ensures { IfOk result (λ text. text ≡ reply_text reply.now) }
{
    match reply {
        Reply::Ok(json) => worded(alloc, b"ok ", json.as_str()),
        Reply::Root(id) => {
            let cid = id.text(alloc)?;
            worded(alloc, b"root ", cid.as_str())
        }
        Reply::No(no) => Octets::of(alloc, no_text(*no)),
    }
}
