//! A line that is run on a root.
ghost use Rattle.std.specs.Prelude.{◌≡◌, ◌≢◌, ◌<◌, length};
ghost use Rattle.ild_data.specs.Spell.{id_of};
ghost use Rattle.ild_script.specs.Line.{reads};
ghost use Rattle.ild_script.specs.declared.word.Word.TheVariants as W;
ghost use Rattle.ild_script_meaning.specs.Ask.{asked, asked_by};
ghost use Rattle.ild_run_work.specs.Rules.{rules_of};
ghost use Rattle.ild_run_work.specs.Runs.{Runs};

use crate::finding::{find, found_refusal};
use ild_data::BlockId;
use ild_edges::Store;
use ild_run_answers::ask;
use ild_run_standing::{held_are_standing, standing_are_at, still_replies};
use ild_schema::{Accepted, TypeNo};
use ild_script::{Line, LineErr, No, Reply, Word, line_of};
use std::alloc::Global;

/// Runs a line that reads or edits the value: the document of the block under the root is opened, and it is asked.
fn ask_there<K: Store>(
    alloc: Global,
    acc: &Accepted,
    ty: TypeNo,
    root: &BlockId,
    line: &Line,
    json: &[u8],
    store: &mut K,
) -> (BlockId, Reply)
    requires within { ty.0 < length acc.now }
    requires root { line.now.verb ≢ W.Root }
    requires begin { line.now.verb ≢ W.Begin }
    requires commit { line.now.verb ≢ W.Commit }
    requires abort { line.now.verb ≢ W.Abort }
    ensures { Runs (rules_of acc.now ty) (asked_by line.now.verb line.now.path json.now) (K.moment store.old) root.now.0 result.0.0 result.1 (K.moment store.new) }
{
    // They do no work: their clauses say where a document stands, and what a refusal leaves.
    standing_are_at();
    held_are_standing();
    still_replies();
    acc.recall();
    let mut doc = match find(alloc, acc, ty, root, store) {
        Ok(doc) => doc,
        Err(fault) => return (*root, Reply::No(found_refusal(fault))),
    };
    match ask(alloc, &mut doc, line, json, store) {
        Some(reply) => (doc.root(), reply),
        None => unreachable!(),
    }
}

/// Does what a line that was read asks for. One that tells the root needs no block.
fn obey<K: Store>(
    alloc: Global,
    acc: &Accepted,
    ty: TypeNo,
    root: &BlockId,
    line: &Line,
    json: &[u8],
    store: &mut K,
) -> (BlockId, Reply)
    requires { ty.0 < length acc.now }
    ensures { Runs (rules_of acc.now ty) (asked_by line.now.verb line.now.path json.now) (K.moment store.old) root.now.0 result.0.0 result.1 (K.moment store.new) }
{
    still_replies();
    match line.verb {
        Word::Root => (*root, Reply::Root(*root)),
        Word::Begin => (*root, Reply::No(No::Line)),
        Word::Commit => (*root, Reply::No(No::Line)),
        Word::Abort => (*root, Reply::No(No::Line)),
        _ => ask_there(alloc, acc, ty, root, line, json, store),
    }
}

/// Runs a line on a root: the root to which it leads, and the reply.
pub(crate) fn run_line<K: Store>(
    alloc: Global,
    acc: &Accepted,
    ty: TypeNo,
    root: &BlockId,
    line: &[u8],
    store: &mut K,
) -> (BlockId, Reply)
    requires { ty.0 < length acc.now }
    ensures { Runs (rules_of acc.now ty) (asked (reads line.now)) (K.moment store.old) root.now.0 result.0.0 result.1 (K.moment store.new) }
{
    still_replies();
    match line_of(alloc, line) {
        Ok(Some(read)) => {
            let json = &line[read.json_at..];
            obey(alloc, acc, ty, root, &read, json, store)
        }
        Ok(None) => (*root, Reply::No(No::Line)),
        Err(LineErr::Line) => (*root, Reply::No(No::Line)),
        Err(LineErr::Memory) => (*root, Reply::No(No::Memory)),
    }
}
