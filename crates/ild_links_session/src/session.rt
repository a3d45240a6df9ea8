//! The session that looks across links.
use crate::linked::LinkedDocument;
use crate::obeying::obey_linked;
use ild_edges::Store;
use ild_script::{LineErr, No, Reply, line_of};
use ild_script_batch::stages_stay;
use ild_script_session::Session;
use std::alloc::Global;

// A meaning gives each line a due by a function of what is held. That of a line that looks behind links goes by the walk of its path: whether a
// value stands for a tree can't be told by a function of what is held. So the session stands at no stage of any meaning; what lines mean from
// where it stands is said by `passes`. Its state is that of the session in the first tree, which a refusal leaves.
impl<'s> Session for LinkedDocument<'s> {
    ghost use Rattle.std.specs.Prelude.{List};
    ghost use Rattle.ild_links_session.specs.Linked.{inner_in};
    ghost use Rattle.ild_links_session.specs.Passes.{PassesLinked};
    ghost use Rattle.ild_links_session.specs.Ready.{IsReady};
    ghost use Rattle.ild_run_document.specs.Document.{begun_in, doc_in};
    ghost use Rattle.ild_run_standing.specs.Standing.{IsAtState};
    ghost use Rattle.ild_schema.specs.Value.{Value as TypedValue};
    ghost use Rattle.ild_schema.specs.declared.number.TypeNo.{TypeNo};
    ghost use Rattle.ild_schema.specs.declared.row.Row.{Row};
    ghost use Rattle.ild_view_doc.specs.Docs.{table_in, type_in};

    ghost Value = { TypedValue };

    ghost Subject = { List Row × TypeNo };

    ghost subject = { λ d. (table_in (doc_in (inner_in d)), type_in (doc_in (inner_in d))) };

    ghost ready = { λ d m. IsReady (inner_in d) m };

    ghost stands = { λ d m M s. ⊥ };

    ghost is_at = { λ d M s. IsAtState (doc_in (inner_in d)) (begun_in (inner_in d)) M s };

    ghost passes = { λ d m line reply n e. PassesLinked (inner_in d) m line reply n (inner_in e) };

    fn answer<K: Store>(&mut self, alloc: Global, line: &[u8], store: &mut K) -> Option<Reply> {
        // It does no work: its clause says what a line is that leaves the session.
        stages_stay();
        match line_of(alloc, line) {
            Ok(None) => None,
            Ok(Some(read)) => {
                let json = &line[read.json_at..];
                Some(obey_linked(alloc, &mut self.inner, &read, json, store))
            }
            Err(LineErr::Line) => Some(Reply::No(No::Line)),
            Err(LineErr::Memory) => Some(Reply::No(No::Memory)),
        }
    }
}
