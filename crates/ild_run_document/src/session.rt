//! The session over a document.
use crate::document::Document;
use crate::lines::answer_line;
use ild_edges::Store;
use ild_script::Reply;
use ild_script_session::Session;
use std::alloc::Global;

impl<'s> Session for Document<'s> {
    ghost use Rattle.std.specs.Prelude.{List};
    ghost use Rattle.ild_schema.specs.Value.{Value as TypedValue};
    ghost use Rattle.ild_schema.specs.declared.number.TypeNo.{TypeNo};
    ghost use Rattle.ild_schema.specs.declared.row.Row.{Row};
    ghost use Rattle.ild_view_doc.specs.Docs.{table_in, type_in};
    ghost use Rattle.ild_run_document.specs.Document.{begun_in, doc_in, own_in};
    ghost use Rattle.ild_run_document.specs.Passes.{Passes};
    ghost use Rattle.ild_run_standing.specs.Standing.{IsAtState, StandsAt};
    ghost use Rattle.ild_script_session.specs.Stands.{OverEach};

    ghost Value = { TypedValue };

    ghost Subject = { List Row × TypeNo };

    ghost subject = { λ d. (table_in (doc_in d), type_in (doc_in d)) };

    ghost ready = { OverEach };

    ghost stands = { λ d m M s. StandsAt (doc_in d) (begun_in d) (own_in d) m M s };

    ghost is_at = { λ d M s. IsAtState (doc_in d) (begun_in d) M s };

    ghost passes = { λ d m line reply n e. Passes d m line reply n e };

    fn answer<K: Store>(&mut self, alloc: Global, line: &[u8], store: &mut K) -> Option<Reply> {
        answer_line(
            alloc,
            &mut self.doc,
            &mut self.begun,
            &mut self.own,
            line,
            store,
        )
    }
}
