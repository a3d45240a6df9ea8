//! A session that looks across links.
use ild_run_document::Document;
use ild_view_doc::Doc;
use std::alloc::Global;

/// A document, whose value lines read and edit, along paths that go on behind typed links (IPLD Schemas, "Links").
#[derive(Drop)]
pub struct LinkedDocument<'s> {
    pub(crate) inner: Document<'s>,
}

impl<'s> LinkedDocument<'s> {
    ghost use Rattle.std.specs.Prelude.{◌≡◌, [], None};
    ghost use Rattle.ild_links_session.specs.Linked.{inner_in};
    ghost use Rattle.ild_run_document.specs.Document.{begun_in, doc_in, own_in};

    /// A session over a document, outside any batch.
    pub fn of(alloc: Global, doc: Doc<'s>) -> LinkedDocument<'s>
        ensures doc { doc_in (inner_in result) ≡ doc.entry }
        ensures begun { begun_in (inner_in result) ≡ None }
        ensures own { own_in (inner_in result) ≡ [] }
    {
        LinkedDocument {
            inner: Document::of(alloc, doc),
        }
    }
}
