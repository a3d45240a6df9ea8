//! The document of a session.
ghost use Rattle.ild_run_document.specs.Turns.{AreAlike};
ghost use Rattle.ild_run_document.specs.Begins.{doc_of};

use crate::begun::Begun;
use crate::lines::obey;
use ild_dirty::OwnBlocks;
use ild_edges::Store;
use ild_script::{Line, Reply};
use ild_view_doc::Doc;
use std::alloc::Global;
use std::mem;

/// A document, whose value lines read and edit. It stands at the value whose root block it is. Inside a batch it has the document at the
/// batch's begin, and the batch's own blocks.
#[derive(Drop)]
pub struct Document<'s> {
    pub(crate) doc: Doc<'s>,
    pub(crate) begun: Option<Begun<'s>>,
    pub(crate) own: OwnBlocks,
    ghost alike: { ∥ AreAlike doc (doc_of begun) ∥₁ },
}

impl<'s> Document<'s> {
    ghost use Rattle.std.specs.Prelude.{◌≡◌, [], None, Some, is_some};
    ghost use Rattle.ild_data.specs.Spell.{id_of};
    ghost use Rattle.ild_run_document.specs.Document.{begun_in, doc_in, own_in};
    ghost use Rattle.ild_run_document.specs.Turns.{Turns};
    ghost use Rattle.ild_script_meaning.specs.Ask.{asked_by};

    /// A session over a document, outside any batch.
    pub fn of(alloc: Global, doc: Doc<'s>) -> Document<'s>
        ensures doc { doc_in result ≡ doc.entry }
        ensures begun { begun_in result ≡ None }
        ensures own { own_in result ≡ [] }
    {
        Document {
            doc,
            begun: None,
            own: OwnBlocks::new(alloc),
        }
    }

    /// The document.
    pub fn doc(&self) -> &Doc<'s>
        ensures { result.now ≡ doc_in self.now }
    {
        &self.doc
    }

    /// Whether a batch is open.
    pub fn in_batch(&self) -> bool
        ensures { result ≡ is_some (begun_in self.now) }
    {
        self.begun.is_some()
    }

    /// Takes the batch's own blocks out, for a batch over a store; [`give_own`](Self::give_own) puts them back.
    pub fn take_own(&mut self, alloc: Global) -> OwnBlocks
        ensures taken { result ≡ own_in self.old }
        ensures same { (doc_in self.new ≡ doc_in self.old) × (begun_in self.new ≡ begun_in self.old) }
    {
        mem::replace(&mut self.own, OwnBlocks::new(alloc))
    }

    /// The batch has these blocks of its own.
    pub fn give_own(&mut self, own: OwnBlocks)
        ensures given { own_in self.new ≡ own }
        ensures same { (doc_in self.new ≡ doc_in self.old) × (begun_in self.new ≡ begun_in self.old) }
    {
        self.own = own;
    }

    /// Goes on with another document, outside any batch.
    pub fn replace(&mut self, doc: Doc<'s>)
        requires { begun_in self.old ≡ None }
        ensures doc { doc_in self.new ≡ doc.entry }
        ensures same { (begun_in self.new ≡ None) × (own_in self.new ≡ own_in self.old) }
    {
        self.doc = doc;
    }

    /// Does what a line that was read asks for.
    pub fn obey<K: Store>(
        &mut self,
        alloc: Global,
        line: &Line,
        json: &[u8],
        store: &mut K,
    ) -> Reply
        ensures { Turns id_of (doc_in self.old) (doc_in self.new) (begun_in self.old) (begun_in self.new) (own_in self.old) (own_in self.new)
            (asked_by line.now.verb line.now.path json.now) (K.moment store.old) (Some result) (K.moment store.new) }
    {
        obey(
            alloc,
            &mut self.doc,
            &mut self.begun,
            &mut self.own,
            line,
            json,
            store,
        )
    }
}
