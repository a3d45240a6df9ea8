//! Trees over a store, of which the first is open.
ghost use Rattle.std.specs.Prelude.{◌≡◌};
ghost use Rattle.ild_run_links.specs.Moments.{HoldsBlock, HoldsValue};

use crate::fault::{of_open, told};
use crate::relinking::relink_tree;
use crate::stopping::stop_in;
use ild_data::{BlockId, KeyHash, Path};
use ild_edges::Store;
use ild_links::{Hop, Linked, Stop, TreeErr};
use ild_open::open_root;
use ild_schema::TypeNo;
use ild_view_doc::Doc;
use std::alloc::Global;

/// Trees over a store, each the value of a type under a bare root. The first is that of an open document. Where the store tells what it
/// holds, it holds the document's block, and a value stands under its id. A tree that isn't there is counted.
#[derive(Drop)]
pub struct LinkedDocs<'d, 's, K: Store, H: KeyHash> {
    alloc: Global,
    doc: &'d Doc<'s>,
    keys: &'d H,
    store: &'d mut K,
    lacks: u64,
    ghost held: { HoldsBlock doc.now (K.moment store.now) },
    ghost stands: { HoldsValue H.hash_of doc.now (K.moment store.now) },
}

impl<'d, 's, K: Store, H: KeyHash> LinkedDocs<'d, 's, K, H> {
    /// The trees over a store whose first is the document's.
    pub fn over(
        alloc: Global,
        doc: &'d Doc<'s>,
        keys: &'d H,
        store: &'d mut K,
    ) -> LinkedDocs<'d, 's, K, H>
        requires held { HoldsBlock doc.now (K.moment store.old) }
        requires stands { HoldsValue H.hash_of doc.now (K.moment store.old) }
        ensures same_doc { result.doc.now ≡ doc.now }
        ensures same_store { (result.store.ghost_name ≡ store.entry.ghost_name) × (result.store.now ≡ store.old) }
        ensures counts { result.lacks ≡ 0 }
    {
        LinkedDocs {
            alloc,
            doc,
            keys,
            store,
            lacks: 0,
        }
    }
}

impl<'d, 's, K: Store, H: KeyHash> Linked for LinkedDocs<'d, 's, K, H> {
    ghost use Rattle.ild_data.specs.Spell.{id_of};
    ghost use Rattle.ild_run_links.specs.Moments.{with_lacks};
    ghost use Rattle.ild_run_links.specs.Trees.{Over, Storable, trees};
    ghost use Rattle.ild_schema.specs.Value.{Value as Typed};
    ghost use Rattle.ild_view_doc.specs.Docs.{block_in, table_in, type_in};

    ghost Value = { Typed };

    ghost Setting = { Over };

    ghost setting = { λ t. record { reading = record { hash = H.hash_of; rows = table_in t.doc.now; ty = type_in t.doc.now; id = id_of (block_in t.doc.now) }; store = t.store.ghost_name } };

    ghost meaning = { λ o. trees o.reading };

    ghost storable = { λ o. Storable o.reading };

    ghost moment = { λ t. with_lacks (K.moment t.store.now) t.lacks };

    fn stop(
        &mut self,
        first: bool,
        ty: TypeNo,
        id: &BlockId,
        path: &Path,
        from: usize,
    ) -> Result<(Stop, usize), TreeErr> {
        if first {
            return match stop_in(self.alloc, self.doc, path, from, self.keys, self.store) {
                Ok(stop) => Ok(stop),
                Err(fault) => Err(told(fault, id, &mut self.lacks)),
            };
        }
        match open_root(self.alloc, self.doc.schema(), ty, id, self.keys, self.store) {
            Ok(doc) => match stop_in(self.alloc, &doc, path, from, self.keys, self.store) {
                Ok(stop) => Ok(stop),
                Err(fault) => Err(told(fault, id, &mut self.lacks)),
            },
            Err(fault) => Err(told(of_open(&fault), id, &mut self.lacks)),
        }
    }

    fn relink(&mut self, hop: &Hop, path: &Path, new: &BlockId) -> Result<BlockId, TreeErr> {
        self.doc.schema().recall();
        match relink_tree(self.alloc, self.doc, hop, path, new, self.keys, self.store) {
            Ok(root) => Ok(root),
            Err(fault) => Err(told(fault, &hop.id, &mut self.lacks)),
        }
    }
}
