//! The entries of a document's map, read back from its root.
ghost use Rattle.std.specs.Prelude.{◌≡◌};
ghost use Rattle.ild_run_generate.specs.inside.Counting.{CountsEntries, Lacks, count_in};
ghost use Rattle.ild_schema.specs.ValueSeen.{value_of};

use crate::fault::GenerateFault;
use ild_cbor::BlockWhy;
use ild_data::Sha256Keys;
use ild_edges::Store;
use ild_open::{OpenFault, open_value};
use ild_run_standing::held_are_standing;
use ild_schema::Val;
use ild_typed::{bare_roots_are_frames, one_stands};
use ild_view_doc::Doc;
use std::alloc::Global;

/// How many entries a map has.
fn count_in(val: &Val) -> u64
    ensures { result ≡ count_in (value_of val.now) }
{
    match val {
        Val::Map(pairs) => pairs.len() as u64,
        _ => 0,
    }
}

/// How many entries the map has at which a document stands.
pub(crate) fn count_entries<K: Store>(
    alloc: Global,
    doc: &Doc<'_>,
    store: &mut K,
) -> Result<u64, GenerateFault>
    ensures { CountsEntries doc.now (K.moment store.old) result (K.moment store.new) }
{
    // They do no work: their clauses say that one value stands under the root.
    held_are_standing();
    bare_roots_are_frames();
    one_stands();
    doc.schema().recall();
    match open_value(
        alloc,
        doc.schema(),
        doc.ty(),
        &doc.root(),
        &Sha256Keys,
        store,
    ) {
        Ok(opened) => Ok(count_in(&opened.1)),
        Err(OpenFault::Block { id, why }) => Err(GenerateFault::Block { id, why }),
        Err(OpenFault::Store) => Err(GenerateFault::Store),
        Err(OpenFault::Memory) => Err(GenerateFault::Memory),
    }
}

/// The block that is lacking, where an edit met one: that which an opening of the document's root meets, or the root, where it meets none
/// any more.
pub(crate) fn lacking<K: Store>(alloc: Global, doc: &Doc<'_>, store: &mut K) -> GenerateFault
    ensures { Lacks doc.now (K.moment store.old) result (K.moment store.new) }
{
    match count_entries(alloc, doc, store) {
        Ok(_) => GenerateFault::Block {
            id: doc.root(),
            why: BlockWhy::Missing,
        },
        Err(fault) => fault,
    }
}
