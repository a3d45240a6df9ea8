//! The begin of a batch.
ghost use Rattle.std.specs.Prelude.{◌≡◌, IfOk};
ghost use Rattle.ild_run_document.specs.Null.{null_text};
ghost use Rattle.ild_view_doc.specs.Docs.{IsSame};

use ild_data::Txt;
use ild_view_doc::Doc;
use std::alloc::{AllocError, Global};

/// The document at the begin of a batch, and the text that the batch's end is answered.
#[derive(Drop)]
pub(crate) struct Begun<'s> {
    pub(crate) doc: Doc<'s>,
    pub(crate) told: Txt,
    ghost is_null: { told ≡ null_text },
}

/// The text `null`.
pub(crate) fn null(alloc: Global) -> Result<Txt, AllocError>
    ensures { IfOk result (λ t. t ≡ null_text) }
{
    Txt::of(alloc, "null")
}

/// Begins a batch: what the begin is answered, and the document as it is.
pub(crate) fn begin<'s>(alloc: Global, doc: &Doc<'s>) -> Result<(Txt, Begun<'s>), AllocError>
    ensures { IfOk result (λ r. (r.0 ≡ null_text) × IsSame doc.now r.1.doc) }
{
    let told = null(alloc)?;
    let begun = Begun {
        doc: doc.copy()?,
        told: null(alloc)?,
    };
    Ok((told, begun))
}
