//! The holders on a path.
ghost use Rattle.std.specs.List.{AllByRecursion};
ghost use Rattle.std.specs.Prelude.{◌≡◌, IfOk, IsUtf8};
ghost use Rattle.ild_path_edit.specs.Holders.{AreHolders};
ghost use Rattle.ild_schema.specs.Value.{Value};
ghost use Rattle.ild_view.specs.View.{IsView, slot_of, table_of};

use ild_data::Path;
use ild_view::View;
use std::alloc::{AllocError, Global};

/// The views of the holders on a path, from the root to the last, as far as the path leads to some.
pub fn holders<'a>(alloc: Global, root: &View<'a>, path: &Path) -> Result<Vec<View<'a>>, AllocError>
    ensures { (f : Value) → IsView root.now f → IfOk result (λ views. AreHolders (table_of root.now) (slot_of root.now, f) path.now views.items) }
{
    let segments = path.as_slice();
    let mut views = Vec::new(alloc);
    let mut view = *root;
    let mut k = 0;
    while k < segments.len() {
        views.push(view)?;
        let Some(part) = view.part(segments[k].as_str()) else {
            return Ok(views);
        };
        view = part;
        k += 1;
    }
    Ok(views)
}

/// Each segment of a path is a text. The call does no work.
pub fn are_texts(path: &Path)
    ensures { AllByRecursion IsUtf8 path.now }
{
    let segments = path.as_slice();
    let mut k = 0;
    while k < segments.len() {
        let _text = segments[k].as_str();
        k += 1;
    }
}
