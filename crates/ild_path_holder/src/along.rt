//! The steps along a path.
ghost use Rattle.std.specs.Prelude.{Some};
ghost use Rattle.ild_path_holder.specs.Viewed.{FindsLast, FindsSteps};

use crate::part::part_steps;
use ild_data::Path;
use ild_path_steps::PartSteps;
use ild_view::View;
use std::alloc::{AllocError, Global};

/// The last holder of a path: the one in which its last segment is sought.
#[derive(Drop)]
pub struct LastHolder<'a> {
    /// The steps to it from the root: from each holder to that of the next segment.
    pub steps: Vec<PartSteps<'a>>,
    /// Its view.
    pub view: View<'a>,
}

/// The last holder of a path, with the steps to it. There is one where the path leads to a holder.
pub fn last_holder<'a>(
    alloc: Global,
    root: &View<'a>,
    path: &'a Path,
) -> Result<Option<LastHolder<'a>>, AllocError>
    ensures { FindsLast root.now path.now result }
{
    root.schema().recall();
    let segments = path.as_slice();
    let mut steps = Vec::new(alloc);
    let mut view = *root;
    let mut k = 1;
    while k < segments.len() {
        let segment = segments[k - 1].as_str();
        let Some(part) = view.part(segment) else {
            return Ok(None);
        };
        let Some(next) = part_steps(&view, segment) else {
            return Ok(None);
        };
        steps.push(next)?;
        view = part;
        k += 1;
    }
    Ok(Some(LastHolder { steps, view }))
}

/// The steps along a path, from each holder to that of the next segment: none from the last holder. There are some where the path
/// leads to a holder.
pub fn steps_along<'a>(
    alloc: Global,
    root: &View<'a>,
    path: &'a Path,
) -> Result<Option<Vec<PartSteps<'a>>>, AllocError>
    ensures { FindsSteps root.now path.now result }
{
    match last_holder(alloc, root, path)? {
        Some(last) => Ok(Some(last.steps)),
        None => Ok(None),
    }
}
