//! The block of an edit.
ghost use Rattle.std.specs.Prelude.{◌<◌, ℕ, Bool, List, length};
ghost use Rattle.ild_path_edit.specs.inside.Items.{MakesWhole};
ghost use Rattle.ild_path_edit.specs.Made.{MakesBlock};
ghost use Rattle.ild_data.specs.Data.{Data};
ghost use Rattle.ild_data.specs.Spell.{spell};
ghost use Rattle.ild_path_block.specs.Edits.{EditsPart};
ghost use Rattle.ild_schema.specs.Value.{Value};

use crate::item::item_at;
use ild_data::{Octets, Path};
use ild_path_block::{PartEdit, Replaced, Spliced, spliced};
use ild_splice::SpliceErr;
use ild_view::View;
use std::alloc::Global;

// The block with the item of what a holder becomes in the place of its own.
fn with_holder<'a>(
    alloc: Global,
    root: &View<'a>,
    path: &'a Path,
    edit: &PartEdit<'_>,
    holder: &Replaced<'_>,
) -> Result<Octets, SpliceErr>
    requires { 0 < length path.now }
    ensures { MakesWhole root.now path.now edit.now holder.now result }
{
    root.schema().recall();
    let item = item_at(alloc, root, path, edit, holder.holder)?;
    holder.block_with(alloc, item.as_slice())
}

/// The block of what an edit of the part at a path makes of the value of a root view.
///
/// Where a holder on the path stands as a whole, as the text of its parts or as a member with its mark, its item is made anew, from
/// that of the last holder outwards.
pub fn block_of_edit<'a>(
    alloc: Global,
    root: &View<'a>,
    path: &'a Path,
    edit: &PartEdit<'_>,
) -> Result<Octets, SpliceErr>
    ensures { (is_key : ℕ → List ℕ → Bool) (f w c : Value) (t u : Data) → EditsPart is_key root.now path.now edit.now f w c t u → MakesBlock (spell u) result }
{
    match spliced(alloc, root, path, edit)? {
        Some(Spliced::Block(block)) => Ok(block),
        Some(Spliced::Holder(holder)) => with_holder(alloc, root, path, edit, &holder),
        None => Err(SpliceErr::Memory),
    }
}
