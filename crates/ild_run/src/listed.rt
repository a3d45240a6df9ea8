//! The names that a schema declares, as one JSON list.
ghost use Rattle.std.specs.Prelude.{◌≡◌, map, IfOk, IfSome, Some};
ghost use Rattle.ild_data.specs.Data.{text};
ghost use Rattle.ild_data.specs.Seen.{data_of};
ghost use Rattle.ild_json.specs.Printing.{json_text};
ghost use Rattle.ild_run.specs.Listed.{names_data};

use ild_data::{Tree, Trees, Txt};
use ild_json::print;
use std::alloc::{AllocError, Global};

/// The texts as trees.
fn trees_of(alloc: Global, names: &[Txt]) -> Result<Vec<Tree>, AllocError>
    ensures { IfOk result (λ trees. map data_of trees.items ≡ map text names.now) }
{
    let mut trees = Vec::new(alloc);
    for name in names {
        trees.push(Tree::Text(name.copy()?))?;
    }
    Ok(trees)
}

/// The names as a tree: the list of their texts.
fn tree_of(alloc: Global, names: &[Txt]) -> Result<Tree, AllocError>
    ensures { IfOk result (λ tree. data_of tree ≡ names_data names.now) }
{
    let trees = trees_of(alloc, names)?;
    Ok(Tree::List(Trees::from_vec(trees)))
}

/// The JSON text of the list of names, or `None` where memory is wanting: a list of texts can always be written.
pub fn names_json(alloc: Global, names: &[Txt]) -> Option<Txt>
    ensures { IfSome result (λ json. json_text (names_data names.now) ≡ Some json) }
{
    let tree = tree_of(alloc, names).ok()?;
    print(alloc, &tree).ok()
}
