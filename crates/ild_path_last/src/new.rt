//! The new part, as far as it tells what is written.
ghost use Rattle.std.specs.Prelude.{◌≡◌, Option, is_some};
ghost use Rattle.ild_cbor.specs.Nodes.{HasData};
ghost use Rattle.ild_data.specs.Data.{Data};
ghost use Rattle.ild_path_last.specs.Change.{NewIs};
ghost use Rattle.ild_path_changes.specs.Places.{left_out, written};

use ild_cbor::{Node, Piece};
use ild_layer_fields::is_implicit;
use ild_schema::Field;

/// Whether there is a new part.
pub(crate) fn is_there(new: Option<Node<'_>>) -> bool
    ensures { (d : Option Data) → NewIs new.entry d → result ≡ is_some d }
{
    match new {
        Some(_) => true,
        None => false,
    }
}

/// Whether the new part is written in a block, as a field.
pub(crate) fn is_written(field: &Field, new: Option<Node<'_>>) -> bool
    ensures { (d : Option Data) → NewIs new.entry d → result ≡ is_some (written left_out field.now d) }
{
    match new {
        Some(node) => !is_implicit(field, &Piece::Node(node)),
        None => false,
    }
}
