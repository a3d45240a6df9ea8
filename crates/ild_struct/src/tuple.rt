//! Structs as tuples.
ghost use Rattle.std.specs.List.{list_any};
ghost use Rattle.std.specs.Prelude.{◌≡◌, ◌≤◌, List, IfOk, length, not};
ghost use Rattle.ild_data.specs.Data.{Data};
ghost use Rattle.ild_layer_piece.specs.Pieces.{StandsFor};
ghost use Rattle.ild_schema.specs.declared.row.Row.{Row};
ghost use Rattle.ild_schema.specs.declared.def.StructForm.TheVariants as S;
ghost use Rattle.ild_typed.specs.Named.{items_in};
ghost use Rattle.ild_typed.specs.StructWhy.{misses_items};
ghost use Rattle.ild_struct.specs.inside.Reading.{FormIsRead, IsList};
ghost use Rattle.ild_struct.specs.Source.{IsSourced};

use crate::source::Source;
use ild_cbor::{Kind, Node, Piece, Why};
use ild_schema::Field;

// The node of a list, and how many items it has, or `None` where the data are no list.
fn list<'b>(piece: &Piece<'b>) -> Option<(Node<'b>, u64)>
    ensures { (rows : List Row) (t : Data) → StandsFor rows piece.now t → IsList (items_in t) t result }
{
    match piece {
        Piece::Node(node) => {
            if node.kind() != Kind::List {
                return None;
            }
            Some((*node, node.count()?))
        }
        Piece::Text(_) | Piece::Bytes(_) | Piece::Inline(_, _) => None,
    }
}

// Whether one of these fields must be there.
fn needs_one(fields: &[Field]) -> bool
    ensures { result ≡ list_any (λ f. not f.optional) fields.now }
{
    fields.iter().any(|field| !field.optional)
}

// Whether so many items are more than the fields, or a field behind the last of them must be there.
fn misses(fields: &[Field], count: u64) -> bool
    requires { length fields.now ≤ 1024 }
    ensures { (ds : List Data) → count ≡ length ds → result ≡ misses_items fields.now ds }
{
    if count > fields.len() as u64 {
        return true;
    }
    needs_one(&fields[count as usize..])
}

/// A list in which the fields are looked up, or the first cause why the piece is no struct.
pub(crate) fn tuple_source<'b>(fields: &[Field], piece: &Piece<'b>) -> Result<Source<'b>, Why>
    requires { length fields.now ≤ 1024 }
    ensures answers { (rows : List Row) (t : Data) → StandsFor rows piece.now t → FormIsRead rows S.Tuple fields.now t result }
    ensures sourced { (rows : List Row) → IfOk result (IsSourced rows) }
{
    let Some((node, count)) = list(piece) else {
        return Err(Why::Kind);
    };
    if misses(fields, count) {
        return Err(Why::Count);
    }
    Ok(Source::Tuple(node))
}
