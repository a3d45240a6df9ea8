//! The parts of a piece.
ghost use Rattle.std.specs.Prelude.{◌≡◌, ◌<◌, List, length, option_map};
ghost use Rattle.std.specs.Iterator.{at_most};
ghost use Rattle.std.specs.Option.{option_and_then};
ghost use Rattle.ild_data.specs.Data.{Data};
ghost use Rattle.ild_data.specs.Key.{value_at};
ghost use Rattle.ild_schema.specs.declared.row.Row.{Row};
ghost use Rattle.ild_typed.specs.Named.{items_in};
ghost use Rattle.ild_typed.specs.Strings.{members_in};
ghost use Rattle.ild_layer_piece.specs.Entries.{EntriesGive, Found, Lists, Maps};
ghost use Rattle.ild_layer_piece.specs.Pieces.{IsNumbered, StandsFor, is_key, passed_key};

use crate::MapEntries;
use ild_cbor::{Items, Node, Piece};
use ild_schema::{Accepted, TypeDef, TypeNo, UnionForm};

/// The items of a list in order, or `None` where the data are no list.
pub fn items<'b>(piece: &Piece<'b>) -> Option<Items<'b>>
    ensures { (rows : List Row) (t : Data) → StandsFor rows piece.now t → Lists (items_in t) result }
{
    match piece {
        Piece::Node(node) => node.items(),
        Piece::Text(_) | Piece::Bytes(_) | Piece::Inline(_, _) => None,
    }
}

// The key of the discriminant that stands inline in a union, if it does.
fn discriminant_key(acc: &Accepted, union: u32) -> Option<&str>
    requires { union < length acc.now }
    ensures { option_map (λ k. k.now) result ≡ passed_key acc.now union }
{
    match acc.def(acc.base(TypeNo(union))) {
        TypeDef::Union(def) => match &def.form {
            UnionForm::Inline(key) => Some(key.as_str()),
            _ => None,
        },
        _ => None,
    }
}

// Whether there is a passed key, and it is this one.
fn is_at(passed: Option<&str>, key: &str) -> bool
    ensures { result ≡ is_key key.now (option_map (λ k. k.now) passed.entry) }
{
    match passed {
        Some(passed) => key == passed,
        None => false,
    }
}

/// The entries of a map in order, or `None` where the data are no map.
#[inline(always)]
pub fn entries<'b>(acc: &'b Accepted, piece: &Piece<'b>) -> Option<MapEntries<'b>>
    requires { IsNumbered acc.now piece.now }
    ensures { (t : Data) → StandsFor acc.now piece.now t → Maps (members_in t) result }
{
    match piece {
        Piece::Node(node) => Some(MapEntries {
            pairs: node.entries()?,
            passed: None,
        }),
        Piece::Inline(node, union) => Some(MapEntries {
            pairs: node.entries()?,
            passed: discriminant_key(acc, *union),
        }),
        Piece::Text(_) | Piece::Bytes(_) => None,
    }
}

/// The value at a key of a map, or `None` where the key is absent, and where the data are no map.
pub fn entry<'b>(acc: &Accepted, piece: &Piece<'b>, key: &str) -> Option<Node<'b>>
    requires { IsNumbered acc.now piece.now }
    ensures { (t : Data) → StandsFor acc.now piece.now t → Found (option_and_then (value_at key.now) (members_in t)) result }
{
    match piece {
        Piece::Node(node) => node.entry(key),
        Piece::Inline(node, union) => {
            if is_at(discriminant_key(acc, *union), key) {
                None
            } else {
                node.entry(key)
            }
        }
        Piece::Text(_) | Piece::Bytes(_) => None,
    }
}

impl<'b> Iterator for MapEntries<'b> {
    type Item = (&'b str, Node<'b>);

    ghost next_gives = { EntriesGive };

    ghost remaining = { λ s. at_most s.pairs.left };

    fn next(&mut self) -> Option<(&'b str, Node<'b>)> {
        let (key, value) = self.pairs.next()?;
        if self.passed == Some(key) {
            self.passed = None;
            return self.pairs.next();
        }
        Some((key, value))
    }
}
