//! The value at a key of a map, by its form.
ghost use Rattle.std.specs.Prelude.{◌≡◌, ◌<◌, ◌∷◌, [], ℕ, IfSome, List, Option, Some, false, length, map, option_map};
ghost use Rattle.std.specs.Option.{option_and_then};
ghost use Rattle.ild_cbor.specs.Nodes.{HasData};
ghost use Rattle.ild_cbor.specs.Steps.{HasItems};
ghost use Rattle.ild_data.specs.Data.{Data, items_of};
ghost use Rattle.ild_data.specs.Key.{value_at};
ghost use Rattle.ild_view_entries.specs.Forms.{MapDelims, ShowsMap};
ghost use Rattle.ild_view_entries.specs.Found.{FindsPiece};
ghost use Rattle.ild_layer_piece.specs.Entries.{Found};
ghost use Rattle.ild_layer_piece.specs.Pieces.{IsNumbered, StandsFor};
ghost use Rattle.ild_schema.specs.declared.row.Row.{Row};
ghost use Rattle.ild_text.specs.Parts.{pairs_in};
ghost use Rattle.ild_typed.specs.Strings.{listpairs, members_in, pair_data, stringpairs};
ghost use Rattle.ild_union.specs.Forms.{passes_over};

use ild_cbor::{Items, Node, Piece};
use ild_layer_piece::{entry, items, text};
use ild_schema::{Accepted, MapForm};
use ild_text::{PairParts, pairs};

// An item, where one was found.
fn piece_of<'b>(node: Option<Node<'b>>) -> Option<Piece<'b>>
    ensures found { (rows : List Row) (o : Option Data) → Found o node.entry → FindsPiece rows o result }
    ensures free { IfSome result (λ p. passes_over p ≡ false) }
{
    match node {
        Some(node) => Some(Piece::Node(node)),
        None => None,
    }
}

// The value of a pair, where its key is this one.
fn value_in<'b>(item: &Node<'b>, key: &str) -> Option<Node<'b>>
    ensures { (e : List ℕ × Data) → HasData item.now (pair_data e) → Found (value_at key.now (e ∷ [])) result }
{
    match item.item(0) {
        Some(first) => match first.text() {
            Some(name) => { if key == name { item.item(1) } else { None } }
            None => None,
        },
        None => None,
    }
}

// The value at a key among pairs.
fn pair_value<'b>(items: Items<'b>, key: &str) -> Option<Node<'b>>
    ensures { (es : List (List ℕ × Data)) → HasItems items.entry (items_of (map pair_data es)) → Found (value_at key.now es) result }
{
    let mut left = items;
    while let Some(item) = left.next() {
        if let Some(value) = value_in(&item, key) {
            return Some(value);
        }
    }
    None
}

// The value at a key among the pairs of a text.
fn text_value<'b>(split: PairParts<'b>, key: &str) -> Option<&'b str>
    ensures { option_map (λ s. s.now) result ≡ value_at key.now (pairs_in split.entry) }
{
    let mut left = split;
    while let Some(((name, value), behind)) = left.split_first() {
        if key == name {
            return Some(value);
        }
        left = behind;
    }
    None
}

/// The value at a key of a map that stands as a map, or `None` where the key is absent, and where the piece is no map.
pub fn map_entry<'b>(acc: &Accepted, piece: &Piece<'b>, key: &str) -> Option<Piece<'b>>
    requires { IsNumbered acc.now piece.now }
    ensures found { (t : Data) → StandsFor acc.now piece.now t → FindsPiece acc.now (option_and_then (value_at key.now) (members_in t)) result }
    ensures free { IfSome result (λ p. passes_over p ≡ false) }
{
    piece_of(entry(acc, piece, key))
}

// Of one that stands as a list of pairs.
fn listpairs_entry<'b>(piece: &Piece<'b>, key: &str) -> Option<Piece<'b>>
    ensures found { (rows : List Row) (es : List (List ℕ × Data)) → StandsFor rows piece.now (listpairs es) → FindsPiece rows (value_at key.now es) result }
    ensures free { IfSome result (λ p. passes_over p ≡ false) }
{
    match items(piece) {
        Some(items) => piece_of(pair_value(items, key)),
        None => None,
    }
}

// Of one that stands as the pairs of a text.
fn stringpairs_entry<'b>(
    piece: &Piece<'b>,
    inner: &'b str,
    entry: &'b str,
    key: &str,
) -> Option<Piece<'b>>
    requires inner_some { 0 < length inner.now }
    requires entry_some { 0 < length entry.now }
    ensures found { (rows : List Row) (es : List (List ℕ × Data)) (t : Data) → StandsFor rows piece.now t → stringpairs inner.now entry.now es ≡ Some t → FindsPiece rows (value_at key.now es) result }
    ensures free { IfSome result (λ p. passes_over p ≡ false) }
{
    match text(piece) {
        Some(whole) => match pairs(whole, inner, entry) {
            Ok(split) => match text_value(split, key) {
                Some(value) => Some(Piece::Text(value)),
                None => None,
            },
            Err(_) => None,
        },
        None => None,
    }
}

/// The value at a key of a map of a form, or `None` where the key is absent. In a HAMT none is looked for: the answer is `None`.
pub fn form_entry<'b>(
    acc: &Accepted,
    form: &'b MapForm,
    piece: &Piece<'b>,
    key: &str,
) -> Option<Piece<'b>>
    requires numbered { IsNumbered acc.now piece.now }
    requires delims { MapDelims form.now }
    ensures found { (t : Data) (es : List (List ℕ × Data)) → StandsFor acc.now piece.now t → ShowsMap form.now es t → FindsPiece acc.now (value_at key.now es) result }
    ensures free { IfSome result (λ p. passes_over p ≡ false) }
{
    match form {
        MapForm::Map => map_entry(acc, piece, key),
        MapForm::ListPairs => listpairs_entry(piece, key),
        MapForm::StringPairs(inner, entry) => {
            stringpairs_entry(piece, inner.as_str(), entry.as_str(), key)
        }
        MapForm::Hamt(_) => None,
    }
}
