//! What a piece in a slot is opened as, by the type.
ghost use Rattle.std.specs.Prelude.{◌≡◌, ◌<◌, ℕ, List, Some, length};
ghost use Rattle.ild_beneath.specs.Parts.{map_parts, parts_of, struct_parts};
ghost use Rattle.ild_data.specs.Data.{Data};
ghost use Rattle.ild_layer_piece.specs.Pieces.{IsNumbered, StandsFor};
ghost use Rattle.ild_schema.specs.Rows.{def_at};
ghost use Rattle.ild_schema.specs.Table.{IsWithin};
ghost use Rattle.ild_schema.specs.declared.def.TypeDef.TheVariants as D;
ghost use Rattle.ild_schema.specs.declared.row.Row.{Row};
ghost use Rattle.ild_beneath_read.specs.inside.Left.{IsIn};
ghost use Rattle.ild_beneath_read.specs.inside.Opened.{IsReady, TellsParts, OpensRoot, Parted, PassesInStruct, is_leaf};

use crate::member::open_union;
use crate::opened::Opened;
use crate::parts::Parts;
use ild_cbor::{Kind, Piece};
use ild_layer_fields::Fields;
use ild_layer_piece::{entries, entry, items, kind};
use ild_schema::{Accepted, MapForm, Slot, StructDef, StructForm, TypeDef, TypeNo};

// Whether data of a kind are neither list nor map.
fn is_leaf(kind: Kind) -> bool
    ensures { result ≡ is_leaf kind }
{
    match kind {
        Kind::List => false,
        Kind::Map => false,
        _ => true,
    }
}

// The items of a list.
fn open_list<'b>(elem: Slot, piece: &Piece<'b>) -> Opened<'b>
    ensures parted { (rows : List Row) (at : ℕ) (t : Data) → StandsFor rows piece.now t → Parted rows (parts_of (D.List elem at) t) result }
    ensures ready { (rows : List Row) → IsIn rows elem → IsReady rows result }
{
    match items(piece) {
        Some(items) => Opened::Parts(Parts::Items(elem, items)),
        None => Opened::Nothing,
    }
}

// The values of a map that is no HAMT.
fn open_map<'b>(acc: &'b Accepted, value: Slot, form: &MapForm, piece: &Piece<'b>) -> Opened<'b>
    requires within { IsIn acc.now value }
    requires numbered { IsNumbered acc.now piece.now }
    ensures parted { (t : Data) → StandsFor acc.now piece.now t → Parted acc.now (map_parts form.now value t) result }
    ensures ready { IsReady acc.now result }
{
    match form {
        MapForm::Map => match entries(acc, piece) {
            Some(entries) => Opened::Parts(Parts::Entries(value, entries)),
            None => Opened::Nothing,
        },
        MapForm::ListPairs => match items(piece) {
            Some(items) => Opened::Parts(Parts::Pairs(value, items)),
            None => Opened::Nothing,
        },
        MapForm::StringPairs(_, _) => Opened::Nothing,
        MapForm::Hamt(_) => Opened::Nothing,
    }
}

// The root node of a HAMT: what stands under `hamt`.
fn open_root<'b>(acc: &Accepted, value: Slot, piece: &Piece<'b>) -> Opened<'b>
    requires within { IsIn acc.now value }
    requires numbered { IsNumbered acc.now piece.now }
    ensures root { (t : Data) → StandsFor acc.now piece.now t → OpensRoot value t result }
    ensures ready { IsReady acc.now result }
{
    match entry(acc, piece, "hamt") {
        Some(node) => Opened::Root(value, node),
        None => Opened::Nothing,
    }
}

// The fields of a struct.
fn open_struct<'b>(
    acc: &'b Accepted,
    base: TypeNo,
    def: &'b StructDef,
    piece: &Piece<'b>,
) -> Opened<'b>
    requires within { base.0 < length acc.now }
    requires known { def_at acc.now base.0 ≡ Some (D.Struct def.now) }
    requires parts { IsWithin (length acc.now) (D.Struct def.now) }
    requires numbered { IsNumbered acc.now piece.now }
    ensures parted { (t : Data) → StandsFor acc.now piece.now t → Parted acc.now (struct_parts def.now.form def.now.fields t) result }
    ensures ready { IsReady acc.now result }
{
    acc.recall();
    match &def.form {
        StructForm::Map => match entries(acc, piece) {
            Some(entries) => Opened::Named(Fields { acc, base, def }, entries),
            None => Opened::Nothing,
        },
        StructForm::ListPairs => match items(piece) {
            Some(items) => Opened::Listed(Fields { acc, base, def }, items),
            None => Opened::Nothing,
        },
        StructForm::Tuple => match items(piece) {
            Some(items) => Opened::Parts(Parts::Ordered(def.fields.as_slice(), items)),
            None => Opened::Nothing,
        },
        StructForm::StringPairs(_, _) => Opened::Nothing,
        StructForm::StringJoin(_) => Opened::Nothing,
    }
}

/// What a piece in a slot is opened as.
pub(crate) fn opened<'b>(acc: &'b Accepted, slot: Slot, piece: &Piece<'b>) -> Opened<'b>
    requires within { IsIn acc.now slot }
    requires numbered { IsNumbered acc.now piece.now }
    requires inlined { PassesInStruct acc.now slot piece.now }
    ensures opens { (t : Data) → StandsFor acc.now piece.now t → TellsParts acc.now slot t result }
    ensures ready { IsReady acc.now result }
{
    if is_leaf(kind(piece)) {
        return Opened::Nothing;
    }
    let base = acc.base(slot.ty);
    match acc.def(base) {
        TypeDef::List { elem, .. } => open_list(*elem, piece),
        TypeDef::Map { value, form, .. } => match form {
            MapForm::Hamt(_) => open_root(acc, *value, piece),
            _ => open_map(acc, *value, form, piece),
        },
        TypeDef::Struct(def) => open_struct(acc, base, def, piece),
        TypeDef::Union(def) => open_union(acc, slot.ty, base, def, piece),
        _ => Opened::Nothing,
    }
}
