//! Schemas: a table of types, with the look-ups by number and by name, none of which takes memory.
ghost use Rattle.std.specs.Prelude.{◌≡◌, ◌<◌, ℕ, length, None, Some, IfOk, IfSome, option_map};
ghost use Rattle.std.specs.Option.{option_and_then};
ghost use Rattle.ild_schema.specs.Names.{declared_names, number_named};
ghost use Rattle.ild_schema.specs.Parts.{IsPartOf, part_named, part_spelled, part_texts};
ghost use Rattle.ild_schema.specs.Table.{IsTable, IsWithin, def_at, name_at, place_at};
ghost use Rattle.ild_schema.specs.Copies.{base, leads, target_in};
ghost use Rattle.ild_schema.specs.Indexed.{InKeyOrder};

use crate::by_name::{numbers_by_name, type_with};
use crate::by_text::{PartIndex, part_with, parts_of};
use crate::ends::ends_of;
use crate::label::Label;
use crate::{Row, TypeDef, TypeNo};
use ild_data::Txt;
use std::alloc::{AllocError, Global};
use std::marker::Model;

/// A table of types by number (IPLD Schemas): the prelude, and then each declared type with the types inside its
/// declaration. Each type on which another is made is in the table.
#[derive(Drop)]
pub struct Schema {
    rows: Vec<Row>,
    names: Vec<Txt>,
    numbers: Vec<u32>,
    ends: Vec<Option<TypeNo>>,
    parts: Vec<PartIndex>,
}

impl Model for Schema {
    ghost use Rattle.std.specs.Prelude.{List};
    ghost use Rattle.ild_schema.specs.declared.row.Row.{Row};
    ghost use Rattle.ild_schema.specs.Held.{TableIsKept};

    ghost Value = { List Row };

    ghost view = { λ a. a.rows.items };

    ghost invariant = { λ a. TableIsKept a.rows.items a.names.items a.numbers.items a.ends.items a.parts.items };
}

impl Schema {
    /// The schema of a table whose declared names are listed.
    pub fn with_names(alloc: Global, rows: Vec<Row>, names: Vec<Txt>) -> Result<Schema, AllocError>
        requires table { IsTable rows.items }
        requires names { names.items ≡ declared_names rows.items }
        ensures { IfOk result (λ schema. schema ≡ rows.items) }
    {
        let numbers = numbers_by_name(alloc, &rows)?;
        let ends = ends_of(alloc, &rows)?;
        let parts = parts_of(alloc, &rows)?;
        Ok(Schema {
            rows,
            names,
            numbers,
            ends,
            parts,
        })
    }

    /// How many types the table has. Its clauses recall that it is a table.
    pub fn types(&self) -> u32
        ensures count { result ≡ length self.now }
        ensures table { IsTable self.now }
    {
        self.rows.len() as u32
    }

    /// What the schema says of a type.
    pub fn def(&self, ty: TypeNo) -> &TypeDef
        requires { ty.0 < length self.now }
        ensures same { def_at self.now ty.0 ≡ Some result.now }
        ensures within { IsWithin (length self.now) result.now }
    {
        &self.rows[ty.0 as usize].def
    }

    /// The type to which a type leads through copies: itself, where it is no copy.
    pub fn base(&self, ty: TypeNo) -> TypeNo
        requires { ty.0 < length self.now }
        ensures same { result.0 ≡ base self.now ty.0 }
        ensures within { result.0 < length self.now }
        ensures reached { (k : ℕ) × (leads self.now k ty.0 ≡ Some result.0) }
        ensures end { target_in (def_at self.now result.0) ≡ None }
    {
        match self.ends[ty.0 as usize] {
            Some(end) => end,
            None => ty,
        }
    }

    /// The name of a type: empty for an inline type, but `&T` for a union's member `&T`.
    pub fn name(&self, ty: TypeNo) -> &str
        requires { ty.0 < length self.now }
        ensures { name_at self.now ty.0 ≡ Some result.now }
    {
        self.rows[ty.0 as usize].name.as_str()
    }

    /// The offset of a type's name in the text or, of an inline type, of its first token, and 0 for the prelude's.
    pub fn place(&self, ty: TypeNo) -> usize
        requires { ty.0 < length self.now }
        ensures { place_at self.now ty.0 ≡ Some result }
    {
        self.rows[ty.0 as usize].at
    }

    /// The type of the prelude or the declared type that has a name.
    pub fn type_named(&self, name: &str) -> Option<TypeNo>
        ensures { option_map (λ ty. ty.0) result ≡ number_named name.now self.now }
    {
        type_with(&self.rows, &self.numbers, name)
    }

    /// The number of the field or member of a type that has a name: of the first, where several have it.
    pub fn part_named(&self, ty: TypeNo, name: &str) -> Option<usize>
        requires { ty.0 < length self.now }
        ensures same { result ≡ option_and_then (part_named name.now) (def_at self.now ty.0) }
        ensures within { IfSome result (IsPartOf self.now ty.0) }
    {
        let index = &self.parts[ty.0 as usize];
        part_with(
            &self.rows[ty.0 as usize].def,
            Label::Name,
            &index.names,
            name,
        )
    }

    /// The number of the field or member of a type that stands in a block under a text, of the first where several do: a
    /// field under its name in a block, a member of a union under the text behind it, a member of an enum under its text.
    pub fn part_spelled(&self, ty: TypeNo, text: &str) -> Option<usize>
        requires { ty.0 < length self.now }
        ensures same { result ≡ option_and_then (part_spelled text.now) (def_at self.now ty.0) }
        ensures within { IfSome result (IsPartOf self.now ty.0) }
    {
        let index = &self.parts[ty.0 as usize];
        part_with(
            &self.rows[ty.0 as usize].def,
            Label::Text,
            &index.texts,
            text,
        )
    }

    /// The numbers of a type's fields or members in the key order of the texts under which they stand in a block (DAG-CBOR,
    /// "Map Keys"): of those with one text the first, and none of a part without a text.
    pub fn in_key_order(&self, ty: TypeNo) -> &[usize]
        requires { ty.0 < length self.now }
        ensures { IfSome (def_at self.now ty.0) (λ def. InKeyOrder (part_texts def) result.now) }
    {
        &self.parts[ty.0 as usize].texts
    }

    /// The declared names, in the order of the text.
    pub fn names(&self) -> &[Txt]
        ensures { result.now ≡ declared_names self.now }
    {
        &self.names
    }

    /// The rows of the table, and the declared names, for a table that is made of it.
    pub fn into_rows(self) -> (Vec<Row>, Vec<Txt>)
        ensures rows { result.0.items ≡ self }
        ensures names { result.1.items ≡ declared_names self }
    {
        (self.rows, self.names)
    }
}
