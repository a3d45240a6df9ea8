//! Accepted schemas, with the look-ups of their tables.
ghost use Rattle.std.specs.Prelude.{◌≡◌, ◌<◌, length, None, Some, IfSome, option_map};
ghost use Rattle.std.specs.Option.{option_and_then};
ghost use Rattle.ild_schema.specs.Accept.{IsAccepted};
ghost use Rattle.ild_schema.specs.Copies.{base, target_in};
ghost use Rattle.ild_schema.specs.Indexed.{InKeyOrder};
ghost use Rattle.ild_schema.specs.Legible.{IsLegible};
ghost use Rattle.ild_schema.specs.Names.{declared_names, number_named};
ghost use Rattle.ild_schema.specs.Parts.{IsPartOf, part_named, part_spelled, part_texts};
ghost use Rattle.ild_schema.specs.Table.{IsTable, IsWithin, def_at, name_at};

use crate::laws::accepted_are_legible;
use crate::{Schema, TypeDef, TypeNo};
use ild_data::Txt;
use std::marker::Model;

/// A schema whose blocks can be read in one way alone: none of the rules fails for any of its types.
#[derive(Drop)]
pub struct Accepted {
    schema: Schema,
}

impl Model for Accepted {
    ghost use Rattle.std.specs.Prelude.{List};
    ghost use Rattle.ild_schema.specs.declared.row.Row.{Row};
    ghost use Rattle.ild_schema.specs.Accept.{IsAccepted};

    ghost Value = { List Row };

    ghost view = { λ a. a.schema };

    ghost invariant = { λ a. IsAccepted a.schema };
}

impl Accepted {
    /// A schema for which no rule fails.
    pub fn of(schema: Schema) -> Accepted
        requires { IsAccepted schema }
        ensures { result ≡ schema }
    {
        Accepted { schema }
    }

    /// Recalls what acceptance says of the table, for the proof of the caller: it does no work.
    #[inline(always)]
    pub fn recall(&self)
        ensures table { IsTable self.now }
        ensures accepted { IsAccepted self.now }
        ensures legible { IsLegible self.now }
    {
        accepted_are_legible();
        // It says that the rows are a table.
        self.schema.types();
    }

    /// How many types the table has.
    pub fn types(&self) -> u32
        ensures { result ≡ length self.now }
    {
        self.schema.types()
    }

    /// What the schema says of a type.
    pub fn def(&self, ty: TypeNo) -> &TypeDef
        requires { ty.0 < length self.now }
        ensures same { def_at self.now ty.0 ≡ Some result.now }
        ensures within { IsWithin (length self.now) result.now }
    {
        self.schema.def(ty)
    }

    /// The type to which a type leads through copies: itself, where it is no copy.
    pub fn base(&self, ty: TypeNo) -> TypeNo
        requires { ty.0 < length self.now }
        ensures same { result.0 ≡ base self.now ty.0 }
        ensures within { result.0 < length self.now }
        ensures end { target_in (def_at self.now result.0) ≡ None }
    {
        self.schema.base(ty)
    }

    /// The name of a type: empty for an inline type, but `&T` for a union's member `&T`.
    pub fn name(&self, ty: TypeNo) -> &str
        requires { ty.0 < length self.now }
        ensures { name_at self.now ty.0 ≡ Some result.now }
    {
        self.schema.name(ty)
    }

    /// The type of the prelude or the declared type that has a name.
    pub fn type_named(&self, name: &str) -> Option<TypeNo>
        ensures { option_map (λ ty. ty.0) result ≡ number_named name.now self.now }
    {
        self.schema.type_named(name)
    }

    /// The number of the field or member of a type that has a name.
    pub fn part_named(&self, ty: TypeNo, name: &str) -> Option<usize>
        requires { ty.0 < length self.now }
        ensures same { result ≡ option_and_then (part_named name.now) (def_at self.now ty.0) }
        ensures within { IfSome result (IsPartOf self.now ty.0) }
    {
        self.schema.part_named(ty, name)
    }

    /// The number of the field or member of a type that stands in a block under a text: a field under its name in a block, a
    /// member of a union under the text behind it, a member of an enum under its text.
    pub fn part_spelled(&self, ty: TypeNo, text: &str) -> Option<usize>
        requires { ty.0 < length self.now }
        ensures same { result ≡ option_and_then (part_spelled text.now) (def_at self.now ty.0) }
        ensures within { IfSome result (IsPartOf self.now ty.0) }
    {
        self.schema.part_spelled(ty, text)
    }

    /// The numbers of a type's fields or members in the key order of the texts under which they stand in a block (DAG-CBOR,
    /// "Map Keys").
    pub fn in_key_order(&self, ty: TypeNo) -> &[usize]
        requires { ty.0 < length self.now }
        ensures { IfSome (def_at self.now ty.0) (λ def. InKeyOrder (part_texts def) result.now) }
    {
        self.schema.in_key_order(ty)
    }

    /// The declared names, in the order of the text.
    pub fn names(&self) -> &[Txt]
        ensures { result.now ≡ declared_names self.now }
    {
        self.schema.names()
    }

    /// The schema, for a table that is made of its rows.
    pub fn into_schema(self) -> Schema
        ensures { result ≡ self }
    {
        self.schema
    }
}
