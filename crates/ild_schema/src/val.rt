//! Values of a schema's types.
ghost use Rattle.std.specs.Prelude.{map, option_map, slice_get, ◌≡◌, ◌++◌, ◌∷◌, [], length, OnOk, OnErr, IfOk};

use ild_data::{Cid, Int, Octets, Tree, Txt};
use std::alloc::{AllocError, Global};
use std::marker::Model;

/// A value of a type: a union's is the number of its member and that member's value, an enum's the number of its member.
/// `Any` never holds null, which is a nullable slot's alone.
#[cycle(val)]
#[derive(Drop)]
pub enum Val {
    Null,
    Bool(bool),
    Int(Int),
    Text(Txt),
    Bytes(Octets),
    Link(Cid),
    List(Vals),
    Map(ValPairs),
    Struct(ValFields),
    Union(u32, ValPart),
    Enum(u32),
    Unit,
    Any(Tree),
}

/// The elements of a list.
#[cycle(val)]
#[derive(Drop)]
pub struct Vals {
    items: Vec<Val>,
}

/// The entries of a map.
#[cycle(val)]
#[derive(Drop)]
pub struct ValPairs {
    pairs: Vec<(Txt, Val)>,
}

/// The fields of a struct, in the order of its type. A field that is left out is `None`.
#[cycle(val)]
#[derive(Drop)]
pub struct ValFields {
    fields: Vec<Option<Val>>,
}

/// The value of a union's member.
#[cycle(val)]
#[derive(Drop)]
pub struct ValPart {
    val: Box<Val>,
}

impl Model for Vals {
    ghost use Rattle.ild_schema.specs.Value.{Values, values_height};
    ghost use Rattle.ild_schema.specs.ValueCode.{values_code};

    ghost Value = { Values };

    ghost coded = { values_code };

    ghost use Rattle.ild_schema.specs.ValueSeen.{values_seen};

    ghost view = { values_seen };

    ghost size = { values_height };

    ghost use Rattle.std.proofs.Common.{arith};
    ghost use Rattle.ild_schema.specs.ValueFalls.{most_le-values};

    ghost size_decreases = { λ a h. omega (arith, most_le-values a.items.items) };
}

impl Model for ValPairs {
    ghost use Rattle.ild_schema.specs.Value.{Pairs, pairs_height};
    ghost use Rattle.ild_schema.specs.ValueCode.{pairs_code};

    ghost Value = { Pairs };

    ghost coded = { pairs_code };

    ghost use Rattle.ild_schema.specs.ValueSeen.{pairs_seen};

    ghost view = { pairs_seen };

    ghost size = { pairs_height };

    ghost use Rattle.std.proofs.Common.{arith};
    ghost use Rattle.ild_schema.specs.ValueFalls.{most_le-pairs};

    ghost size_decreases = { λ a h. omega (arith, most_le-pairs a.pairs.items) };
}

impl Model for ValFields {
    ghost use Rattle.ild_schema.specs.Value.{Optionals, optionals_height};
    ghost use Rattle.ild_schema.specs.ValueCode.{optionals_code};

    ghost Value = { Optionals };

    ghost coded = { optionals_code };

    ghost use Rattle.ild_schema.specs.ValueSeen.{optionals_seen};

    ghost view = { optionals_seen };

    ghost size = { optionals_height };

    ghost use Rattle.std.proofs.Common.{arith};
    ghost use Rattle.ild_schema.specs.ValueFalls.{most_le-optionals};

    ghost size_decreases = { λ a h. omega (arith, most_le-optionals a.fields.items) };
}

impl Model for ValPart {
    ghost use Rattle.ild_schema.specs.Value.{Value as Whole, height};
    ghost use Rattle.ild_schema.specs.ValueCode.{value_code};

    ghost Value = { Whole };

    ghost coded = { value_code };

    ghost use Rattle.ild_schema.specs.ValueSeen.{part_seen};

    ghost view = { part_seen };

    ghost size = { height };

    ghost use Rattle.std.proofs.Common.{arith};
    ghost use Rattle.ild_schema.specs.ValueFalls.{deep-Val-le};

    ghost size_decreases = { λ a h. omega (arith, deep-Val-le a.val.value) };
}

#[tactic(auto, using(crate::proofs::Parts::value_lists))]
impl Vals {
    ghost use Rattle.ild_schema.specs.Value.{no_values, values_list};
    ghost use Rattle.ild_schema.specs.ValueSeen.{value_of};

    /// No element.
    pub fn new(alloc: Global) -> Vals
        ensures { result ≡ no_values }
    {
        Vals {
            items: Vec::new(alloc),
        }
    }

    /// No element, with room for so many.
    pub fn with_room(alloc: Global, count: usize) -> Result<Vals, AllocError>
        ensures { IfOk result (λ made. made ≡ no_values) }
    {
        let items = Vec::with_capacity(alloc, count)?;
        Ok(Vals { items })
    }

    /// Appends an element.
    pub fn push(&mut self, val: Val) -> Result<(), AllocError>
        ensures ok { OnOk result (values_list self.new ≡ values_list self.old ++ value_of val ∷ []) }
        ensures err { OnErr result (self.new ≡ self.old) }
    {
        self.items.push(val)?;
        Ok(())
    }

    /// How many elements there are.
    pub fn len(&self) -> usize
        ensures { result ≡ length (values_list self.now) }
    {
        self.items.len()
    }

    /// The list of these elements, which are taken over.
    pub fn from_vec(items: Vec<Val>) -> Vals
        ensures { values_list result ≡ map value_of items.items }
    {
        Vals { items }
    }

    /// The elements, without a copy.
    pub fn into_vec(self) -> Vec<Val>
        ensures { map value_of result.items ≡ values_list self }
    {
        self.items
    }

    /// The element at a place, or `None` past the last.
    pub fn get(&self, i: usize) -> Option<&Val>
        ensures { option_map (λ v. value_of v.now) result ≡ slice_get (values_list self.now) i }
    {
        if i < self.items.len() {
            Some(&self.items[i])
        } else {
            None
        }
    }
}

#[tactic(auto, using(crate::proofs::Parts::value_lists))]
impl ValPairs {
    ghost use Rattle.ild_schema.specs.Value.{no_pairs, pairs_list};
    ghost use Rattle.ild_schema.specs.ValueSeen.{pair_of};

    /// No entry.
    pub fn new(alloc: Global) -> ValPairs
        ensures { result ≡ no_pairs }
    {
        ValPairs {
            pairs: Vec::new(alloc),
        }
    }

    /// No entry, with room for so many.
    pub fn with_room(alloc: Global, count: usize) -> Result<ValPairs, AllocError>
        ensures { IfOk result (λ made. made ≡ no_pairs) }
    {
        let pairs = Vec::with_capacity(alloc, count)?;
        Ok(ValPairs { pairs })
    }

    /// Appends an entry.
    pub fn push(&mut self, pair: (Txt, Val)) -> Result<(), AllocError>
        ensures ok { OnOk result (pairs_list self.new ≡ pairs_list self.old ++ pair_of pair ∷ []) }
        ensures err { OnErr result (self.new ≡ self.old) }
    {
        self.pairs.push(pair)?;
        Ok(())
    }

    /// How many entries there are.
    pub fn len(&self) -> usize
        ensures { result ≡ length (pairs_list self.now) }
    {
        self.pairs.len()
    }

    /// The map of these entries, which are taken over.
    pub fn from_vec(pairs: Vec<(Txt, Val)>) -> ValPairs
        ensures { pairs_list result ≡ map pair_of pairs.items }
    {
        ValPairs { pairs }
    }

    /// The entries, without a copy.
    pub fn into_vec(self) -> Vec<(Txt, Val)>
        ensures { map pair_of result.items ≡ pairs_list self }
    {
        self.pairs
    }

    /// The entry at a place, or `None` past the last.
    pub fn get(&self, i: usize) -> Option<&(Txt, Val)>
        ensures { option_map (λ p. pair_of p.now) result ≡ slice_get (pairs_list self.now) i }
    {
        if i < self.pairs.len() {
            Some(&self.pairs[i])
        } else {
            None
        }
    }
}

#[tactic(auto, using(crate::proofs::Parts::value_lists))]
impl ValFields {
    ghost use Rattle.ild_schema.specs.Value.{no_optionals, optionals_list};
    ghost use Rattle.ild_schema.specs.ValueSeen.{optional_of};

    /// No field.
    pub fn new(alloc: Global) -> ValFields
        ensures { result ≡ no_optionals }
    {
        ValFields {
            fields: Vec::new(alloc),
        }
    }

    /// Appends a field.
    pub fn push(&mut self, field: Option<Val>) -> Result<(), AllocError>
        ensures ok { OnOk result (optionals_list self.new ≡ optionals_list self.old ++ optional_of field ∷ []) }
        ensures err { OnErr result (self.new ≡ self.old) }
    {
        self.fields.push(field)?;
        Ok(())
    }

    /// How many fields there are, those that are left out too.
    pub fn len(&self) -> usize
        ensures { result ≡ length (optionals_list self.now) }
    {
        self.fields.len()
    }

    /// The struct of these fields, which are taken over.
    pub fn from_vec(fields: Vec<Option<Val>>) -> ValFields
        ensures { optionals_list result ≡ map optional_of fields.items }
    {
        ValFields { fields }
    }

    /// The fields, without a copy.
    pub fn into_vec(self) -> Vec<Option<Val>>
        ensures { map optional_of result.items ≡ optionals_list self }
    {
        self.fields
    }

    /// The field at a place, or `None` past the last.
    pub fn get(&self, i: usize) -> Option<&Option<Val>>
        ensures { option_map (λ o. optional_of o.now) result ≡ slice_get (optionals_list self.now) i }
    {
        if i < self.fields.len() {
            Some(&self.fields[i])
        } else {
            None
        }
    }
}

impl ValPart {
    ghost use Rattle.ild_schema.specs.ValueSeen.{value_of};

    /// The value of a member.
    pub fn new(alloc: Global, val: Val) -> Result<ValPart, AllocError>
        ensures { IfOk result (λ part. part ≡ value_of val) }
    {
        Ok(ValPart {
            val: Box::new(alloc, val)?,
        })
    }

    /// The value as a borrow.
    pub fn get(&self) -> &Val
        ensures { value_of result.now ≡ self.now }
    {
        &self.val
    }
}
