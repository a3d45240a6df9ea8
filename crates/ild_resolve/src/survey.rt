//! The declared names of a schema, with the numbers of their types.
ghost use Rattle.std.specs.Prelude.{◌≡◌, ◌⊎◌, ◌<◌, ◌++◌, ℕ, List, None, Some, cond, drop, length, slice_get, take, bytes_eq, IfOk, IfErr, OnOk};
ghost use Rattle.std.specs.List.{position_from};
ghost use Rattle.std.specs.Option.{option_or};
ghost use Rattle.ild_resolve.specs.inside.Numbers.{number_in};
ghost use Rattle.ild_schema.specs.Names.{is_named, number_named};
ghost use Rattle.ild_schema.specs.Prelude.{prelude};
ghost use Rattle.ild_resolve.specs.Events.{events_of};
ghost use Rattle.ild_resolve.specs.Faults.{declared_fault};
ghost use Rattle.ild_resolve.specs.Names.{declared_name, names_in, number_of};
ghost use Rattle.ild_resolve.specs.inside.Survey.{is_taken, again_at};
ghost use Rattle.ild_resolve.specs.declared.error.ResolveErr.TheVariants.{Memory};

use crate::ResolveErr;
use crate::count::{begin, body};
use ild_data::Txt;
use ild_parse_grammar::{Ast, Decl, TypeName};
use std::alloc::{AllocError, Global};
use std::collections::BTreeMap;

/// Appends the name that a declaration declares.
fn push_name(names: &mut Vec<Txt>, decl: &Decl) -> Result<(), AllocError>
    ensures { OnOk result (names.new.items ≡ names.old.items ++ declared_name decl.now) }
{
    match decl {
        Decl::Type(d) => {
            names.push(d.name.name.copy()?)?;
        }
        Decl::Advanced(_) => {}
    }
    Ok(())
}

/// The declared names, each copied once: the map from names to numbers borrows them, and then the schema keeps them.
pub(crate) fn names_of(alloc: Global, ast: &Ast) -> Result<Vec<Txt>, AllocError>
    ensures { IfOk result (λ names. names.items ≡ names_in ast.now.decls) }
{
    let mut names = Vec::new(alloc);
    for decl in ast.decls.as_slice() {
        push_name(&mut names, decl)?;
    }
    Ok(names)
}

/// The name at a place.
fn name_at<'a>(names: &'a [Txt], place: usize) -> &'a str
    requires { place < length names.now }
    ensures { slice_get names.now place ≡ Some result.now }
{
    names[place].as_str()
}

/// Lets a name stand for a number.
fn put_number<'a>(
    numbers: &mut BTreeMap<&'a str, u32>,
    name: &'a str,
    number: u32,
) -> Result<(), AllocError>
    ensures { OnOk result ((q : List ℕ) → number_in numbers.new q ≡ cond (bytes_eq q name.now) (Some number) (number_in numbers.old q)) }
{
    numbers.insert(name, number)?;
    Ok(())
}

/// Lets `Any`, `Bool`, `Bytes` and `Int` stand for the first types of the prelude.
fn put_scalars<'a>(numbers: &mut BTreeMap<&'a str, u32>) -> Result<(), AllocError>
    ensures { OnOk result ((q : List ℕ) → number_in numbers.new q ≡ option_or (position_from (is_named q) 0 (take 4 prelude)) (number_in numbers.old q)) }
{
    put_number(numbers, "Int", 3)?;
    put_number(numbers, "Bytes", 2)?;
    put_number(numbers, "Bool", 1)?;
    put_number(numbers, "Any", 0)
}

/// Lets `Link`, `List`, `Map` and `String` stand for the last types of the prelude.
fn put_others<'a>(numbers: &mut BTreeMap<&'a str, u32>) -> Result<(), AllocError>
    ensures { OnOk result ((q : List ℕ) → number_in numbers.new q ≡ option_or (position_from (is_named q) 4 (drop 4 prelude)) (number_in numbers.old q)) }
{
    put_number(numbers, "String", 7)?;
    put_number(numbers, "Map", 6)?;
    put_number(numbers, "List", 5)?;
    put_number(numbers, "Link", 4)
}

/// The numbers for which the names of the prelude stand.
fn given_numbers<'a>(alloc: Global) -> Result<BTreeMap<&'a str, u32>, AllocError>
    ensures { IfOk result (λ numbers. (q : List ℕ) → number_in numbers q ≡ number_named q prelude) }
{
    let mut numbers = BTreeMap::new(alloc);
    put_others(&mut numbers)?;
    put_scalars(&mut numbers)?;
    Ok(numbers)
}

/// Whether no schema may declare a name, or it stands for a number already.
fn is_taken(numbers: &BTreeMap<&str, u32>, name: &str) -> bool
    ensures { result ≡ is_taken (λ q. number_in numbers.now q) name.now }
{
    name == "Float" || numbers.contains_key(name)
}

/// Lets a declared name, which is kept as a text, stand for a number, or keeps the place of the first that is taken.
fn declare<'a>(
    numbers: &mut BTreeMap<&'a str, u32>,
    again: &mut Option<usize>,
    name: &TypeName,
    text: &'a str,
    number: u32,
) -> Result<(), AllocError>
    requires { text.now ≡ name.now.name }
    ensures again { OnOk result (again.new ≡ option_or again.old (again_at (λ q. number_in numbers.old q) name.now)) }
    ensures numbers { OnOk result (again.new ≡ None → (q : List ℕ) → number_in numbers.new q ≡ cond (bytes_eq q name.now.name) (Some number) (number_in numbers.old q)) }
{
    if !is_taken(numbers, text) {
        put_number(numbers, text, number)?;
    } else if again.is_none() {
        *again = Some(name.at);
    }
    Ok(())
}

/// The numbers for which names stand, where the limits are kept and no name is declared that is taken.
pub(crate) fn survey<'a>(
    alloc: Global,
    ast: &Ast,
    names: &'a [Txt],
) -> Result<BTreeMap<&'a str, u32>, ResolveErr>
    requires names { names.now ≡ names_in ast.now.decls }
    ensures free { IfOk result (λ _. declared_fault (events_of ast.now) ≡ None) }
    ensures numbers { IfOk result (λ numbers. (name : List ℕ) → number_in numbers name ≡ number_of name (events_of ast.now)) }
    ensures fault { IfErr result (λ e. (e ≡ Memory) ⊎ (declared_fault (events_of ast.now) ≡ Some e)) }
{
    let mut numbers = given_numbers(alloc)?;
    let mut types = 0;
    let mut again = None;
    let mut declared = 0;
    for decl in ast.decls.as_slice() {
        match decl {
            Decl::Type(d) => {
                begin(&mut types, d.name.at)?;
                let name = name_at(names, declared);
                declare(&mut numbers, &mut again, &d.name, name, types + 7)?;
                declared += 1;
                body(&mut types, &d.body)?;
            }
            Decl::Advanced(_) => {}
        }
    }
    match again {
        Some(at) => Err(ResolveErr::Twice { at }),
        None => Ok(numbers),
    }
}
