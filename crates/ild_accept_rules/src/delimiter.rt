//! The rule on delimiters.
ghost use Rattle.std.specs.Prelude.{◌≡◌};
ghost use Rattle.ild_schema.specs.Delimiters.{are_poor, delim_fault, is_poor_map, is_poor_struct, occurs, is_empty};

use ild_data::Txt;
use ild_schema::{MapForm, StructForm, TypeDef};
use memchr::memmem;

fn is_empty(text: &Txt) -> bool
    ensures { result ≡ is_empty text.now }
{
    match text.as_str().as_bytes() {
        [] => true,
        [_, ..] => false,
    }
}

/// Whether bytes stand somewhere in others.
fn occurs(part: &[u8], text: &[u8]) -> bool
    ensures { result ≡ occurs part.now text.now }
{
    memmem::find(text, part).is_some()
}

/// Whether one is empty, or that of the entries stands in that of an entry.
fn are_poor(inner: &Txt, entry: &Txt) -> bool
    ensures { result ≡ are_poor inner.now entry.now }
{
    is_empty(inner)
        || is_empty(entry)
        || occurs(entry.as_str().as_bytes(), inner.as_str().as_bytes())
}

fn is_poor_map(form: &MapForm) -> bool
    ensures { result ≡ is_poor_map form.now }
{
    match form {
        MapForm::StringPairs(inner, entry) => are_poor(inner, entry),
        _ => false,
    }
}

fn is_poor_struct(form: &StructForm) -> bool
    ensures { result ≡ is_poor_struct form.now }
{
    match form {
        StructForm::StringPairs(inner, entry) => are_poor(inner, entry),
        StructForm::StringJoin(join) => is_empty(join),
        _ => false,
    }
}

/// Delimiters part what they stand between. The fault is that of the type at a place.
pub fn delim_fault(at: usize, def: &TypeDef) -> Option<usize>
    ensures { result ≡ delim_fault at def.now }
{
    match def {
        TypeDef::Map { form, .. } => is_poor_map(form).then_some(at),
        TypeDef::Struct(s) => is_poor_struct(&s.form).then_some(at),
        _ => None,
    }
}
