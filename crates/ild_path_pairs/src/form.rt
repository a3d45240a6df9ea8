//! Maps and structs that stand as texts, by their forms.
ghost use Rattle.std.specs.Prelude.{◌<◌, length};
ghost use Rattle.ild_path_pairs.specs.Pairs.{MapGiven, StructGiven, TellsMapForm, TellsStructForm, borrowed_text};

use crate::change::{Joined, map_text, struct_text};
use ild_data::Txt;
use ild_schema::{MapForm, StructDef, StructForm};
use std::alloc::{AllocError, Global};

/// The text of a map with a new value at a key, or without one.
pub(crate) fn in_map(
    alloc: Global,
    text: &str,
    form: &MapForm,
    key: &str,
    new: Option<&str>,
) -> Result<Option<Txt>, AllocError>
    requires { MapGiven form.now }
    ensures { TellsMapForm form.now text.now key.now (borrowed_text new.entry) result }
{
    match form {
        MapForm::StringPairs(inner, entry) => {
            let joined = Joined {
                text,
                inner: inner.as_str(),
                entry: entry.as_str(),
            };
            map_text(alloc, &joined, key, new)
        }
        MapForm::Map | MapForm::ListPairs | MapForm::Hamt(_) => Ok(None),
    }
}

/// The text of a struct, of which the field with a number has a new value or goes.
pub(crate) fn in_struct(
    alloc: Global,
    text: &str,
    def: &StructDef,
    number: usize,
    new: Option<&str>,
) -> Result<Option<Txt>, AllocError>
    requires given { StructGiven def.now.form }
    requires within { number < length def.now.fields }
    ensures { TellsStructForm def.now text.now number (borrowed_text new.entry) result }
{
    match &def.form {
        StructForm::StringPairs(inner, entry) => {
            let joined = Joined {
                text,
                inner: inner.as_str(),
                entry: entry.as_str(),
            };
            struct_text(alloc, &joined, def.fields.as_slice(), number, new)
        }
        StructForm::Map | StructForm::Tuple | StructForm::ListPairs | StructForm::StringJoin(_) =>
            Ok(None),
    }
}
