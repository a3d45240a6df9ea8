//! What may be a key.
ghost use Rattle.std.specs.Prelude.{◌≡◌, ◌<◌, IfOk, IfSome, Some, length, option_map};
ghost use Rattle.ild_path_rules.specs.Form.{key_in, HasKeys, JudgesKey};
ghost use Rattle.ild_path_edits.specs.Table.{key_fits};
ghost use Rattle.ild_schema.specs.Value.{Value};
ghost use Rattle.ild_typed.specs.At.{seen};
ghost use Rattle.ild_view.specs.View.{IsView, slot_of, table_of};

use crate::form::{Form, form_of_view};
use crate::there::is_there;
use ild_schema::TypeNo;
use ild_view::View;
use ild_view_walk::is_text;
use std::alloc::{AllocError, Global};

// The type of the keys of a map, but for one inside an Any.
fn key_of(view: &View<'_>) -> Option<TypeNo>
    ensures is { (f : Value) → IsView view.now f → option_map (λ k. k.0) result ≡ key_in (seen (table_of view.now) (slot_of view.now, f)) }
    ensures within { IfSome result (λ k. k.0 < length (table_of view.now)) }
{
    match form_of_view(view) {
        Form::Entries(key, _) => key,
        Form::Fields(_) => None,
        Form::Member(_) => None,
        Form::Elements(_) => None,
        Form::Nothing => None,
    }
}

// Whether a segment is a key that is there, or a text of the type of keys.
fn is_there_or_fits(
    alloc: Global,
    view: &View<'_>,
    key: TypeNo,
    segment: &str,
) -> Result<bool, AllocError>
    requires { key.0 < length (table_of view.now) }
    ensures { HasKeys view.now key.0 → IfOk result (λ fits. JudgesKey view.now segment.now fits) }
{
    if is_there(view, segment) {
        Ok(true)
    } else {
        is_text(alloc, view.schema(), key, segment)
    }
}

/// Whether a segment may be a key: in a map whose keys have a type it is one that is there, or a text of that type. In all else it may.
/// An error is want of memory, which a key of many parts may take.
pub fn key_fits(alloc: Global, view: &View<'_>, segment: &str) -> Result<bool, AllocError>
    ensures { IfOk result (λ fits. JudgesKey view.now segment.now fits) }
{
    match key_of(view) {
        Some(key) => is_there_or_fits(alloc, view, key, segment),
        None => Ok(true),
    }
}
