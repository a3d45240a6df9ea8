//! The names of layouts, behind `advanced`.
ghost use Rattle.std.specs.Prelude.{◌≡◌, ◌<◌, ◌≤◌, ◌*◌, ◌+◌, ◌-◌, ℕ, List, [], ◌∷◌, IfOk, Option, Some, None, if◌then◌else◌, nat_lt, option_and_then, length, drop, slice_index};
ghost use Rattle.std.specs.List.{list_all};
ghost use Rattle.std.specs.Option.{unwrap_or};
ghost use Rattle.ild_data.specs.TrieShape.{usual};
ghost use Rattle.ild_data.specs.Decimal.{are_digits, is_digit, natural_of};
ghost use Rattle.ild_schema.specs.declared.def.MapForm.TheVariants as M;
ghost use Rattle.ild_resolve.specs.Events.{advances};
ghost use Rattle.ild_resolve.specs.inside.Judged.{Judged};
ghost use Rattle.ild_resolve.specs.Layouts.{is_sized, shape_at, shape_named};

use crate::ResolveErr;
use ild_data::{HamtShape, natural_of};
use ild_parse_grammar::TypeName;
use ild_schema::MapForm;

fn digit(byte: u8) -> u32
    ensures { result ≡ byte - 48 }
{
    u32::from(byte.saturating_sub(b'0'))
}

/// The number of one digit or two.
fn number_of(digits: &[u8]) -> Option<u32>
    ensures { result ≡ option_and_then (λ n. if nat_lt n 100 then Some n else None) (natural_of digits.now) }
{
    match natural_of(digits) {
        Some(n) if n < 100 => Some(n as u32),
        _ => None,
    }
}

/// The shape of so many bits and entries.
fn shape_at(width: u32, bucket: u32) -> Option<HamtShape>
    ensures { result ≡ shape_at width bucket }
{
    HamtShape::new(width, bucket)
}

/// Whether a name is that of a shape, but for its numbers.
fn is_sized(name: &[u8]) -> bool
    ensures { result ≡ is_sized name.now }
{
    name.len() >= 9 && &name[..6] == b"HAMT_w".as_slice() && &name[7..9] == b"_b".as_slice()
}

/// The shape that the numbers in a name tell.
fn sized_shape(name: &[u8]) -> Option<HamtShape>
    requires { 9 ≤ length name.now }
    ensures { result ≡ option_and_then (shape_at (slice_index name.now 6 - 48)) (natural_of (drop 9 name.now)) }
{
    shape_at(digit(name[6]), number_of(&name[9..])?)
}

/// The shape of a HAMT that a name tells.
fn shape_named(name: &[u8]) -> Option<HamtShape>
    ensures { result ≡ shape_named name.now }
{
    if name == b"HAMT".as_slice() {
        return Some(HamtShape::usual());
    }
    if name.len() >= 9 && is_sized(name) {
        sized_shape(name)
    } else {
        None
    }
}

/// The layout of a map behind `advanced`.
pub(crate) fn layout(name: &TypeName) -> Result<MapForm, ResolveErr>
    ensures words { (numbers : List ℕ → Option ℕ) → Judged numbers (advances name.now ∷ []) result }
    ensures same { IfOk result (λ form. form ≡ M.Hamt (unwrap_or (shape_named name.now.name) usual)) }
{
    match shape_named(name.name.as_str().as_bytes()) {
        Some(shape) => Ok(MapForm::Hamt(shape)),
        None => Err(ResolveErr::Advanced { at: name.at }),
    }
}
