//! Which maps stand as HAMTs.
ghost use Rattle.std.specs.Prelude.{◌≡◌, false, MatchOption};
ghost use Rattle.ild_schema.specs.declared.def.MapForm.TheVariants as MF;
ghost use Rattle.ild_open_held.specs.Laws.{is_hamt};

use ild_data::HamtShape;
use ild_schema::MapForm;

/// The shape of the HAMT as which a map of this form stands, if it is one.
pub(crate) fn hamt_shape(form: &MapForm) -> Option<HamtShape>
    ensures { MatchOption result (is_hamt form.now ≡ false) (λ p. form.now ≡ MF.Hamt p) }
{
    match form {
        MapForm::Hamt(shape) => Some(*shape),
        MapForm::Map | MapForm::ListPairs | MapForm::StringPairs(_, _) => None,
    }
}
