//! The block in which a path ends.
ghost use Rattle.std.specs.Prelude.{◌≡◌, ◌++◌, ◌∷◌, [], List};
ghost use Rattle.ild_path_hops.specs.declared.hop.Hop.{Hop as Passed};
ghost use Rattle.ild_path_ends.specs.Steps.{IsViewOfEntry};

use ild_path_hops::Hop;
use ild_view::View;

/// The view of the last hop's entry, or where there is no hop that of the root.
pub(crate) fn innermost<'a>(root: View<'a>, hops: &'a [Hop<'_>]) -> View<'a>
    ensures root { hops.now ≡ [] → result ≡ root.entry }
    ensures entry { (before : List Passed) (last : Passed) → hops.now ≡ before ++ last ∷ [] → IsViewOfEntry last.entry result }
{
    match hops.last() {
        Some(hop) => hop.entry.view(),
        None => root,
    }
}
