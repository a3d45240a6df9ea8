//! What a change is for the item in which it is made.
ghost use Rattle.std.specs.Prelude.{◌≡◌, ◌∷◌, [], IfSome, Some, false};
ghost use Rattle.ild_splice_changes.specs.TreeChange.{Located};
ghost use Rattle.ild_data.specs.Data.{Data};
ghost use Rattle.ild_data.specs.Key.{same_text};
ghost use Rattle.ild_path_replaced.specs.Seen.{Carries, beside, has_whole, top_of, touched, within};

use ild_path_steps::PartSteps;

/// What a change touches of an item.
#[derive(Clone, Copy, Debug, PartialEq, Eq)]
pub enum Touch<'a> {
    /// Nothing.
    Nothing,
    /// All of it: it is replaced.
    Whole,
    /// An item of a list, which comes, goes or changes.
    Item,
    /// The entry of a map at a key, which comes, goes or changes.
    Entry(&'a str),
}

// Whether two texts are one.
fn is_text(a: &str, b: &str) -> bool
    ensures { result ≡ same_text a.now b.now }
{
    a == b
}

// Whether the entry at a key, and the map as a whole, stays.
fn is_beside(touch: &Touch<'_>, key: &str) -> bool
    ensures { result ≡ beside key.now (touched touch.now) }
{
    match touch {
        Touch::Nothing | Touch::Item => true,
        Touch::Whole => false,
        Touch::Entry(other) => !is_text(other, key),
    }
}

// What a change within a part of an item touches of the item.
fn within<'a>(touch: &Touch<'a>, above: Touch<'a>) -> Touch<'a>
    ensures { touched result ≡ within (touched touch.now) (touched above.entry) }
{
    match touch {
        Touch::Nothing => Touch::Nothing,
        Touch::Whole | Touch::Item | Touch::Entry(_) => above,
    }
}

/// What the change of a part touches of its holder, or `None` where the holder is replaced.
pub(crate) fn carried<'a>(steps: &PartSteps<'a>, touch: &Touch<'a>) -> Option<Touch<'a>>
    ensures carries { (d : Data) (e : Located) → top_of e ≡ touched touch.now → Carries steps.now (Some d) e result }
    ensures whole { IfSome result (λ above. has_whole (steps.now ∷ []) ≡ false) }
{
    match steps {
        PartSteps::Whole => None,
        PartSteps::Same => Some(*touch),
        PartSteps::Item(_) | PartSteps::Pair(_) => Some(within(touch, Touch::Item)),
        PartSteps::Entry(key) => Some(within(touch, Touch::Entry(key))),
        PartSteps::Beside(key) => {
            if is_beside(touch, key) {
                Some(*touch)
            } else {
                None
            }
        }
    }
}
