//! What is done at a place.
ghost use Rattle.std.specs.Prelude.{◌≡◌};
ghost use Rattle.ild_path_place.specs.Comes.{comes};

/// What is done at a place.
#[derive(Clone, Copy, Debug, PartialEq, Eq)]
pub enum Verb {
    /// A part is set, there before or not.
    Set,
    /// A part is inserted where none is, or an element before the one that is there.
    Ins,
    /// The part there is deleted.
    Del,
}

/// Whether a part comes.
pub(crate) fn comes(verb: Verb) -> bool
    ensures { result ≡ comes verb }
{
    match verb {
        Verb::Set | Verb::Ins => true,
        Verb::Del => false,
    }
}
