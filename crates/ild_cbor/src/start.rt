//! The start of an item that was checked before: its head, and the bytes behind it.
ghost use Rattle.std.specs.Prelude.{◌≡◌, ◌<◌, ◌^◌, ◌*◌, ◌-◌, ℕ, List, ◌++◌, length, min, drop};

use crate::head::argument;

/// The major type and the argument of an item, and the bytes behind its head.
#[derive(Clone, Copy)]
pub(crate) struct Start<'b> {
    pub(crate) major: u8,
    pub(crate) argument: u64,
    pub(crate) rest: &'b [u8],
}

impl<'b> Start<'b> {
    ghost use Rattle.ild_data.specs.Spell.{head};
    ghost use Rattle.ild_cbor.specs.inside.Shape.{IsStart};

    /// The start of the item at the front of the bytes.
    pub(crate) fn of(bytes: &'b [u8]) -> Start<'b>
        ensures start { (major n : ℕ) (rest : List ℕ) → n < 2 ^ 64 → bytes.now ≡ head major n ++ rest → IsStart result major n rest }
        ensures shorter { 0 < length bytes.now → length result.rest.now < length bytes.now }
    {
        match bytes {
            [] => Start {
                major: 7,
                argument: 0,
                rest: bytes,
            },
            [first, tail @ ..] => match argument(*first % 32, tail) {
                Some((argument, rest)) => Start {
                    major: *first / 32,
                    argument,
                    rest,
                },
                None => Start {
                    major: 7,
                    argument: 0,
                    rest: tail,
                },
            },
        }
    }
}
