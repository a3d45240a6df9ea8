//! How long heads are.
ghost use Rattle.std.specs.Prelude.{◌≡◌, length};
ghost use Rattle.ild_data.specs.Spell.{head};

/// How many bytes the head of a text with so many bytes takes.
pub(crate) fn head(count: usize) -> usize
    ensures { result ≡ length (head 3 count) }
{
    match count {
        0..=23 => 1,
        24..=0xff => 2,
        0x100..=0xffff => 3,
        0x1_0000..=0xffff_ffff => 5,
        _ => 9,
    }
}
