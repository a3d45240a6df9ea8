//! The numbers of sessions.
ghost use Rattle.std.specs.Prelude.{◌≡◌, ◌∷◌, []};
ghost use Rattle.ild_heads_lines.specs.Number.{number_of, is_digit};

fn is_digit(byte: u8) -> bool
    ensures { result ≡ is_digit byte }
{
    byte > 47 && byte < 58
}

/// The number that a text writes: one of at most three digits, with no zero in front.
pub(crate) fn number_of(text: &str) -> Option<u32>
    ensures { result ≡ number_of text.now }
{
    match text.as_bytes() {
        [a] => one(*a),
        [a, b] => two(*a, *b),
        [a, b, c] => three(*a, *b, *c),
        _ => None,
    }
}

fn one(a: u8) -> Option<u32>
    ensures { result ≡ number_of (a ∷ []) }
{
    if is_digit(a) {
        Some(u32::from(a) - 48)
    } else {
        None
    }
}

fn two(a: u8, b: u8) -> Option<u32>
    ensures { result ≡ number_of (a ∷ b ∷ []) }
{
    if a != 48 && is_digit(a) && is_digit(b) {
        Some((u32::from(a) - 48) * 10 + (u32::from(b) - 48))
    } else {
        None
    }
}

fn three(a: u8, b: u8, c: u8) -> Option<u32>
    ensures { result ≡ number_of (a ∷ b ∷ c ∷ []) }
{
    if a != 48 && is_digit(a) && is_digit(b) && is_digit(c) {
        Some((u32::from(a) - 48) * 100 + (u32::from(b) - 48) * 10 + (u32::from(c) - 48))
    } else {
        None
    }
}
